// What follows from the definitions. Each law is a function without a body.
ghost use Rattle.std.specs.Prelude.{◌≡◌, None};
ghost use Rattle.pocket_types.specs.Callers.{is_admin};
ghost use Rattle.pocket_types.specs.declared.records.Collection.{Collection};
ghost use Rattle.pocket_types.specs.declared.records.Rec.{Rec};
ghost use Rattle.pocket_types.specs.declared.requests.Ask.{Ask};
ghost use Rattle.pocket_types.specs.declared.world.World.{World};
ghost use Rattle.pocket_ops.specs.Trees.{rec_jv};
ghost use Rattle.pocket_gate.specs.Seen.{seen_world};
ghost use Rattle.pocket_expand.specs.Expansion.{expansion_by};
ghost use Rattle.pocket_expand.specs.Names.{names_of};
ghost use Rattle.pocket_expand.specs.declared.names.Names.{Names};

/// What a caller doesn't see tells nothing: where two worlds look the same, a record's expansion is the same.
pub fn what_is_not_seen_tells_nothing()
    ensures { (w v : World) (ask : Ask) (c : Collection) (r : Rec) (names : Names) → seen_world w ask ≡ seen_world v ask
        → expansion_by w ask c r names ≡ expansion_by v ask c r names }
{}

/// Without a text there is the record alone: with its hidden fields for the administrator, else without them.
pub fn without_a_text_there_is_the_record()
    ensures { (w : World) (ask : Ask) (c : Collection) (r : Rec) → expansion_by w ask c r (names_of None) ≡ rec_jv c r (is_admin ask.caller) }
{}
