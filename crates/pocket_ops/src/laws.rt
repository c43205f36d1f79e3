// What follows from the definitions. Each law is a function without a body.
ghost use Rattle.pocket_types.specs.Sound.{IsSoundCollection};
ghost use Rattle.pocket_types.specs.declared.records.Collection.{Collection};
ghost use Rattle.pocket_ops.specs.Lengths.{HasOwnNames};

/// The records of every sound collection have rows whose length `row_len` tells.
pub fn sound_collections_have_own_names()
    ensures { (c : Collection) → IsSoundCollection c → HasOwnNames c }
{}
