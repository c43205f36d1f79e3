// Laws of the choice of fields. Each is a function without a body.
ghost use Rattle.std.specs.Prelude.{◌≡◌, ℕ, List, [], ◌∷◌, ◌++◌, None, Some, codes};
ghost use Rattle.pocket_types.specs.declared.json.Jv.{Jv};
ghost use Rattle.pocket_json.specs.Choosing.{Cuts, CutsByLevel, KeyPath, choose_by, kept_member, rests_behind};

/// The whole tree stands where no text is given.
pub fn no_text_chooses_all()
    ensures { (tree : Jv) → choose_by None tree ≡ tree }
{}

/// Lists are cut item by item, maps member by member, and all else is kept.
pub fn trees_are_cut_by_level()
    ensures { CutsByLevel }
{}

/// A key that a path names last is kept whole, whatever else is named.
pub fn a_key_named_last_is_kept_whole()
    ensures { (key : List ℕ) (value : Cuts) (before after : List KeyPath)
        → kept_member (before ++ (key ∷ []) ∷ after) (key, value) ≡ Some (key, value.whole) }
{}

/// Where `*` stands last, each key that no other path leads through is kept whole.
pub fn a_star_keeps_all_others_whole()
    ensures { (key : List ℕ) (value : Cuts) (before after : List KeyPath) → rests_behind key (before ++ after) ≡ []
        → kept_member (before ++ (codes "*" ∷ []) ∷ after) (key, value) ≡ Some (key, value.whole) }
{}
