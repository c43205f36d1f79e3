// What follows from the definitions. Each law is a function without a body.
ghost use Rattle.std.specs.Prelude.{◌≡◌, ℕ, List};
ghost use Rattle.pocket_keeper.specs.Rows.{IsRising};
ghost use Rattle.pocket_keeper.specs.declared.rows.KeptRow.{KeptRow};
ghost use Rattle.pocket_store.specs.SoundStates.{IsSoundStored};
ghost use Rattle.pocket_store.specs.Stores.{AreGood, HaveSameRows, IsFirstBadRow, IsStoreOf, stored_rows};
ghost use Rattle.pocket_store.specs.declared.stored.Stored.{Stored};

/// No two sound states have the same kept rows: from its rows a state is known whole, with the order of its shelves, records and
/// tokens.
pub fn sound_states_with_equal_rows_are_equal()
    ensures { (a : Stored) (b : Stored) → IsSoundStored a → IsSoundStored b → HaveSameRows (stored_rows a) (stored_rows b) → a ≡ b }
{}

/// Every sound state, printed as rows in the order of their keys, is a store that opens to it.
pub fn a_sound_state_opens()
    ensures { (rows : List KeptRow) (s : Stored) → IsSoundStored s → IsRising rows → HaveSameRows rows (stored_rows s) → IsStoreOf rows s }
{}

/// Rows stand for at most one sound state and have at most one first bad row, and never both.
pub fn an_opening_has_one_outcome()
    ensures state { (rows : List KeptRow) (a : Stored) (b : Stored) → IsStoreOf rows a → IsStoreOf rows b → IsSoundStored a → IsSoundStored b → a ≡ b }
    ensures row { (rows : List KeptRow) (key : List ℕ) (other : List ℕ) → IsFirstBadRow rows key → IsFirstBadRow rows other → key ≡ other }
    ensures either { (rows : List KeptRow) (key : List ℕ) → AreGood rows → ¬ IsFirstBadRow rows key }
{}
