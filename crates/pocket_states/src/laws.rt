// What follows from the definitions. Each law is a function without a body of its own.
ghost use Rattle.pocket_states.specs.Laws.{PutsKeepRows, PutsKeepSound, TextsDecide};

/// A sound state with a record that may be put into one of its collections is sound, and its collections are as before.
#[tactic(auto, using(crate::proofs::PutLaws::keep_sound))]
pub fn puts_keep_states_sound()
    ensures { PutsKeepSound }
{}

/// Rows that are those of the state are those of the state with the record, once its own row is put.
#[tactic(auto, using(crate::proofs::PutLaws::keep_rows))]
pub fn puts_change_their_row_alone()
    ensures { PutsKeepRows }
{}

/// The rows of the state change exactly where no record of this id had a row of the same text: so two texts decide whether a commit is
/// needed.
#[tactic(auto, using(crate::proofs::PutLaws::decide))]
pub fn texts_of_rows_decide()
    ensures { TextsDecide }
{}
