// What follows from the definitions. Each law is a function without a body of its own.
ghost use Rattle.std.specs.Prelude.{◌≡◌, ◌≢◌, [], List};
ghost use Rattle.pocket_store.specs.Stores.{HaveSameRows};
ghost use Rattle.pocket_api.specs.declared.work.Work.{Work};
ghost use Rattle.pocket_core.specs.Answers.{answer};
ghost use Rattle.pocket_core.specs.Laws.{ListsTellWhatIsSeen, ViewsTellWhatIsSeen};
ghost use Rattle.pocket_states.specs.States.{IsSoundState, MachineState, rows_of, stored_in};

use pocket_store::laws::sound_states_with_equal_rows_are_equal;

/// Two sound states without clients that have the same kept rows are one, but for the administrator's token.
pub fn kept_rows_decide_the_state()
    ensures { (a : MachineState) (b : MachineState) → IsSoundState a → IsSoundState b → a.clients ≡ [] → b.clients ≡ []
        → HaveSameRows (rows_of a) (rows_of b) → record a { admin = b.admin } ≡ b }
{
    sound_states_with_equal_rows_are_equal();
}

/// What a view tells depends on the state only through the collections, who the caller is, and what the caller sees of the records. A
/// record that isn't there and one that may not be viewed are told alike.
#[tactic(auto, using(crate::proofs::DependenceLemmas::views_tell))]
pub fn views_tell_what_is_seen()
    ensures { ViewsTellWhatIsSeen }
{}

/// What a list tells depends besides on the records that the list rule admits for the caller, as the caller sees them.
#[tactic(auto, using(crate::proofs::DependenceLemmas::lists_tell))]
pub fn lists_tell_what_is_seen()
    ensures { ListsTellWhatIsSeen }
{}

/// The machine itself never answers 500: a reply that says so blames the keeper, and the call that made it tells that the keeper was asked.
#[tactic(auto, using(crate::proofs::StatusLemmas::no_answer_is_500))]
pub fn answers_blame_no_keeper()
    ensures { (opening : MachineState) (history : List Work) (work : Work) → (answer opening history work).status ≢ 500 }
{}
