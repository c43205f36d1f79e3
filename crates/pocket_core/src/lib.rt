//! The machine: a state is opened from kept rows, and answers one request at a time.
//!
//! The abstract machine is six pages of `specs/`: `Outcomes` (what a call comes to), `Showing` (what is shown of a
//! record), `Views` (a view, in the order of its refusals), `Lists` (a list, and a page as JSON), `Changing` (creations
//! and updates) and `Answers` (the state after a history, and the answer to a work). What a state is stands in
//! pocket_states.
//!
//! The code is proved against them. `callers.rt` finds the token by binary search, `views.rt` goes through the refusals
//! of a view, one small function each, and `lists.rt` has `pocket_read` find the page and makes JSON of its records
//! alone. `showing.rt` reads what a request asks to be shown once, has `pocket_expand` make a record with its related
//! records, and cuts it down by `pocket_json`. Of a changing call `courses.rt` finds what is to be done, `changing.rt`
//! plans the change, `entering.rt` puts, commits and enters it, and `handling.rt` joins the two; `specs/Courses`,
//! `Preparing` and `Entering` say what each leaves to the next.
//!
//! The definitions judge a view and a list in the whole world, as the code does. That nothing of it but the seen world,
//! and of a list the records that may be listed, comes through is a law (`specs/Laws`, `proofs/DependenceLemmas`). A
//! call that isn't built yet is answered as a path that isn't there.
#![tactic(auto)]

mod callers;
mod changing;
mod courses;
mod entering;
mod handling;
pub mod laws;
mod lists;
mod opening;
mod refusals;
mod showing;
mod state;
mod views;

pub use opening::StartFault;
pub use pocket_keeper::Token;
pub use pocket_store::{StoreFault, Stored, stored_of};
pub use state::State;
