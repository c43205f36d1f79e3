//! What a creation and an update of a record put, or the first cause why nothing is changed.
//!
//! `specs/Changes` is a chain of refusals, each of which ends it, up to the record that is put; `specs/Limits` has the
//! three limits, and `specs/Plans` the parts in the order in which the code goes. `plan_create` and `plan_update` give
//! the delta that puts this record, or the first refusal, with the tables as before and ready for the delta;
//! `refuse_update` gives the refusal where no record can be there.
//!
//! A candidate is judged in the tables themselves, in which it is put and from which it is taken again, so that no
//! world is copied. The laws say that what is created or updated may be put (`MayBePut` of `specs/Puts`): it is sound,
//! its delta fits, its relations lead to records with it put in, and no limit is passed.
#![tactic(auto)]

mod bodies;
mod candidates;
mod copies;
mod fault;
mod judging;
pub mod laws;
mod limits;
mod planning;
mod putting;

pub use fault::ChangeFault;
pub use planning::{plan_create, plan_update, refuse_update};
