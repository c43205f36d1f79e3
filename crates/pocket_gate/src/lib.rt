//! Rules asked of records, and what a caller sees by them.
//!
//! `specs/Rules` says what the rule for an action says of a record of a collection (`verdict`), for a request in a
//! world. To the administrator everything is allowed. To others a locked rule says `Locked`, a free one `Allowed`, and
//! a filter `Allowed` where it holds of the record in that world, else `RuleFalse`. The record need not stand in the
//! world: one that is to be created is judged too. `specs/Seen` says which world a caller sees (`seen_world`): the
//! administrator the whole; to others each collection shows the records that its view rule allows, judged in the whole
//! world, without its hidden fields and their cells. So what a caller sees is what a guard by the view rules leaves,
//! and one guard serves all callers, since who asks is part of the request. That the two are the same world needs the
//! names of collections to be apart, as they are in tables. `specs/Shown` tells the same of single records, which are
//! looked up and asked as they are met.
//!
//! `Rules::build` parses, resolves and compiles each rule once. `Rules` keeps for each action the collections with whom
//! their rules let through: all, nobody, or those of whom a plan's filter holds. For viewing that list is the guard
//! itself. `specs/Built` says what is built, as a function of the collections (`rules_of`, `guard_of`), so that callers
//! know rules by the equation `rules_of` of the tables' collections. The definitions of verdicts and of what is seen
//! know nothing of plans; `proofs/Tests` and `proofs/Sights` lead from one to the other.
#![tactic(auto)]

mod building;
pub mod laws;
mod rules;
mod verdict;
mod viewing;

pub use rules::{Rules, is_locked_for};
pub use verdict::Verdict;
pub use viewing::{collection_named, field_seen, if_viewable, record_seen};
