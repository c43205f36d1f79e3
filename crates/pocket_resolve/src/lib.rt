//! Filters resolved: each name of an expression is looked up in the collections, and each path becomes a prefix of
//! steps with a field at its end.
//!
//! `specs/Paths` says what a step and a last part are, `specs/Roots` how a path begins, `specs/Filters` how operands
//! follow one another and what a prefix counts. Apart from these, `specs/Typing` says what it means that a resolved
//! filter is typed, and `specs/Safety` that it is safe to be asked by a client: both are clauses of `resolve`, beside
//! the equation.
//!
//! Each function of the code has the contract `Gives result answer`: the answer of its definition, unless memory is
//! wanting. A path is walked with one prefix that grows behind a `&mut`, and `answers::with` joins a value in hand with
//! a result that comes later, so that no function owns a tree at a `?`. `places` holds where a path stands: at a record
//! of a collection, at the caller's record, or at one of a collection that isn't there. `steps` and `ends` have the
//! parts before the last and the last, `sent` headers, query and body, `paths` the beginnings, `filters` operands by
//! their number, and `prefixes` the count.
#![tactic(auto)]

mod answers;
mod ends;
mod faults;
mod fields;
mod filters;
mod names;
mod paths;
mod places;
mod prefixes;
mod purpose;
mod resolution;
mod sent;
mod steps;

pub use fields::collection_named;
pub use names::cut_at_via;
pub use pocket_types::ResolveFault;
pub use purpose::Purpose;
pub use resolution::resolve;
