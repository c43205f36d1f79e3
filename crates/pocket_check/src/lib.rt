//! The bodies of records, and what is wrong with a record.
//!
//! `specs/Cells` says which cell a value of JSON is for a field, with `null` as the zero value. `specs/Bodies` says
//! which fields a body sends over old cells: a field's keys are a list, each with the change that it makes, and the
//! sent field is the fold of these changes over its old cell; `specs/Changes` says the same one change after another,
//! as the code goes. `specs/Validity` is the table of what may be wrong with a field, in its order, of which the first
//! case counts.
//!
//! `read_body`, `given_id`, `zero_cells` and `faults` are these definitions. Old cells and sent numbers are at most
//! 2^53 - 1 in size, so that a sum fits its type, and is told as out of range afterwards. A field is unique only where
//! it holds one item, so another record with its value is found by two look-ups at most. The laws say what is known of
//! cells that were sent: they have the shape of their collection, they fit where nothing is wrong, and relations with
//! nothing wrong lead to records.
#![tactic(auto)]

mod bodies;
mod change;
mod fault;
mod items;
mod keys;
pub mod laws;
mod ranges;
mod taken;
mod validity;
mod values;

pub use bodies::{given_id, read_body};
pub use fault::CheckFault;
pub use validity::faults;
pub use values::zero_cells;
