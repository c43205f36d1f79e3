//! Pages of lists: the records that a list rule admits, as a client's filter and sort ask for them.
//!
//! Which page a query asks for is a function of world, request, collection and query (`page_of` of `specs/Pages`). The
//! locked rule is refused first, then what is wrong with filter and sort. The records are those that the list rule
//! admits in the whole world and that pass the client's filter in the world that the caller sees (`specs/Filtering`);
//! they stand in the order of the terms' values in that world (`specs/Sorting`), which `specs/Terms` reads from the
//! text. A term's names are looked up as those of the left side of a comparison in a client's filter, so that one
//! clause says what a client may name.
//!
//! No such world is made: the filter is asked under the guard, and a key asks the view rule of each record that its
//! path meets (`keys.rt`; `proofs/SeenLemmas` says that this is what stands there). Each record of the collection is
//! read once. Without terms the records stand in order as they are read; with terms a key is made once for each record
//! that passes, and std's stable sort puts them in order, of which `proofs/Sorted` shows that it is the definition's.
//! Only the ids of the page are copied.
#![tactic(auto)]

mod faults;
mod filters;
mod keys;
pub mod laws;
mod listing;
mod order;
mod page;
mod terms;

pub use faults::ReadFault;
pub use listing::list;
pub use page::Page;
