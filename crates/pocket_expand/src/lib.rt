//! Records with the related records that their caller asks for in `expand`.
//!
//! The text is read once for a request, into a tree of names (`tree_of` of `specs/Names`): paths that begin with one
//! name share its branch, and a name that can't be that of a relation or of a back relation is left out. What stands
//! under the names of a record is a fold over that tree (`expands` of `specs/Expansion`) in the world that the caller
//! sees, so that an expansion is a function of that world and of the record as the caller sees it.
//!
//! No such world is made: the records of a relation are looked up in the held order, those of a back relation are read
//! by id until a thousand were admitted, and the view rule is asked of each (`related.rt`). `specs/Met` tells that in
//! whole records, and `proofs/HolderLemmas` and pocket_gate's `proofs/ShownLemmas` say that this is what stands in the
//! world that is seen. A record costs as many look-ups as its node has names.
#![tactic(auto)]

pub mod laws;
mod names;
mod related;
mod walk;

pub use names::{Names, names_of};
pub use walk::expand_names;
