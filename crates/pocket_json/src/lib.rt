//! JSON trees read from bytes, and cut down to fields.
//!
//! `specs/Reading` says which tree bytes are: the one value of the kit's grammar that the text is, at most 32 levels
//! deep, with each number taken as a whole number below 2^53 in size and each member put among the earlier ones at its
//! key. It stands on the crate `json` that lies under `serde_json`, and not on `serde_json::Value`: that keeps only the
//! last of equal keys, so that a bad number or a level too many in a member that is replaced would be gone before it
//! could be judged. `json::Value::read` goes no deeper than 32 levels, and so nothing here calls itself more deeply.
//! That a tree as `read_jv` gives them, printed and read, is itself is proved by induction over trees
//! (`proofs/RoundTrips`): the compact text of `pocket_types` is what the kit's writer prints for the tree's tokens
//! (`proofs/Outlines`), and those are read back.
//!
//! `specs/Choosing` says what is left of a tree for a text of fields. It is a fold that gives each tree whole and cut
//! down to any paths, so that a key that is kept whole and one that is cut come from one pass;
//! `laws::trees_are_cut_by_level` says what that comes to, a level at a time. A text is read once to `FieldPaths`. A
//! level sees its paths as slices of what they still name, each key looks through them once, and what it finds are the
//! slices for the level below: no key is copied, and nothing calls itself more deeply than the tree goes.
#![tactic(auto)]

mod choosing;
mod convert;
mod faults;
pub mod laws;
mod numbers;
mod read;

pub use choosing::{FieldPaths, choose, choose_paths, field_paths};
pub use faults::JsonFault;
pub use read::{printed_tree_is_read, read_jv};
