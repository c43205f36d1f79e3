//! The records of a world, kept for reads that are counted and for changes that can't fail and can be undone.
//!
//! Contracts see of `Tables` a world and the places that are prepared in them (`specs/Kept`), and nothing of how they
//! are kept: a list of collections, and for each name a drawer of records, found by binary search. The four reads
//! (`specs/Reads`) answer with the world's record and count a step each. A field is compared with a value without
//! making its own: the text that a JSON tree would print is held against the other text part by part (`fronts.rt`), so
//! that no read takes memory. The next record is looked for from its place on, so that going through a collection one
//! by one costs what going through it once does, but for a binary search at each.
//!
//! A delta puts and cuts collections and records, all at once (`specs/Deltas`: the world after it, its inverse, which
//! deltas fit). `reserve` makes the places for what it puts, and the delta is ready then; `apply` needs it ready, takes
//! no memory and can't fail: what it puts goes where it belongs, and what stood there takes its place in the delta,
//! which so becomes its own inverse. Readiness is one definition that callers never open. What counts is that the
//! records after a delta and the puts of its inverse are together as many as the records before it and its own puts, so
//! that the same places serve the way there and the way back. Every call promises that whatever delta was ready in
//! whatever world is ready there still (`KeepsReady`). So deltas nest: when later ones have been undone, an earlier
//! inverse can be applied (`apply_next`, `go_back`). A drawer is never taken away, since its room is what a cut
//! collection's inverse needs.
//!
//! The number of records and the bytes of their rows are kept and not summed at each call. A change takes from them
//! what stands where it is, before it is made, and adds what stands there afterwards. That these are the sums over the
//! whole world again is the one argument over all records at once (`proofs/BalanceLemmas`): without the records that a
//! delta touches, the world before and the world after weigh the same. Sums are held at 2^64 - 1; where one is held
//! there, what was before isn't known, and it is made anew.
//!
//! The laws tie the definitions to plain words: after a delta each look-up gives what the delta says or else what it
//! gave; an inverse fits afterwards and leads back; worlds with the same look-ups are one.
#![tactic(auto)]

mod applying;
mod changes;
mod drawers;
mod fields;
mod finding;
mod following;
mod fronts;
pub mod laws;
mod lending;
mod parts;
mod reading;
mod reserving;
mod swaps;
mod tables;
mod tallies;
mod totals;
mod values;

pub use fields::is_single;
pub use following::{apply_next, go_back};
pub use tables::Tables;
pub use totals::Totals;
