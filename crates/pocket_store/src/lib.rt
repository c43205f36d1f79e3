//! A store opened: from kept rows to the state that they stand for.
//!
//! `specs/Stores` is the page to read: what makes a row good, what the first bad row is, and which rows a state has.
//! `specs/SoundStates` says what a sound state is, in the words of the world and no longer of rows. A store is opened
//! exactly where no row is bad; what comes is the one sound state with these rows (`laws`), and every sound state,
//! printed as rows, opens to itself (`proofs/OpenLemmas`).
//!
//! `good_collections`, `rules`, `good_recs` and `good_tokens` judge rows, `places` searches, `limits` counts, and
//! `stores` goes through the rows. That what was read is sound is proved of the end alone (`proofs/SoundLemmas`): the
//! loop keeps that the shelves' rows are the rows so far, in order, and what they take of the limits; the rest follows
//! from each row's being good.
#![tactic(auto)]

mod good_collections;
mod good_recs;
mod good_tokens;
pub mod laws;
mod limits;
mod places;
mod rules;
mod stored;
mod stores;

pub use stored::{StoreFault, Stored};
pub use stores::stored_of;
