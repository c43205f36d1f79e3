//! The office: a state and its keeper as one machine, which a desk can serve to any number of callers.
//!
//! `specs/Offices` says what holds of it between any two calls, and what it says to a work: the machine's answer, or
//! that memory is wanting, and where the keeper's count rose that the keeper failed. A desk says of its machine no more
//! than its opening and its history; so the office keeps what the keeper was at first in a `Snapshot`, which has no
//! bytes, and nothing that the keeper didn't tell is said of it later. `proofs/Crossing` shows, type by type from JSON
//! trees up, that a state may go to another thread.
#![tactic(auto)]

mod office;

pub use office::Office;
