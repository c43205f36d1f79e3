//! One machine that serves any number of threads, one call at a time, and passes that know what they have seen of its
//! history.
//!
//! Threads share the machine by a ticket lock. A call's place in the history has to be one event that every proof can
//! name: the one add to the word `length` in a held turn. A mutex would keep the machine as safe, but no clause can say
//! what the machine was at the moment at which it was taken. `specs/Pass` has what contracts see and what the calls of
//! a desk say, over `specs/History` and `specs/Machine`. The rule of the lock (`LockHolds` of `specs/Lock`) holds
//! between any two steps:
//!
//! - The tickets out are the numbers from `serving` up to `ticket`, each with one seat.
//! - The machine is at home, with a history of `length` works, or the seat whose ticket is `serving` has taken the
//!   slot.
//! - What each seat has seen is a beginning of the history. The entries with its number are exactly the works that are
//!   its own, and a number that no seat has had has no entry.
//! - No two seats have a number in common, now or by later splits: a seat with a number n and a stride s owns n, n + s,
//!   n + 2s and so on, and a split leaves it every second of them.
//! - A seat that others were joined to holds their numbers as well, and has seen every entry of the numbers that it
//!   holds. So one that holds all numbers, since every other was joined to it again, has seen the whole history.
//!
//! A step changes one word and the view of the seat that steps; it may also take the slot or give it back. Only the
//! seat whose ticket is served touches `length`, `serving` and the slot, so one lemma (`served_steps` in
//! `proofs/Views`) covers all its steps: every other seat's view still holds. While a thread waits it yields. Nothing
//! is claimed of fairness or progress.
#![tactic(auto)]

mod desk;
mod lock;
mod machine;
mod turn;
mod view;

pub use desk::{Desk, Pass};
pub use machine::Machine;
pub use view::{Call, Entry, Numbers};
