//! What a state of the machine is, who sends a request, and what becomes of a state when one record is put. Definitions
//! and laws alone: the machine's proofs cite them, and no program calls them.
//!
//! `specs/States` says what a state is and when it is sound, `specs/Putting` what it is with a record that is put. The
//! laws say that a sound state with a record that may be put is sound, and that of its kept rows the record's own
//! changes alone.
#![tactic(auto)]

pub mod laws;
