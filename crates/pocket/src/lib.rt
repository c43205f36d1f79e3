//! The top calls: a run of the program over words, bytes, a keeper, a clock and dice (`run_plain`), and a server over
//! words, hands and a keeper (`run_serve`).
//!
//! `specs/Runs` says what a run comes to, over `specs/Words` (the programs that words name), `specs/Calls` (the calls
//! of a run and its turns) and `specs/Exits` (the exit statuses). `StateService` is a state that answers one connection
//! alone and notes the turns; `run_plain` judges the words, opens the state and runs the session. What becomes of the
//! keeper over a session is the sum of what each call says of it (`IsKeptOver` of `specs/Keeping`): it isn't lent again
//! as it was, but with the rows of the state that answers. `run_serve` is a few lines over
//! `pocket_serve::serve_machine` and an office.
//!
//! `acceptor.rt` has the host's connections. One that ended is shut, and what its peer still sends is read for a
//! moment, at most 64 pieces: the system resets a connection that is closed over unread bytes, and the peer would lose
//! the reply that was sent last, as to a request that is too large.
#![tactic(auto)]

mod acceptor;
pub mod laws;
mod run;
mod sample;
mod serve;
mod service;
mod status;
mod words;

pub use acceptor::{HostAcceptor, HostLink, Listener};
pub use pocket_words::{Command, WordFault, read_words};
pub use run::run_plain;
pub use sample::sample_rows;
pub use serve::{Closed, run_serve};
pub use status::{RunEnd, ServeStatus, Status, Turn};
