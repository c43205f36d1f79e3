//! Sessions and workers: the requests of a connection are answered one after the other, a worker serves its connections
//! one after the other, and many workers serve one machine.
//!
//! `specs/Sessions` says what a session is: which requests stand in the bytes, the calls that answered them, what was
//! sent, and how it ended. It is stated over a history of which a session knows a front, and says where the next call
//! may stand (`specs/Owners`): right behind what was seen, for a machine with one owner, or anywhere behind it, at a
//! desk that many share. That a session over a history is one over each longer history is a law, so that the steps of a
//! session serve both. `specs/Sending` says how much of what was sent the sink took, and `specs/Drawing` what was
//! drawn.
//!
//! There is one loop of a session, over a `Service`: whatever answers the works of a connection. `connection.rt` has
//! the service of a desk, which calls the gate, by which tests hold a call, and then the desk; `specs/Passes` says what
//! that does to a pass. An `Acceptor` gives connections, and promises a place for each one that it gave (`has_place`),
//! so that taking it back needs no memory and can't be refused. `hand.rt` serves the links of one worker
//! (`specs/Hands`), and `workers.rt` all hands over one machine (`specs/Workers`), whose history is what the workers
//! entered. It takes the hands and gives them back by value: of what a joined thread wrote through a `&mut` nothing is
//! known.
#![tactic(auto)]

mod acceptor;
mod connection;
mod gate;
mod hand;
mod input;
pub mod laws;
mod memory;
mod service;
mod session;
mod steps;
mod workers;

pub use acceptor::Acceptor;
pub use connection::answer_connection;
pub use gate::{Gate, NoGate};
pub use hand::{Hand, WorkerEnd, serve_hand};
pub use input::{FinishedLink, LinkInput};
pub use memory::MemoryAcceptor;
pub use service::Service;
pub use session::run_session;
pub use workers::{ServedMachine, serve_machine};
