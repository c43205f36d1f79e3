//! What the server reads from and writes to, clock and dice, and the requests that stand in bytes. Each trait has a
//! fake in memory, which tells its content, and an adapter over the host, which tells nothing.
//!
//! Which requests stand in bytes is a relation without offsets (`RequestsOf` of `specs/Requests`): bytes are a request
//! and a rest, and so on, and the end is named. `specs/Blocks` says where a head's block ends, `specs/Heads` what a
//! head asks for and when it is refused; the grammar of a head is that of `httparse`. `specs/Reading` says what
//! `next_request` comes to.
//!
//! `block.rt` looks at each byte once, however the bytes are cut, `head.rt` judges, and `read.rt` reads. That bytes
//! have one reading is a law, so that replies don't depend on how the bytes come.
#![tactic(auto)]

mod block;
mod calls;
mod clock;
mod dice;
mod ends;
mod head;
mod host;
mod memory;
mod read;
mod refusal;
mod request;
mod source;
mod write;

pub use calls::Calls;
pub use clock::{Clock, FixedClock};
pub use dice::{CountingDice, Dice};
pub use ends::Ends;
pub use host::{HostClock, HostDice, HostSink, HostSource};
pub use memory::{MemoryLink, MemorySink, MemorySource};
pub use pocket_types::Failed;
pub use read::next_request;
pub use refusal::{refused_reply, status_phrase};
pub use request::{
    Ended, Inbox, Next, Request, WireFault, decisions_stay, requests_are_determined,
};
pub use source::{Link, Sink, Source};
pub use write::write_all;
