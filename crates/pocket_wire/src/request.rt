ghost use Rattle.std.specs.Prelude.{◌≡◌, []};
ghost use Rattle.pocket_wire.specs.Requests.{AreDetermined, StayDecided};

use pocket_types::{Method, Pair, Seq, Text};
use std::alloc::{AllocError, Global};
use thiserror::Error;

/// A request as it stands in its bytes.
#[derive(Drop)]
pub struct Request {
    pub method: Method,
    /// The path, and where there is one the query behind a `?`.
    pub target: Text,
    /// The headers whose value is UTF-8, in their order, without the white space around the value.
    pub headers: Seq<Pair>,
    pub body: Seq<u8>,
    /// Whether the connection ends after the reply.
    pub close: bool,
    /// The number of bytes of head and body, with the line end before the head where there is one.
    pub cost: u64,
}

/// What comes next on a connection.
#[derive(Drop)]
pub enum Next {
    Request(Request),
    /// The input ended where a request would begin.
    End,
    /// The input ended inside a request.
    Truncated,
    /// Bytes that aren't a request, with the status that answers them. The connection ends.
    Refused(u16),
}

/// Bytes that were read and are not used yet. They stand before those that the source has left.
#[derive(Drop)]
pub struct Inbox {
    pub left: Seq<u8>,
}

/// How a connection ended.
#[derive(Clone, Copy, Debug, PartialEq, Eq)]
pub enum Ended {
    /// The input ended where a request would begin.
    Done,
    /// A request asked for the end.
    Closed,
    /// Bytes weren't a request, and were answered with this status.
    Refused(u16),
    /// The input ended inside a request.
    Truncated,
    /// As many requests were answered as a connection may have.
    Limit,
    /// A read failed.
    SourceFault,
    /// A write failed.
    SinkFault,
    /// There was no memory for a request or for its reply.
    Memory,
}

/// Why nothing can be said of the next bytes. The connection ends.
#[derive(Clone, Copy, Debug, PartialEq, Eq, Error)]
pub enum WireFault {
    #[error("the input can't be read")]
    SourceFault,
    #[error("out of memory")]
    Memory,
}

impl From<AllocError> for WireFault {
    ghost use Rattle.pocket_wire.specs.declared.request.WireFault.TheVariants.{Memory};

    ghost from_gives = { λ _ e. e ≡ Memory };

    fn from(_: AllocError) -> WireFault {
        WireFault::Memory
    }
}

impl Inbox {
    /// An inbox without bytes.
    pub fn new(alloc: Global) -> Inbox
        ensures { result.left ≡ [] }
    {
        Inbox {
            left: Seq::new(alloc),
        }
    }
}

/// The requests that stand in bytes, of which there may be so many, and how the bytes end are a function of the bytes: it doesn't
/// matter in which pieces they come.
pub fn requests_are_determined()
    ensures { AreDetermined }
{}

/// What bytes decide isn't changed by those that follow.
pub fn decisions_stay()
    ensures { StayDecided }
{}
