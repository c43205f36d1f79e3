ghost use Rattle.std.specs.Prelude.{◌≡◌};
ghost use Rattle.std.specs.List.{list_any};
ghost use Rattle.pocket.specs.Exits.{is_faulted, session_exit};

use pocket_api::{Draw, Work};
use pocket_serve::WorkerEnd;
use pocket_types::{Seq, Text};
use pocket_wire::Ended;
use std::fmt;

/// What one request was given: its place among the accepted commands, and its draw.
#[derive(Clone, Copy)]
pub struct Turn {
    pub at: u64,
    pub draw: Draw,
}

/// How a run ended.
#[derive(Drop)]
pub enum RunEnd {
    /// The store was opened, and the session ended so.
    Session(Ended),
    /// The words of the command line aren't good.
    Words,
    KeeperFault,
    /// The first row that may not stand in a store, by its key.
    BadStore(Text),
    Memory,
    SourceFault,
    SinkFault,
    /// A check found so many faults.
    Faults(u32),
    /// A check's input isn't a list of collections.
    BadInput,
    /// A load needs a store without rows.
    NotEmpty,
}

/// What a run came to.
#[derive(Drop)]
pub struct Status {
    pub ended: RunEnd,
    /// One for each request that reached the machine, in their order.
    pub turns: Seq<Turn>,
    /// The commands that were accepted, in their order.
    pub journal: Seq<Work>,
}

/// How a server ended.
#[derive(Drop)]
pub struct ServeStatus {
    /// `Session(Done)` where the desk was opened and every worker ended, and else why nothing was served.
    pub started: RunEnd,
    /// How each worker ended, in the order of the hands. None where nothing was served.
    pub workers: Seq<WorkerEnd>,
}

fn session_code(ended: Ended) -> u8
    ensures { result ≡ session_exit ended }
{
    match ended {
        Ended::Done | Ended::Closed => 0,
        Ended::SourceFault => 3,
        Ended::SinkFault => 4,
        Ended::Refused(_) => 7,
        Ended::Truncated => 8,
        Ended::Limit => 9,
        Ended::Memory => 10,
    }
}

impl RunEnd {
    ghost use Rattle.pocket.specs.Exits.{exit_status};

    /// The exit status: 0 where all went well, and else a number for each cause.
    pub fn code(&self) -> u8
        ensures { result ≡ exit_status self.now }
    {
        match self {
            RunEnd::Session(ended) => session_code(*ended),
            RunEnd::Faults(_) => 1,
            RunEnd::Words => 2,
            RunEnd::SourceFault => 3,
            RunEnd::SinkFault => 4,
            RunEnd::KeeperFault => 5,
            RunEnd::BadStore(_) => 6,
            RunEnd::BadInput => 7,
            RunEnd::Memory => 10,
            RunEnd::NotEmpty => 11,
        }
    }
}

fn has_faulted(workers: &[WorkerEnd]) -> bool
    ensures { result ≡ list_any is_faulted workers.now }
{
    workers.iter().any(|worker| worker.faulted)
}

impl ServeStatus {
    ghost use Rattle.pocket.specs.Exits.{serve_exit};

    /// The exit status: that of `started`, or 12 where it was started and the acceptor of a worker failed.
    pub fn code(&self) -> u8
        ensures { result ≡ serve_exit self.now.started self.now.workers }
    {
        let faulted = has_faulted(self.workers.as_slice());
        match self.started {
            RunEnd::Session(Ended::Done) if faulted => 12,
            _ => self.started.code(),
        }
    }
}

impl fmt::Display for RunEnd {
    fn fmt<W: fmt::Write>(&self, f: &mut fmt::Formatter<W>) -> fmt::Result {
        match self {
            RunEnd::Session(Ended::Done) => f.write_str("done"),
            RunEnd::Session(Ended::Closed) => f.write_str("the last request asked for the end"),
            RunEnd::Session(Ended::Refused(status)) => write!(
                f,
                "bytes that aren't a request were answered {status}"
            ),
            RunEnd::Session(Ended::Truncated) => f.write_str("the input ended inside a request"),
            RunEnd::Session(Ended::Limit) => f.write_str(
                "as many requests were answered as a connection may have",
            ),
            RunEnd::SourceFault | RunEnd::Session(Ended::SourceFault) => f.write_str(
                "the input can't be read",
            ),
            RunEnd::SinkFault | RunEnd::Session(Ended::SinkFault) => f.write_str(
                "the output can't be written",
            ),
            RunEnd::Memory | RunEnd::Session(Ended::Memory) => f.write_str("out of memory"),
            RunEnd::Words => f.write_str("the words aren't good"),
            RunEnd::KeeperFault => f.write_str("the store can't be read or written"),
            RunEnd::BadStore(key) => write!(
                f,
                "bad row {key}: the server would not have written it so"
            ),
            RunEnd::Faults(count) => write!(f, "{count} faults"),
            RunEnd::BadInput => f.write_str("the input isn't a list of collections"),
            RunEnd::NotEmpty => f.write_str("the store has rows already"),
        }
    }
}
