use pocket_types::Text;
use std::alloc::{AllocError, AllocFailed};
use thiserror::Error;

/// What the program is told to do.
#[derive(Debug, Drop)]
pub enum Command {
    /// Answers the requests of standard input on standard output.
    Pipe {
        /// The administrator's token.
        admin: Text,
        /// The file that keeps the rows; without one they are gone at the end.
        store: Option<Text>,
        /// Whether the rows of the sample are there at the start.
        sample: bool,
    },
    /// Runs the stated load and prints its summary.
    Load {
        start: u32,
        count: u32,
    },
    /// Reads collections as JSON and prints the faults of their rules.
    Check,
    /// Listens on 127.0.0.1.
    Serve {
        /// The administrator's token.
        admin: Text,
        port: u16,
        /// How many workers serve.
        workers: u32,
        /// How many connections each worker serves before it ends.
        connections: u64,
        /// The file that keeps the rows; without one they are gone at the end.
        store: Option<Text>,
    },
}

/// A command that has options.
#[derive(Clone, Copy)]
pub(crate) enum Verb {
    Pipe,
    Serve,
}

/// Why there is no command.
#[derive(Clone, Copy, Debug, PartialEq, Eq, Error)]
pub enum WordFault {
    #[error("the words are no command; use pipe, serve, load or check with their options")]
    BadWords,
    #[error("out of memory")]
    Memory,
}

impl From<AllocError> for WordFault {
    ghost use Rattle.std.specs.Prelude.{◌≡◌};
    ghost use Rattle.pocket_words.specs.declared.command.WordFault.TheVariants.{Memory};

    ghost from_gives = { λ _ fault. fault ≡ Memory };

    fn from(_error: AllocError) -> WordFault {
        WordFault::Memory
    }
}

impl<T: Drop> From<AllocFailed<T>> for WordFault {
    ghost use Rattle.std.specs.Prelude.{◌≡◌};
    ghost use Rattle.pocket_words.specs.declared.command.WordFault.TheVariants.{Memory};

    ghost from_gives = { λ _ fault. fault ≡ Memory };

    fn from(_error: AllocFailed<T>) -> WordFault {
        WordFault::Memory
    }
}
