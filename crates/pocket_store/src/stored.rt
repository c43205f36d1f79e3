// What a store stands for.
ghost use Rattle.std.specs.Prelude.{◌≡◌};

use pocket_keeper::Token;
use pocket_types::{Seq, Text, World};
use std::alloc::AllocError;
use thiserror::Error;

/// What a store stands for: all collections with their records, and the tokens, rising by their text.
#[derive(Drop)]
pub struct Stored {
    pub world: World,
    pub tokens: Seq<Token>,
}

/// Why a store couldn't be opened.
#[derive(Debug, Drop, Error)]
pub enum StoreFault {
    /// The first row that may not stand in a store, by its key.
    #[error("bad row {0}: it isn't what the server would have written; restore the store from a copy")]
    BadStore(Text),
    #[error("out of memory")]
    Memory,
}

impl From<AllocError> for StoreFault {
    ghost use Rattle.pocket_store.specs.declared.stored.StoreFault.TheVariants.{Memory};

    ghost from_gives = { λ _ fault. fault ≡ Memory };

    fn from(_error: AllocError) -> StoreFault {
        StoreFault::Memory
    }
}
