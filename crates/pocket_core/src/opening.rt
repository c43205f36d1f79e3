// The fault of an opening.
ghost use Rattle.std.specs.Prelude.{◌≡◌};
ghost use Rattle.pocket_core.specs.Faults.{start_fault};

use pocket_store::StoreFault;
use pocket_types::Text;
use std::alloc::AllocError;
use thiserror::Error;

/// Why a state couldn't be opened.
#[derive(Debug, Drop, Error)]
pub enum StartFault {
    #[error("the store can't be read; see that it is there and may be read")]
    KeeperFault,
    /// The first row that may not stand in a store, by its key.
    #[error("bad row {0}: it isn't what the server would have written; restore the store from a copy")]
    BadStore(Text),
    #[error("out of memory")]
    Memory,
}

impl From<StoreFault> for StartFault {
    ghost use Rattle.pocket_core.specs.Faults.{start_fault};

    ghost from_gives = { λ fault start. start ≡ start_fault fault };

    fn from(fault: StoreFault) -> StartFault {
        match fault {
            StoreFault::BadStore(key) => StartFault::BadStore(key),
            StoreFault::Memory => StartFault::Memory,
        }
    }
}

impl From<AllocError> for StartFault {
    ghost use Rattle.pocket_core.specs.declared.opening.StartFault.TheVariants.{Memory};

    ghost from_gives = { λ _ fault. fault ≡ Memory };

    fn from(_error: AllocError) -> StartFault {
        StartFault::Memory
    }
}
