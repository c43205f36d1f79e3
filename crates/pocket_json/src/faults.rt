use std::alloc::{AllocError, AllocFailed};
use thiserror::Error;

/// Why bytes gave no tree.
#[derive(Clone, Copy, Debug, PartialEq, Eq, Error)]
pub enum JsonFault {
    #[error("this is no JSON in UTF-8 with whole numbers of at most 9007199254740991 in size and at most 32 levels of lists and maps")]
    BadJson,
    #[error("out of memory")]
    Memory,
}

impl From<AllocError> for JsonFault {
    ghost use Rattle.std.specs.Prelude.{◌≡◌};
    ghost use Rattle.pocket_json.specs.declared.faults.JsonFault.TheVariants.{Memory};

    ghost from_gives = { λ _ fault. fault ≡ Memory };

    fn from(_refused: AllocError) -> JsonFault {
        JsonFault::Memory
    }
}

impl<T: Drop> From<AllocFailed<T>> for JsonFault {
    ghost use Rattle.std.specs.Prelude.{◌≡◌};
    ghost use Rattle.pocket_json.specs.declared.faults.JsonFault.TheVariants.{Memory};

    ghost from_gives = { λ _ fault. fault ≡ Memory };

    fn from(_refused: AllocFailed<T>) -> JsonFault {
        JsonFault::Memory
    }
}
