ghost use Rattle.std.specs.Prelude.{◌≡◌};
ghost use Rattle.pocket_check.specs.declared.fault.CheckFault.TheVariants as fault;

use pocket_types::Name;
use std::alloc::{AllocError, AllocFailed};

/// Why a body isn't that of a record.
#[derive(Drop)]
pub enum CheckFault {
    /// It is no map.
    BadBody,
    /// What stands under a key of this field isn't a value of the field. It is the first such field in the order of the
    /// collection's fields, `id` before them.
    BadValue(Name),
    Memory,
}

impl From<AllocError> for CheckFault {
    ghost from_gives = { λ _ e. e ≡ fault.Memory };

    fn from(_: AllocError) -> CheckFault {
        CheckFault::Memory
    }
}

impl<T: Drop> From<AllocFailed<T>> for CheckFault {
    ghost from_gives = { λ _ e. e ≡ fault.Memory };

    fn from(_: AllocFailed<T>) -> CheckFault {
        CheckFault::Memory
    }
}
