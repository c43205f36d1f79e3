ghost use Rattle.std.specs.Prelude.{◌≡◌};
ghost use Rattle.pocket_change.specs.declared.fault.ChangeFault.TheVariants as fault;

use pocket_gate::Verdict;
use pocket_types::{FieldFault, Id, Limit, Name, Seq};
use std::alloc::{AllocError, AllocFailed};

/// Why a record isn't created, updated or deleted.
#[derive(Drop)]
pub enum ChangeFault {
    /// The rule is locked, or false.
    Denied(Verdict),
    NoRecord,
    /// The body is no JSON, or no map.
    BadBody,
    /// What stands under a key of this field isn't a value of the field.
    BadValue(Name),
    /// What is wrong with the record as it would be.
    Invalid(Seq<FieldFault>),
    /// The first record, by its collection and id, that needs one that would go, with the field that does.
    RequiredReference(Name, Id, Name),
    Limit(Limit),
    Memory,
    IdTaken,
}

impl From<AllocError> for ChangeFault {
    ghost from_gives = { λ _ e. e ≡ fault.Memory };

    fn from(_: AllocError) -> ChangeFault {
        ChangeFault::Memory
    }
}

impl<T: Drop> From<AllocFailed<T>> for ChangeFault {
    ghost from_gives = { λ _ e. e ≡ fault.Memory };

    fn from(_: AllocFailed<T>) -> ChangeFault {
        ChangeFault::Memory
    }
}
