ghost use Rattle.std.specs.Prelude.{◌≡◌};
ghost use Rattle.pocket_read.specs.declared.faults.ReadFault.TheVariants as fault;

use pocket_gate::Verdict;
use pocket_types::{FilterFault, ResolveFault};
use std::alloc::{AllocError, AllocFailed};

/// Why there is no list. Of several causes the first of this list is given.
#[derive(Drop)]
pub enum ReadFault {
    /// The list rule is locked.
    Denied(Verdict),
    /// The client's filter is no filter.
    BadFilter(FilterFault),
    /// A path of the client's filter leads nowhere, or where the client may not ask.
    BadPath(ResolveFault),
    /// A list can't be sorted by a term. Terms are numbered from 0.
    BadSort(u32),
    Memory,
}

impl From<AllocError> for ReadFault {
    ghost from_gives = { λ _ e. e ≡ fault.Memory };

    fn from(_: AllocError) -> ReadFault {
        ReadFault::Memory
    }
}

impl<T: Drop> From<AllocFailed<T>> for ReadFault {
    ghost from_gives = { λ _ e. e ≡ fault.Memory };

    fn from(_: AllocFailed<T>) -> ReadFault {
        ReadFault::Memory
    }
}
