// Why a case has no outcome.
use pocket_keeper::KeepFault;
use pocket_store::StoreFault;
use std::alloc::{AllocError, AllocFailed};

/// Why a case has no outcome.
#[derive(Clone, Copy)]
pub enum Trouble {
    Memory,
    /// The case is written wrongly; the text says what is wrong.
    Case(&'static str),
}

impl From<AllocError> for Trouble {
    fn from(_error: AllocError) -> Trouble {
        Trouble::Memory
    }
}

impl<T: Drop> From<AllocFailed<T>> for Trouble {
    fn from(_error: AllocFailed<T>) -> Trouble {
        Trouble::Memory
    }
}

impl From<&'static str> for Trouble {
    fn from(text: &'static str) -> Trouble {
        Trouble::Case(text)
    }
}

impl From<KeepFault> for Trouble {
    fn from(fault: KeepFault) -> Trouble {
        match fault {
            KeepFault::Failed => Trouble::Case("the keeper failed"),
            KeepFault::Memory => Trouble::Memory,
        }
    }
}

impl From<StoreFault> for Trouble {
    fn from(fault: StoreFault) -> Trouble {
        match fault {
            StoreFault::BadStore(_) => Trouble::Case("a row is bad"),
            StoreFault::Memory => Trouble::Memory,
        }
    }
}
