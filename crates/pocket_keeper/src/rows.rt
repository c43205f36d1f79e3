ghost use Rattle.std.specs.Prelude.{◌≡◌, IfOk};

use pocket_types::{Faithful, Text};
use std::alloc::{AllocError, Global};
use thiserror::Error;

/// A kept row. No two rows of a keeper have one key.
#[derive(Clone, Drop)]
pub struct KeptRow {
    pub key: Text,
    pub value: Text,
}

impl Faithful for KeptRow {
    ghost use Rattle.std.proofs.Common.{rules};

    ghost clone_is_same = { Prim.search rules };
}

/// Why a keeper didn't do a call. Its rows are as before.
#[derive(Clone, Copy, Debug, PartialEq, Eq, Error)]
pub enum KeepFault {
    /// The store refused it, and the keeper counted a fault.
    #[error("the store refused the call; see that its file can be read and written, and try again")]
    Failed,
    #[error("out of memory")]
    Memory,
}

impl From<AllocError> for KeepFault {
    ghost use Rattle.pocket_keeper.specs.declared.rows.KeepFault.TheVariants.{Memory};

    ghost from_gives = { λ _ fault. fault ≡ Memory };

    fn from(_error: AllocError) -> KeepFault {
        KeepFault::Memory
    }
}

/// A copy of the rows.
pub(crate) fn copied(alloc: Global, rows: &[KeptRow]) -> Result<Vec<KeptRow>, AllocError>
    ensures { IfOk result (λ copies. copies.items ≡ rows.now) }
{
    let mut copies = Vec::new(alloc);
    for row in rows {
        copies.push(row.clone()?)?;
    }
    Ok(copies)
}
