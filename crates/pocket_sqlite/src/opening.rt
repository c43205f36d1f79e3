ghost use Rattle.std.specs.Prelude.{◌≢◌};

use crate::table::is_want_of_memory;
use sqlite::{Error as SqliteError, ErrorCode};
use thiserror::Error;

/// Why a database file couldn't be opened. An empty file or log may be left where there was none.
#[derive(Clone, Copy, Debug, PartialEq, Eq, Error)]
pub enum OpenFault {
    /// The database's own cause.
    #[error("{0}; see that the file and its folder can be read and written, that it is a database, and that no other program has it open")]
    Failed(SqliteError),
    #[error("out of memory")]
    Memory,
}

/// The fault that an error of the database stands for.
pub(crate) fn open_fault(error: SqliteError) -> OpenFault
    ensures { result ≢ OpenFault.Failed (SqliteError.SqliteFailure ErrorCode.OutOfMemory) }
{
    if is_want_of_memory(&error) {
        OpenFault::Memory
    } else {
        OpenFault::Failed(error)
    }
}
