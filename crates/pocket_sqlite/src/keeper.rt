ghost use Rattle.std.specs.Prelude.{◌≡◌, ◌≢◌, ◌++◌, [], List, false, None, IfOk, IfErr, OnOk, OnErr};
ghost use Rattle.sqlite_value.specs.Order.{Row as SqlRow};
ghost use Rattle.sqlite.specs.State.{HasCleanDisk, Shown};
ghost use Rattle.sqlite.specs.Files.{file_state, over_files};
ghost use Rattle.pocket_keeper.specs.Rows.{IsRising};
ghost use Rattle.pocket_keeper.specs.Keeping.{counted, HasKeepCause};
ghost use Rattle.pocket_sqlite.specs.Reading.{AreRead};
ghost use Rattle.pocket_sqlite.specs.Writing.{deletions, insertions, HaveBeenKept, IsAsCommitted};
ghost use Rattle.pocket_sqlite.specs.declared.table.TheConstants.{DELETE, PUT, SELECT};

use crate::opening::{OpenFault, open_fault};
use crate::table::{keep_fault, make_table, read_rows, write_rows};
use pocket_keeper::{Committer, KeepFault, Keeper, KeptRow};
use pocket_types::{Seq, Text};
use sqlite::{Connection, Error as SqliteError, ErrorCode, File, FileStore};
use std::alloc::Global;

/// A keeper over a database file. It tells no rows: what a file holds is said by no contract.
#[derive(Drop)]
pub struct SqliteKeeper {
    database: Connection<FileStore<File>>,
    faults: u64,
    ghost idle: { database.in_transaction ≡ false },
}

impl SqliteKeeper {
    /// Opens the file, or makes it, and makes its table where it has none. The folder has to be there. The file is locked
    /// until the keeper is dropped, and then the last commits may stand in the log beside it, whose name ends in `-wal`.
    /// A failure of the disk may close the file: then each later call fails until it is opened again.
    pub fn open(rt: &HostRuntime, path: &str) -> Result<SqliteKeeper, OpenFault>
        ensures faults { IfOk result (λ keeper. ⟦<SqliteKeeper as Committer>⟧.faults keeper ≡ 0) }
        ensures memory { IfErr result (λ fault. fault ≢ OpenFault.Failed (SqliteError.SqliteFailure ErrorCode.OutOfMemory)) }
    {
        let mut database = Connection::open(rt, path).map_err(open_fault)?;
        make_table(&mut database).map_err(open_fault)?;
        Ok(SqliteKeeper {
            database,
            faults: 0,
        })
    }

    /// How many calls have failed. The count stands still at its type's end.
    pub fn faults(&self) -> u64
        ensures { result ≡ ⟦<SqliteKeeper as Committer>⟧.faults self.now }
    {
        self.faults
    }
}

/// Counts a fault where the call failed. The count stands still at its type's end.
fn count<T>(faults: &mut u64, answer: &Result<T, KeepFault>)
    ensures counts { faults.new ≡ counted faults.old answer.now }
    ensures cause { HasKeepCause faults.old faults.new answer.now }
{
    if let Err(KeepFault::Failed) = answer {
        *faults = faults.saturating_add(1);
    }
}

impl Committer for SqliteKeeper {
    ghost rows = { λ _. None };

    ghost faults = { λ keeper. keeper.faults };

    ghost told_rise = { λ _. tt };

    fn commit(
        &mut self,
        _alloc: Global,
        puts: &Seq<KeptRow>,
        cuts: &Seq<Text>,
    ) -> Result<(), KeepFault>
        // On a disk that gives back what was written.
        ensures kept { HasCleanDisk (file_state self.new.database) → OnOk result (HaveBeenKept over_files
            (deletions DELETE.now cuts.now ++ insertions PUT.now puts.now) self.old.database self.new.database) }
        ensures undone { OnErr result (IsAsCommitted (file_state self.old.database) (file_state self.new.database)) }
        ensures counts { ⟦<SqliteKeeper as Committer>⟧.faults self.new ≡ counted (⟦<SqliteKeeper as Committer>⟧.faults self.old) result }
        ensures cause { HasKeepCause (⟦<SqliteKeeper as Committer>⟧.faults self.old) (⟦<SqliteKeeper as Committer>⟧.faults self.new) result }
    {
        let written = write_rows(&mut self.database, puts.as_slice(), cuts.as_slice());
        let answer = written.map_err(keep_fault);
        count(&mut self.faults, &answer);
        answer
    }
}

impl Keeper for SqliteKeeper {
    fn load(&mut self, alloc: Global) -> Result<Seq<KeptRow>, KeepFault>
        ensures rising { IfOk result (λ loaded. IsRising loaded) }
        // On a disk that gives back what was written.
        ensures read { HasCleanDisk (file_state self.new.database) → IfOk result (λ loaded. (found : List SqlRow)
            × Shown SELECT.now [] (file_state self.old.database) (file_state self.new.database) found × AreRead found loaded) }
        ensures counts { ⟦<SqliteKeeper as Committer>⟧.faults self.new ≡ counted (⟦<SqliteKeeper as Committer>⟧.faults self.old) result }
        ensures cause { HasKeepCause (⟦<SqliteKeeper as Committer>⟧.faults self.old) (⟦<SqliteKeeper as Committer>⟧.faults self.new) result }
    {
        let answer = read_rows(alloc, &mut self.database);
        count(&mut self.faults, &answer);
        answer
    }
}
