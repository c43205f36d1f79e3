// What keeps the rows.
ghost use Rattle.std.specs.Prelude.{◌≡◌, ◌≢◌, [], false, IfErr, IfOk, IsSome, Some};
ghost use Rattle.pocket_main.specs.Keepers.{IsKeeperFor};

use pocket::{RunEnd, sample_rows};
use pocket_keeper::{Committer, KeepFault, Keeper, KeptRow, MemoryKeeper};
use pocket_sqlite::{OpenFault, SqliteKeeper};
use pocket_types::{Seq, Text};
use std::alloc::{AllocError, Global};

/// The keeper of a run.
#[derive(Drop)]
pub enum HostKeeper {
    /// The rows are in memory, and are gone at the end.
    Memory(MemoryKeeper),
    File(SqliteKeeper),
}

impl Committer for HostKeeper {
    ghost use Rattle.pocket_main.specs.Keepers.{by_kind, rows_rise};

    ghost rows = { by_kind ⟦<MemoryKeeper as Committer>⟧.rows ⟦<SqliteKeeper as Committer>⟧.rows };

    ghost faults = { by_kind ⟦<MemoryKeeper as Committer>⟧.faults ⟦<SqliteKeeper as Committer>⟧.faults };

    ghost told_rise = { rows_rise ⟦<MemoryKeeper as Committer>⟧.rows ⟦<SqliteKeeper as Committer>⟧.rows
        (λ keeper. keeper.rising) (λ _. tt) };

    fn commit(
        &mut self,
        alloc: Global,
        puts: &Seq<KeptRow>,
        cuts: &Seq<Text>,
    ) -> Result<(), KeepFault> {
        match self {
            HostKeeper::Memory(keeper) => keeper.commit(alloc, puts, cuts),
            HostKeeper::File(keeper) => keeper.commit(alloc, puts, cuts),
        }
    }
}

impl Keeper for HostKeeper {
    fn load(&mut self, alloc: Global) -> Result<Seq<KeptRow>, KeepFault> {
        match self {
            HostKeeper::Memory(keeper) => keeper.load(alloc),
            HostKeeper::File(keeper) => keeper.load(alloc),
        }
    }
}

/// A keeper in memory, with the rows of the sample or with none.
fn memory_keeper(alloc: Global, sample: bool) -> Result<MemoryKeeper, AllocError>
    ensures { sample ≡ false → IfOk result (λ keeper. ⟦<MemoryKeeper as Committer>⟧.rows keeper ≡ Some []) }
{
    let rows = if sample {
        sample_rows(alloc)?
    } else {
        Seq::new(alloc)
    };
    MemoryKeeper::new(alloc, rows, Vec::new(alloc))
}

/// The keeper over a file, which is made where there is none. Where it can't be opened, standard error says why.
fn file_keeper(rt: &HostRuntime, file: &Text) -> Result<SqliteKeeper, RunEnd>
    ensures { IfErr result (λ ended. ended ≢ RunEnd.Memory → ended ≡ RunEnd.KeeperFault) }
{
    match SqliteKeeper::open(rt, file.as_str()) {
        Ok(keeper) => Ok(keeper),
        Err(OpenFault::Memory) => Err(RunEnd::Memory),
        Err(fault) => {
            let _ = eprintln!(rt; "pocket: {file}: {fault}");
            Err(RunEnd::KeeperFault)
        }
    }
}

/// The keeper over the file, or in memory where none is named, there with the rows of the sample or with none.
pub fn open_keeper(
    rt: &HostRuntime,
    store: Option<Text>,
    sample: bool,
) -> Result<HostKeeper, RunEnd>
    ensures keeper { IfOk result (IsKeeperFor ⟦<HostKeeper as Committer>⟧.rows store sample) }
    ensures fault { IfErr result (λ ended. ended ≢ RunEnd.Memory → IsSome store × (ended ≡ RunEnd.KeeperFault)) }
{
    match store {
        Some(file) => Ok(HostKeeper::File(file_keeper(rt, &file)?)),
        None => match memory_keeper(rt.alloc(), sample) {
            Ok(keeper) => Ok(HostKeeper::Memory(keeper)),
            Err(_) => Err(RunEnd::Memory),
        },
    }
}
