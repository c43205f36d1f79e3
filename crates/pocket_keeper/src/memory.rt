ghost use Rattle.std.specs.Prelude.{◌≡◌, ◌↔◌, ◌+◌, ◌-◌, ◌^◌, min, [], Some, IfOk, OnOk, OnErr, IsErrOf};
ghost use Rattle.pocket_keeper.specs.Rows.{IsRising};
ghost use Rattle.pocket_keeper.specs.Keeping.{committed, counted, rows_with, HasKeepCause, IfBothTold, IsToFail};

use crate::keeper::{Committer, Keeper};
use crate::rows::{KeepFault, KeptRow, copied};
use crate::sorted::change;
use pocket_types::{Seq, Text};
use std::alloc::{AllocError, Global};

/// A keeper in memory, which tells its rows. Calls can be made to fail, for tests.
#[derive(Drop)]
pub struct MemoryKeeper {
    /// The numbers of the calls that fail.
    pub failing: Vec<u64>,
    /// How many commits and loads there were.
    pub calls: u64,
    rows: Vec<KeptRow>,
    faults: u64,
    ghost rising: { IsRising rows.items },
}

impl MemoryKeeper {
    /// These rows, in any order: of two with one key the later one is kept.
    /// The commits and loads with the numbers `failing`, counted together from 0, fail.
    pub fn new(
        alloc: Global,
        rows: Seq<KeptRow>,
        failing: Vec<u64>,
    ) -> Result<MemoryKeeper, AllocError>
        ensures rows { IfOk result (λ keeper. ⟦<MemoryKeeper as Committer>⟧.rows keeper ≡ Some (rows_with rows [])) }
        ensures in_order { IsRising rows → IfOk result (λ keeper. ⟦<MemoryKeeper as Committer>⟧.rows keeper ≡ Some rows) }
        ensures faults { IfOk result (λ keeper. ⟦<MemoryKeeper as Committer>⟧.faults keeper ≡ 0) }
        ensures failing { IfOk result (λ keeper. keeper.failing ≡ failing) }
        ensures calls { IfOk result (λ keeper. keeper.calls ≡ 0) }
    {
        let mut kept = Vec::new(alloc);
        change(&mut kept, rows.into_vec(), &[])?;
        Ok(MemoryKeeper {
            failing,
            calls: 0,
            rows: kept,
            faults: 0,
        })
    }

    /// The rows, rising by key in the order of the bytes.
    pub fn rows(&self) -> &[KeptRow]
        ensures { ⟦<MemoryKeeper as Committer>⟧.rows self.now ≡ Some result.now }
    {
        &self.rows
    }

    // Counts a call, and a fault where it is to fail.
    fn begin(&mut self) -> Result<(), KeepFault>
        ensures rows { self.new.rows ≡ self.old.rows }
        ensures fails { IsErrOf result KeepFault.Failed ↔ IsToFail self.old.failing.items self.old.calls }
        ensures known { OnErr result (IsErrOf result KeepFault.Failed) }
        ensures counts { self.new.faults ≡ counted self.old.faults result }
        ensures cause { HasKeepCause self.old.faults self.new.faults result }
        ensures calls { self.new.calls ≡ min (self.old.calls + 1) (2 ^ 64 - 1) }
        ensures failing { self.new.failing ≡ self.old.failing }
    {
        let call = self.calls;
        self.calls = self.calls.saturating_add(1);
        if self.failing.contains(&call) {
            self.faults = self.faults.saturating_add(1);
            return Err(KeepFault::Failed);
        }
        Ok(())
    }
}

impl Committer for MemoryKeeper {
    ghost rows = { λ keeper. Some keeper.rows.items };

    ghost faults = { λ keeper. keeper.faults };

    ghost told_rise = { λ keeper. keeper.rising };

    fn commit(
        &mut self,
        alloc: Global,
        puts: &Seq<KeptRow>,
        cuts: &Seq<Text>,
    ) -> Result<(), KeepFault>
        ensures kept { OnOk result (IfBothTold (⟦<MemoryKeeper as Committer>⟧.rows self.old) (⟦<MemoryKeeper as Committer>⟧.rows self.new)
            (λ before now. now ≡ committed before puts.now cuts.now)) }
        ensures as_before { OnErr result (⟦<MemoryKeeper as Committer>⟧.rows self.new ≡ ⟦<MemoryKeeper as Committer>⟧.rows self.old) }
        ensures fails { IsErrOf result KeepFault.Failed ↔ IsToFail self.old.failing.items self.old.calls }
        ensures calls { self.new.calls ≡ min (self.old.calls + 1) (2 ^ 64 - 1) }
        ensures failing { self.new.failing ≡ self.old.failing }
        ensures counts { ⟦<MemoryKeeper as Committer>⟧.faults self.new ≡ counted (⟦<MemoryKeeper as Committer>⟧.faults self.old) result }
        ensures cause { HasKeepCause (⟦<MemoryKeeper as Committer>⟧.faults self.old) (⟦<MemoryKeeper as Committer>⟧.faults self.new) result }
    {
        self.begin()?;
        let copies = copied(alloc, puts.as_slice())?;
        change(&mut self.rows, copies, cuts.as_slice())?;
        Ok(())
    }
}

impl Keeper for MemoryKeeper {
    fn load(&mut self, alloc: Global) -> Result<Seq<KeptRow>, KeepFault>
        ensures told { IfOk result (λ loaded. ⟦<MemoryKeeper as Committer>⟧.rows self.new ≡ Some loaded) }
        ensures as_before { ⟦<MemoryKeeper as Committer>⟧.rows self.new ≡ ⟦<MemoryKeeper as Committer>⟧.rows self.old }
        ensures fails { IsErrOf result KeepFault.Failed ↔ IsToFail self.old.failing.items self.old.calls }
        ensures calls { self.new.calls ≡ min (self.old.calls + 1) (2 ^ 64 - 1) }
        ensures failing { self.new.failing ≡ self.old.failing }
        ensures counts { ⟦<MemoryKeeper as Committer>⟧.faults self.new ≡ counted (⟦<MemoryKeeper as Committer>⟧.faults self.old) result }
        ensures cause { HasKeepCause (⟦<MemoryKeeper as Committer>⟧.faults self.old) (⟦<MemoryKeeper as Committer>⟧.faults self.new) result }
    {
        self.begin()?;
        Ok(Seq::from_vec(copied(alloc, &self.rows)?))
    }
}
