ghost use Rattle.std.specs.Prelude.{◌≡◌, ℕ, List, Option, IfSome, IfOk, OnOk, OnErr};
ghost use Rattle.pocket_types.specs.Causes.{StaysUntold};
ghost use Rattle.pocket_keeper.specs.declared.rows.KeptRow.{KeptRow};
ghost use Rattle.pocket_keeper.specs.Rows.{IsRising};
ghost use Rattle.pocket_keeper.specs.Keeping.{committed, counted, AreAsBefore, HasKeepCause, IfBothTold};

use crate::rows::{KeepFault, KeptRow};
use pocket_types::{Seq, Text};
use std::alloc::Global;

/// A store that takes commits: all of one, or nothing of it.
pub trait Committer {
    // the rows that are kept, where they are told. A keeper may stop telling, and then tells nothing any more.
    ghost rows: { Self → Option (List KeptRow) };
    // how often the store has refused a call
    ghost faults: { Self → ℕ };

    /// Makes the cuts, then the puts in their order: a put row takes the place of the row of its key.
    /// A cut of a key that isn't there does nothing.
    fn commit(
        &mut self,
        alloc: Global,
        puts: &Seq<KeptRow>,
        cuts: &Seq<Text>,
    ) -> Result<(), KeepFault>
        ensures kept { OnOk result (IfBothTold (rows self.old) (rows self.new) (λ before now. now ≡ committed before puts.now cuts.now)) }
        ensures as_before { OnErr result (AreAsBefore (rows self.old) (rows self.new)) }
        ensures untold { StaysUntold (rows self.old) (rows self.new) }
        ensures cause { HasKeepCause (faults self.old) (faults self.new) result }
        ensures counts { faults self.new ≡ counted (faults self.old) result };

    ghost told_rise: { (keeper : Self) → IfSome (rows keeper) IsRising };
}

/// A store whose rows can be read back.
pub trait Keeper: Committer {
    /// All rows, rising by key in the order of the bytes.
    fn load(&mut self, alloc: Global) -> Result<Seq<KeptRow>, KeepFault>
        ensures told { IfOk result (λ loaded. IfSome (Self.rows self.new) (λ told. loaded ≡ told)) }
        ensures rising { IfOk result (λ loaded. IsRising loaded) }
        ensures as_before { AreAsBefore (Self.rows self.old) (Self.rows self.new) }
        ensures untold { StaysUntold (Self.rows self.old) (Self.rows self.new) }
        ensures cause { HasKeepCause (Self.faults self.old) (Self.faults self.new) result }
        ensures counts { Self.faults self.new ≡ counted (Self.faults self.old) result };
}
