ghost use Rattle.std.specs.Prelude.{◌≡◌, IfOk};

use crate::copies::copied_filter;
use crate::guard::Guard;
use crate::guarded::holds_in;
use pocket_meaning::Scene;
use pocket_tables::Tables;
use pocket_types::{Ask, Name, Rec, Resolved, Steps};
use std::alloc::{AllocError, Global};
use std::marker::Model;
use std::sync::ledger::Ledger;

/// A filter, ready to be asked of records. Contracts see it as its filter.
#[derive(Drop)]
pub struct Plan {
    filter: Resolved,
}

impl Model for Plan {
    ghost use Rattle.std.specs.Coded.{codes};
    ghost use Rattle.pocket_types.specs.contracts.resolved.Resolved as resolved;
    ghost use Rattle.pocket_types.specs.declared.resolved.Resolved.{Resolved};

    ghost Value = { Resolved };

    ghost coded = { Prim.hlevel (codes, resolved.the_row.coded) };

    ghost view = { λ p. p.filter };
}

/// The plan of a filter, which is copied.
pub fn compile(alloc: Global, filter: &Resolved) -> Result<Plan, AllocError>
    ensures { IfOk result (λ plan. plan ≡ filter.now) }
{
    Ok(Plan {
        filter: copied_filter(alloc, filter)?,
    })
}

impl Plan {
    ghost use Rattle.std.specs.Prelude.{◌≤◌};
    ghost use Rattle.std.specs.Option.{option_copied};
    ghost use Rattle.pocket_plan.specs.Truth.{plan_truth};

    /// The filter, borrowed.
    pub fn filter(&self) -> &Resolved
        ensures { result.now ≡ self.now }
    {
        &self.filter
    }

    /// Whether the filter holds of a record, for a request: in the tables' world, or in what the guard leaves of it. Under a guard
    /// the record that is judged stays, without its hidden fields, whether or not the guard admits it.
    ///
    /// The record need not stand in the tables. Which records are looked at is said by no clause, and the one on steps says only that
    /// their count doesn't fall: the code asks views of the members that the filter's paths lead to, as they are met, and goes through
    /// the shelves that the paths lead to.
    pub fn test<L: Ledger>(
        &self,
        alloc: Global,
        tables: &Tables,
        guard: Option<&Guard>,
        ask: &Ask,
        home: &Name,
        rec: &Rec,
        steps: &mut Steps<L>,
    ) -> Result<bool, AllocError>
        ensures truth { IfOk result (λ b. b ≡ plan_truth tables.now.world (option_copied guard.entry) ask.now home.now rec.now self.now) }
        ensures steps { steps.old ≤ steps.new }
    {
        let shelves = tables.lent(alloc)?;
        let scene = Scene {
            shelves: shelves.as_slice(),
            ask,
            home,
            rec,
        };
        holds_in(alloc, &scene, guard, &self.filter)
    }
}
