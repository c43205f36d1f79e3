// Works: the course of a work is found, and then taken.
ghost use Rattle.std.specs.Prelude.{◌≡◌, ◌≤◌};
ghost use Rattle.pocket_types.specs.Within.{collections_of};
ghost use Rattle.pocket_store.specs.SoundStates.{IsSoundWorld};
ghost use Rattle.pocket_gate.specs.Built.{rules_of};
ghost use Rattle.pocket_states.specs.States.{MachineState};
ghost use Rattle.pocket_core.specs.Courses.{Asking, Handling};

use crate::callers::Rest;
use crate::courses::{Course, course_of};
use crate::entering::enter;
use pocket_api::{Reply, Work};
use pocket_gate::Rules;
use pocket_keeper::Committer;
use pocket_tables::Tables;
use pocket_types::{Ask, Steps};
use std::alloc::Global;
use std::sync::ledger::Ledger;

/// Answers a work whose sender is known, and enters it where it puts a record.
pub(crate) fn handle<K: Committer, L: Ledger>(
    alloc: Global,
    tables: &mut Tables,
    journal: &mut Vec<Work>,
    costs: &mut u64,
    rules: &Rules,
    keeper: &mut K,
    ask: Ask,
    rest: Rest,
    steps: &mut Steps<L>,
) -> Reply
    requires sound { IsSoundWorld tables.old.world }
    requires rules { rules.now ≡ rules_of (collections_of tables.old.world) }
    ensures handled { (s : MachineState) → Handling s ask rest
        (record { world = tables.old.world; history = journal.old.items; bytes = costs.old; rows = K.rows keeper.old; faults = K.faults keeper.old })
        (record { world = tables.new.world; history = journal.new.items; bytes = costs.new; rows = K.rows keeper.new; faults = K.faults keeper.new }) result }
    ensures asked { (s : MachineState) → Asking s ask rest
        (record { world = tables.old.world; history = journal.old.items; bytes = costs.old; rows = K.rows keeper.old; faults = K.faults keeper.old })
        (keeper.new ≡ keeper.old) }
    ensures steps { steps.old ≤ steps.new }
{
    let at = journal.as_slice().len() as u64;
    match course_of(alloc, tables, rules, &ask, &rest, at, steps) {
        Ok(Course::Replies(reply)) => {
            drop(ask);
            drop(rest);
            reply
        }
        Ok(Course::Puts(plan)) => enter(
            alloc, tables, journal, costs, rules, keeper, ask, rest, plan, steps,
        ),
        Err(_) => {
            drop(ask);
            drop(rest);
            Reply::no_memory(at)
        }
    }
}
