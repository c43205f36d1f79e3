// What is to be done of a call, before anything is changed.
ghost use Rattle.std.specs.Prelude.{◌≡◌, ◌≤◌, IfOk, IsErr, MatchResult};
ghost use Rattle.pocket_types.specs.Within.{collections_of};
ghost use Rattle.pocket_store.specs.SoundStates.{IsSoundWorld};
ghost use Rattle.pocket_gate.specs.Built.{rules_of};
ghost use Rattle.pocket_states.specs.States.{MachineState};
ghost use Rattle.pocket_core.specs.Courses.{IsCourse, IsPlannedCourse, IsRefusedCourse};

use crate::callers::Rest;
use crate::changing::{plan_creation, plan_revision};
use crate::lists::answer_list;
use crate::refusals::refuse;
use crate::showing::{Display, display_of};
use crate::views::answer_view;
use pocket_api::{Call, Reply, Shown, Why};
use pocket_gate::Rules;
use pocket_tables::Tables;
use pocket_types::{Ask, Delta, Steps};
use std::alloc::{AllocError, Global};
use std::sync::ledger::Ledger;

/// A record that is to be put, and what is to be shown of it then.
#[derive(Drop)]
pub(crate) struct Plan {
    pub(crate) delta: Delta,
    pub(crate) display: Display,
}

/// What is to be done of a call.
#[derive(Drop)]
pub(crate) enum Course {
    /// It is refused, or shows something.
    Replies(Reply),
    Puts(Plan),
}

/// A reply as a course.
fn replies(reply: Result<Reply, AllocError>) -> Result<Course, AllocError>
    ensures { MatchResult reply (λ r. IfOk result (λ course. course ≡ Course.Replies r)) (λ _. IsErr result) }
{
    match reply {
        Ok(reply) => Ok(Course::Replies(reply)),
        Err(error) => Err(error),
    }
}

/// The course of a change that isn't made for this cause.
fn refused(alloc: Global, why: Why, at: u64) -> Result<Course, AllocError>
    ensures { IfOk result (IsRefusedCourse at why) }
{
    match why {
        Why::Memory => Err(AllocError),
        why => match refuse(alloc, why, at) {
            Ok(reply) => Ok(Course::Replies(reply)),
            Err(error) => Err(error),
        },
    }
}

/// The course of a change that is planned: the record is put, or the reply says why it isn't.
fn planned(
    alloc: Global,
    delta: Result<Delta, Why>,
    shown: &Shown,
    at: u64,
) -> Result<Course, AllocError>
    ensures { IfOk result (IsPlannedCourse at shown.now delta) }
{
    match delta {
        Ok(delta) => match display_of(alloc, shown.expand.as_ref(), shown.fields.as_ref()) {
            Ok(display) => Ok(Course::Puts(Plan { delta, display })),
            Err(error) => {
                drop(delta);
                Err(error)
            }
        },
        Err(why) => refused(alloc, why, at),
    }
}

/// What is to be done of a call. Those that aren't built yet are answered as if they had no route.
pub(crate) fn course_of<L: Ledger>(
    alloc: Global,
    tables: &mut Tables,
    rules: &Rules,
    ask: &Ask,
    rest: &Rest,
    at: u64,
    steps: &mut Steps<L>,
) -> Result<Course, AllocError>
    requires sound { IsSoundWorld tables.old.world }
    requires rules { rules.now ≡ rules_of (collections_of tables.old.world) }
    ensures course { IfOk result (λ course. (s : MachineState) → IsCourse at s tables.new ask.now rest.now course) }
    ensures world { tables.new.world ≡ tables.old.world }
    ensures steps { steps.old ≤ steps.new }
{
    let words = rest.draw.words;
    match &rest.call {
        Call::List { collection, query } => replies(answer_list(
            alloc, tables, rules, ask, collection, query, at, steps,
        )),
        Call::View { target, shown } => replies(answer_view(
            alloc, tables, rules, ask, target, shown, at, steps,
        )),
        Call::Create {
            collection,
            body,
            shown,
        } => {
            let delta = plan_creation(alloc, tables, rules, ask, collection, body, words, steps);
            planned(alloc, delta, shown, at)
        }
        Call::Update {
            target,
            body,
            shown,
        } => {
            let delta = plan_revision(alloc, tables, rules, ask, target, body, steps);
            planned(alloc, delta, shown, at)
        }
        _ => replies(refuse(alloc, Why::NoRoute, at)),
    }
}
