// Works that put a record. What is said is made first, then the row is kept, and then the work is entered; so nothing can fail any more
// once the row is kept, and where it isn't the record goes again.
ghost use Rattle.std.specs.Prelude.{◌≡◌, ◌⊎◌, ◌<◌, ◌≤◌, ◌+◌, ◌++◌, [], ◌∷◌, length, true, false, vec_capacity, vec_len, Err, IfErr, IfOk, MatchResult, OnErr, OnOk, Option, Some};
ghost use Rattle.std.specs.Option.{option_copied, option_map_or};
ghost use Rattle.std.specs.Str.{bytes_eq};
ghost use Rattle.pocket_types.specs.Causes.{StaysUntold};
ghost use Rattle.pocket_types.specs.Within.{collections_of};
ghost use Rattle.pocket_keeper.specs.Keeping.{AreAsBefore, HasKeepCause, IfBothTold, committed, counted};
ghost use Rattle.pocket_keeper.specs.Texts.{rec_row};
ghost use Rattle.pocket_resolve.specs.Fields.{collection_named};
ghost use Rattle.pocket_tables.specs.Worlds.{IsTabled};
ghost use Rattle.pocket_gate.specs.Built.{rules_of};
ghost use Rattle.pocket_states.specs.Putting.{row_stands};
ghost use Rattle.pocket_api.specs.Refusals.{IsNoMemory};
ghost use Rattle.pocket_core.specs.Answers.{IsAnswer, accepted_answer, answer_of, has_no_room, no_room};
ghost use Rattle.pocket_core.specs.Callers.{whole_of};
ghost use Rattle.pocket_core.specs.Changing.{Put};
ghost use Rattle.pocket_core.specs.Courses.{IsPlanned};
ghost use Rattle.pocket_core.specs.Entering.{Entry};
ghost use Rattle.pocket_core.specs.Outcomes.{Tree};
ghost use Rattle.pocket_core.specs.Preparing as preparing;
ghost use Rattle.pocket_core.specs.Preparing.{HasNoPlace, IsKeptAs, IsNotKept, IsNotPut, IsPrepared, IsPutAs, LeadsBack, SaysUnkept, WantsRow};
ghost use Rattle.pocket_core.specs.Showing.{displayed};

use crate::callers::{Rest, put_together};
use crate::courses::Plan;
use crate::refusals::refuse;
use crate::showing::{Display, display_rec};
use crate::views::printed;
use pocket_api::{Reply, Why, Work};
use pocket_gate::Rules;
use pocket_keeper::{Committer, KeepFault, KeptRow, row_of_rec};
use pocket_resolve::collection_named;
use pocket_tables::Tables;
use pocket_tables::laws::deltas_are_made_at_once;
use pocket_types::{Ask, Collection, Delta, Rec, Seq, Steps};
use std::alloc::{AllocError, Global};
use std::sync::ledger::Ledger;

// ---- replies

/// A reply, or the one for want of memory, which takes none.
fn or_no_memory(reply: Result<Reply, AllocError>, at: u64) -> Reply
    ensures { MatchResult reply (λ r. result ≡ r) (λ _. IsNoMemory at result) }
{
    match reply {
        Ok(reply) => reply,
        Err(_) => Reply::no_memory(at),
    }
}

/// Whether a history has no room for one more command.
fn is_full(commands: u64, bytes: u64, cost: u64) -> bool
    ensures { result ≡ has_no_room (record { entries = commands; bytes = bytes }) cost }
{
    commands >= 1_000_000 || bytes.saturating_add(cost) > 268_435_456
}

/// The reply of a full history.
fn refuse_full(alloc: Global, commands: u64, bytes: u64, cost: u64) -> Reply
    ensures { IsAnswer (answer_of commands (Err (no_room (record { entries = commands; bytes = bytes }) cost))) result ⊎ IsNoMemory commands result }
{
    let why = Why::HistoryFull(commands, bytes.saturating_add(cost));
    or_no_memory(refuse(alloc, why, commands), commands)
}

// ---- what is made before anything is kept

/// What is said of a record that is put, and its row, unless that is kept as it is already.
#[derive(Drop)]
pub(crate) struct Prepared {
    reply: Reply,
    row: Option<KeptRow>,
}

/// Whether the row of a record that was there has the text of this row.
fn is_kept(
    alloc: Global,
    collection: &Collection,
    old: Option<&Rec>,
    row: &KeptRow,
) -> Result<bool, AllocError>
    ensures { IfOk result (λ same. same ≡ option_map_or (λ r. bytes_eq (rec_row collection.now r).value row.now.value) (option_copied old.entry) false) }
{
    match old {
        Some(old) => {
            let before = row_of_rec(alloc, collection, old)?;
            let same = before.value == row.value;
            drop(before);
            Ok(same)
        }
        None => Ok(false),
    }
}

/// The row of a record that is put in the place of another, unless it is kept as it is already.
fn row_wanted(
    alloc: Global,
    collection: &Collection,
    old: Option<&Rec>,
    rec: &Rec,
) -> Result<Option<KeptRow>, AllocError>
    ensures { IfOk result (λ row. row ≡ preparing.row_wanted collection.now (option_copied old.entry) rec.now) }
{
    let row = row_of_rec(alloc, collection, rec)?;
    match is_kept(alloc, collection, old, &row) {
        Ok(true) => {
            drop(row);
            Ok(None)
        }
        Ok(false) => Ok(Some(row)),
        Err(error) => {
            drop(row);
            Err(error)
        }
    }
}

/// The reply that shows a record.
fn show_put<L: Ledger>(
    alloc: Global,
    tables: &Tables,
    rules: &Rules,
    ask: &Ask,
    collection: &Collection,
    display: &Display,
    rec: &Rec,
    at: u64,
    steps: &mut Steps<L>,
) -> Result<Reply, AllocError>
    requires rules { rules.now ≡ rules_of (collections_of tables.now.world) }
    requires there { collection_named (collections_of tables.now.world) collection.now.name ≡ Some collection.now }
    ensures reply { IfOk result (IsAnswer (accepted_answer (Tree (displayed tables.now.world ask.now collection.now display.now rec.now)) at true)) }
    ensures steps { steps.old ≤ steps.new }
{
    let tree = display_rec(alloc, tables, rules, ask, collection, display, rec, steps)?;
    Ok(Reply::shown(printed(alloc, tree)?, at))
}

/// What is said of a record that was put, and its row.
fn prepare_rec<L: Ledger>(
    alloc: Global,
    tables: &Tables,
    rules: &Rules,
    ask: &Ask,
    collection: &Collection,
    display: &Display,
    old: Option<&Rec>,
    rec: &Rec,
    at: u64,
    steps: &mut Steps<L>,
) -> Result<Prepared, AllocError>
    requires rules { rules.now ≡ rules_of (collections_of tables.now.world) }
    requires there { collection_named (collections_of tables.now.world) collection.now.name ≡ Some collection.now }
    ensures prepared { IfOk result (IsPrepared tables.now.world ask.now display.now (record { collection = collection.now; rec = rec.now }) (option_copied old.entry) at) }
    ensures steps { steps.old ≤ steps.new }
{
    let row = row_wanted(alloc, collection, old, rec)?;
    match show_put(
        alloc, tables, rules, ask, collection, display, rec, at, steps,
    ) {
        Ok(reply) => Ok(Prepared { reply, row }),
        Err(error) => {
            drop(row);
            Err(error)
        }
    }
}

/// The same of the record that a delta put, which leads back by this one.
fn prepare<L: Ledger>(
    alloc: Global,
    tables: &Tables,
    rules: &Rules,
    ask: &Ask,
    display: &Display,
    back: &Delta,
    at: u64,
    steps: &mut Steps<L>,
) -> Result<Prepared, AllocError>
    requires rules { rules.now ≡ rules_of (collections_of tables.now.world) }
    requires back { (put : Put) × (old : Option Rec) × LeadsBack tables.now.world back.now put old }
    ensures prepared { (put : Put) (old : Option Rec) → LeadsBack tables.now.world back.now put old → IfOk result (IsPrepared tables.now.world ask.now display.now put old at) }
    ensures steps { steps.old ≤ steps.new }
{
    let Some(change) = back.recs.get(0) else {
        unreachable!()
    };
    let Some(collection) = collection_named(tables.collections(), change.collection.as_str()) else {
        unreachable!()
    };
    let Some(rec) = tables.rec(&change.collection, change.id, steps) else {
        unreachable!()
    };
    let old = change.after.as_ref();
    prepare_rec(
        alloc, tables, rules, ask, collection, display, old, rec, at, steps,
    )
}

// ---- keeping

/// Commits one row.
fn commit_row<K: Committer>(alloc: Global, keeper: &mut K, row: KeptRow) -> Result<(), KeepFault>
    ensures kept { OnOk result (IfBothTold (K.rows keeper.old) (K.rows keeper.new) (λ before now. now ≡ committed before (row ∷ []) [])) }
    ensures as_before { OnErr result (AreAsBefore (K.rows keeper.old) (K.rows keeper.new)) }
    ensures untold { StaysUntold (K.rows keeper.old) (K.rows keeper.new) }
    ensures cause { HasKeepCause (K.faults keeper.old) (K.faults keeper.new) result }
    ensures counts { K.faults keeper.new ≡ counted (K.faults keeper.old) result }
{
    let mut puts = Seq::new(alloc);
    if puts.push(row).is_err() {
        return Err(KeepFault::Memory);
    }
    let cuts = Seq::new(alloc);
    let kept = keeper.commit(alloc, &puts, &cuts);
    drop(puts);
    drop(cuts);
    kept
}

/// The reply where a row isn't kept: 500 exactly where the commit failed.
fn refuse_unkept(fault: KeepFault, at: u64) -> Reply
    ensures { SaysUnkept fault at result }
{
    match fault {
        KeepFault::Failed => Reply::not_kept(at),
        KeepFault::Memory => Reply::no_memory(at),
    }
}

/// Keeps the row of what was prepared, where there is one. The reply is what was prepared, or else why nothing is kept.
fn keep<K: Committer>(
    alloc: Global,
    keeper: &mut K,
    prepared: Result<Prepared, AllocError>,
    at: u64,
) -> Result<Reply, Reply>
    ensures kept { IfOk result (IsKeptAs prepared (K.rows keeper.old) (K.rows keeper.new)) }
    ensures refused { IfErr result (IsNotKept prepared (K.rows keeper.old) (K.rows keeper.new) (K.faults keeper.old) (K.faults keeper.new) at) }
    ensures untold { StaysUntold (K.rows keeper.old) (K.rows keeper.new) }
    ensures spared { OnOk result (K.faults keeper.new ≡ K.faults keeper.old) }
    ensures later { K.faults keeper.old ≤ K.faults keeper.new }
    ensures unasked { WantsRow prepared ⊎ (keeper.new ≡ keeper.old) }
{
    let Ok(prepared) = prepared else {
        return Err(Reply::no_memory(at));
    };
    let Prepared { reply, row } = prepared;
    let Some(row) = row else {
        return Ok(reply);
    };
    match commit_row(alloc, keeper, row) {
        Ok(()) => Ok(reply),
        Err(fault) => {
            drop(reply);
            Err(refuse_unkept(fault, at))
        }
    }
}

// ---- putting and entering

/// Puts a record, and keeps its row. Where that can't be done all is as before, and the reply says why.
fn put_rec<K: Committer, L: Ledger>(
    alloc: Global,
    tables: &mut Tables,
    rules: &Rules,
    keeper: &mut K,
    ask: &Ask,
    plan: Plan,
    at: u64,
    steps: &mut Steps<L>,
) -> Result<Reply, Reply>
    requires tabled { IsTabled tables.old.world }
    requires rules { rules.now ≡ rules_of (collections_of tables.old.world) }
    requires plan { (put : Put) × IsPlanned tables.old put plan.delta }
    ensures put { IfOk result (λ reply. (put : Put) → IsPlanned tables.old put plan.delta
        → IsPutAs ask.now plan.display put tables.old.world tables.new.world (K.rows keeper.old) (K.rows keeper.new) at reply) }
    ensures refused { IfErr result (λ reply. (put : Put) → IsPlanned tables.old put plan.delta
        → IsNotPut put tables.old.world tables.new.world (K.rows keeper.old) (K.rows keeper.new) (K.faults keeper.old) (K.faults keeper.new) at reply) }
    ensures untold { StaysUntold (K.rows keeper.old) (K.rows keeper.new) }
    ensures spared { OnOk result (K.faults keeper.new ≡ K.faults keeper.old) }
    ensures later { K.faults keeper.old ≤ K.faults keeper.new }
    ensures unasked { (put : Put) → IsPlanned tables.old put plan.delta → row_stands tables.old.world put.collection put.rec ≡ true → keeper.new ≡ keeper.old }
    ensures steps { steps.old ≤ steps.new }
{
    deltas_are_made_at_once();
    let Plan { delta, display } = plan;
    let back = tables.apply(delta);
    let prepared = prepare(alloc, tables, rules, ask, &display, &back, at, steps);
    drop(display);
    match keep(alloc, keeper, prepared, at) {
        Ok(reply) => Ok(reply),
        Err(reply) => {
            let _again = tables.apply(back);
            Err(reply)
        }
    }
}

/// Makes a place for one more command, or says why there is none: the history is full, or memory is wanting.
fn make_place(
    alloc: Global,
    journal: &mut Vec<Work>,
    bytes: u64,
    cost: u64,
    at: u64,
) -> Result<(), Reply>
    ensures items { journal.new.items ≡ journal.old.items }
    ensures place { OnOk result (vec_len journal.new < vec_capacity journal.new) }
    ensures room { OnOk result (has_no_room (record { entries = at; bytes = bytes }) cost ≡ false) }
    ensures refused { IfErr result (HasNoPlace (record { entries = at; bytes = bytes }) cost) }
{
    if is_full(at, bytes, cost) {
        return Err(refuse_full(alloc, at, bytes, cost));
    }
    match journal.reserve(1) {
        Ok(()) => Ok(()),
        Err(_) => Err(Reply::no_memory(at)),
    }
}

/// Enters a work that has its place.
fn enter_work(journal: &mut Vec<Work>, costs: &mut u64, work: Work)
    requires place { vec_len journal.old < vec_capacity journal.old }
    requires room { costs.old + work.cost ≤ 268435456 }
    ensures history { journal.new.items ≡ journal.old.items ++ work ∷ [] }
    ensures bytes { costs.new ≡ costs.old + work.cost }
{
    *costs += work.cost;
    journal.push_reserved(work);
}

/// Puts a record, and enters its work, which has its place; or says why not, and then all is as before.
fn enter_put<K: Committer, L: Ledger>(
    alloc: Global,
    tables: &mut Tables,
    journal: &mut Vec<Work>,
    costs: &mut u64,
    rules: &Rules,
    keeper: &mut K,
    ask: Ask,
    rest: Rest,
    plan: Plan,
    at: u64,
    steps: &mut Steps<L>,
) -> Reply
    requires at { at ≡ length journal.old.items }
    requires place { vec_len journal.old < vec_capacity journal.old }
    requires room { has_no_room (record { entries = at; bytes = costs.old }) rest.cost ≡ false }
    requires tabled { IsTabled tables.old.world }
    requires rules { rules.now ≡ rules_of (collections_of tables.old.world) }
    requires plan { (put : Put) × IsPlanned tables.old put plan.delta }
    ensures entry { (put : Put) → IsPlanned tables.old put plan.delta → Entry ask (whole_of ask rest) plan.display put
        (record { world = tables.old.world; history = journal.old.items; bytes = costs.old; rows = K.rows keeper.old; faults = K.faults keeper.old })
        (record { world = tables.new.world; history = journal.new.items; bytes = costs.new; rows = K.rows keeper.new; faults = K.faults keeper.new }) result }
    ensures unasked { (put : Put) → IsPlanned tables.old put plan.delta → row_stands tables.old.world put.collection put.rec ≡ true → keeper.new ≡ keeper.old }
    ensures steps { steps.old ≤ steps.new }
{
    match put_rec(alloc, tables, rules, keeper, &ask, plan, at, steps) {
        Ok(reply) => {
            enter_work(journal, costs, put_together(ask, rest));
            reply
        }
        Err(reply) => {
            drop(ask);
            drop(rest);
            reply
        }
    }
}

/// Puts a record and enters its work, or says why not; then all is as before.
pub(crate) fn enter<K: Committer, L: Ledger>(
    alloc: Global,
    tables: &mut Tables,
    journal: &mut Vec<Work>,
    costs: &mut u64,
    rules: &Rules,
    keeper: &mut K,
    ask: Ask,
    rest: Rest,
    plan: Plan,
    steps: &mut Steps<L>,
) -> Reply
    requires tabled { IsTabled tables.old.world }
    requires rules { rules.now ≡ rules_of (collections_of tables.old.world) }
    requires plan { (put : Put) × IsPlanned tables.old put plan.delta }
    ensures entry { (put : Put) → IsPlanned tables.old put plan.delta → Entry ask (whole_of ask rest) plan.display put
        (record { world = tables.old.world; history = journal.old.items; bytes = costs.old; rows = K.rows keeper.old; faults = K.faults keeper.old })
        (record { world = tables.new.world; history = journal.new.items; bytes = costs.new; rows = K.rows keeper.new; faults = K.faults keeper.new }) result }
    ensures unasked { (put : Put) → IsPlanned tables.old put plan.delta
        → (has_no_room (record { entries = length journal.old.items; bytes = costs.old }) rest.cost ≡ true) ⊎ (row_stands tables.old.world put.collection put.rec ≡ true)
        → keeper.new ≡ keeper.old }
    ensures steps { steps.old ≤ steps.new }
{
    let at = journal.as_slice().len() as u64;
    match make_place(alloc, journal, *costs, rest.cost, at) {
        Ok(()) => enter_put(
            alloc, tables, journal, costs, rules, keeper, ask, rest, plan, at, steps,
        ),
        Err(reply) => {
            drop(ask);
            drop(rest);
            drop(plan);
            reply
        }
    }
}
