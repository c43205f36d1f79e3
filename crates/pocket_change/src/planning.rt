// The deltas of creations and updates.
ghost use Rattle.std.specs.Prelude.{◌≡◌, ◌≢◌, ◌≤◌, All, Err, IfOk, IfSome, IsSome, None, Some};
ghost use Rattle.std.specs.Option.{option_copied};
ghost use Rattle.pocket_types.specs.Profile.{IsProfiled};
ghost use Rattle.pocket_types.specs.Within.{collections_of};
ghost use Rattle.pocket_types.specs.declared.ids.Id.{Id};
ghost use Rattle.pocket_types.specs.declared.records.Collection.{Collection};
ghost use Rattle.pocket_tables.specs.Deltas.{FitsWorld};
ghost use Rattle.pocket_tables.specs.Kept.{IsReady, KeepsReady};
ghost use Rattle.pocket_tables.specs.Laws.{HasSoundParts};
ghost use Rattle.pocket_tables.specs.Worlds.{MayStand, collection_at, rec_at};
ghost use Rattle.pocket_gate.specs.Built.{rules_of};
ghost use Rattle.pocket_change.specs.Answers.{Gives};
ghost use Rattle.pocket_change.specs.Changes.{created, creation, put_checked, update, updated};
ghost use Rattle.pocket_change.specs.Plans.{LeadsTo, admitted_put, put_planned};
ghost use Rattle.pocket_change.specs.declared.fault.ChangeFault.TheVariants as fault;

use crate::candidates::{Candidate, body_candidate, refusal, rewritten_rec};
use crate::fault::ChangeFault;
use crate::judging::judge_standing;
use crate::putting::{put_in, take_back};
use pocket_gate::{Rules, collection_named};
use pocket_tables::Tables;
use pocket_types::{Ask, Delta, Id, Jv, Name, Rec, Steps};
use std::alloc::Global;
use std::sync::ledger::Ledger;

/// The record that a body would create in a collection of this name.
fn candidate_in<L: Ledger>(
    alloc: Global,
    tables: &Tables,
    ask: &Ask,
    collection: &Name,
    body: Option<&Jv>,
    words: [u64; 2],
    steps: &mut Steps<L>,
) -> Result<Candidate, ChangeFault>
    requires sound { All HasSoundParts tables.now.world.shelves }
    requires there { IsSome (collection_at tables.now.world collection.now) }
    requires body { IfSome body (λ tree. IsProfiled tree.now) }
    ensures leads { (c : Collection) → collection_at tables.now.world collection.now ≡ Some c
        → LeadsTo (λ x. admitted_put tables.now.world x.ask c x.rec) result (created tables.now.world ask.now c (option_copied body.entry) words) }
    ensures stands { IfOk result (λ x. MayStand (collection_at tables.now.world collection.now) x.rec) }
    ensures steps { steps.old ≤ steps.new }
{
    match collection_named(tables.collections(), collection) {
        Some(collection) => body_candidate(alloc, tables, ask, collection, body, words, steps),
        None => unreachable!(),
    }
}

/// The record of an id as a body would change it, in a collection of this name.
fn rewritten_in<L: Ledger>(
    alloc: Global,
    tables: &Tables,
    rules: &Rules,
    ask: &Ask,
    collection: &Name,
    id: Id,
    body: Option<&Jv>,
    steps: &mut Steps<L>,
) -> Result<Rec, ChangeFault>
    requires rules { rules.now ≡ rules_of (collections_of tables.now.world) }
    requires sound { All HasSoundParts tables.now.world.shelves }
    requires there { IsSome (collection_at tables.now.world collection.now) }
    requires body { IfSome body (λ tree. IsProfiled tree.now) }
    ensures leads { (c : Collection) → collection_at tables.now.world collection.now ≡ Some c
        → LeadsTo (put_checked tables.now.world c) result (updated tables.now.world ask.now c id (option_copied body.entry)) }
    ensures stands { IfOk result (λ r. MayStand (collection_at tables.now.world collection.now) r) }
    ensures steps { steps.old ≤ steps.new }
{
    match collection_named(tables.collections(), collection) {
        Some(collection) => rewritten_rec(alloc, tables, rules, ask, collection, id, body, steps),
        None => unreachable!(),
    }
}

/// The delta that puts a record into a collection, or why it may not be put; one that a request creates is judged by
/// the create rule too. The tables are as before, and ready for the delta.
fn plan_put<L: Ledger>(
    alloc: Global,
    tables: &mut Tables,
    rules: &Rules,
    creator: Option<&Ask>,
    collection: &Name,
    rec: Rec,
    steps: &mut Steps<L>,
) -> Result<Delta, ChangeFault>
    requires rules { rules.now ≡ rules_of (collections_of tables.old.world) }
    requires sound { All HasSoundParts tables.old.world.shelves }
    requires stands { MayStand (collection_at tables.old.world collection.now) rec }
    ensures delta { (c : Collection) → collection_at tables.old.world collection.now ≡ Some c
        → Gives result (put_planned tables.old.world (option_copied creator.entry) c rec) }
    ensures world { tables.new.world ≡ tables.old.world }
    ensures fits { IfOk result (λ d. FitsWorld d tables.new.world) }
    ensures ready { IfOk result (λ d. IsReady tables.new d) }
    ensures kept { KeepsReady tables.old tables.new }
    ensures steps { steps.old ≤ steps.new }
{
    let id = rec.id;
    let back = match put_in(alloc, tables, collection, rec) {
        Ok(back) => back,
        Err(_) => return Err(ChangeFault::Memory),
    };
    let judged = judge_standing(alloc, tables, rules, creator, collection, id, steps);
    take_back(tables, back, judged)
}

/// The delta that creates a record of a collection, or the first refusal. The tables are as before, and ready for the delta.
pub fn plan_create<L: Ledger>(
    alloc: Global,
    tables: &mut Tables,
    rules: &Rules,
    ask: &Ask,
    collection: &Name,
    body: Option<&Jv>,
    words: [u64; 2],
    steps: &mut Steps<L>,
) -> Result<Delta, ChangeFault>
    requires rules { rules.now ≡ rules_of (collections_of tables.old.world) }
    requires sound { All HasSoundParts tables.old.world.shelves }
    requires there { IsSome (collection_at tables.old.world collection.now) }
    requires body { IfSome body (λ tree. IsProfiled tree.now) }
    ensures delta { IfSome (collection_at tables.old.world collection.now)
        (λ c. Gives result (creation tables.old.world ask.now c (option_copied body.entry) words)) }
    ensures world { tables.new.world ≡ tables.old.world }
    ensures fits { IfOk result (λ d. FitsWorld d tables.new.world) }
    ensures ready { IfOk result (λ d. IsReady tables.new d) }
    ensures kept { KeepsReady tables.old tables.new }
    ensures steps { steps.old ≤ steps.new }
{
    let made = match candidate_in(alloc, tables, ask, collection, body, words, steps) {
        Ok(made) => made,
        Err(fault) => return Err(fault),
    };
    let Candidate { rec, ask } = made;
    plan_put(alloc, tables, rules, Some(&ask), collection, rec, steps)
}

/// The delta that changes the record of a collection and an id, or the first refusal. The tables are as before, and ready for the delta.
pub fn plan_update<L: Ledger>(
    alloc: Global,
    tables: &mut Tables,
    rules: &Rules,
    ask: &Ask,
    collection: &Name,
    id: Id,
    body: Option<&Jv>,
    steps: &mut Steps<L>,
) -> Result<Delta, ChangeFault>
    requires rules { rules.now ≡ rules_of (collections_of tables.old.world) }
    requires sound { All HasSoundParts tables.old.world.shelves }
    requires there { IsSome (collection_at tables.old.world collection.now) }
    requires body { IfSome body (λ tree. IsProfiled tree.now) }
    ensures delta { IfSome (collection_at tables.old.world collection.now)
        (λ c. Gives result (update tables.old.world ask.now c id (option_copied body.entry))) }
    ensures world { tables.new.world ≡ tables.old.world }
    ensures fits { IfOk result (λ d. FitsWorld d tables.new.world) }
    ensures ready { IfOk result (λ d. IsReady tables.new d) }
    ensures kept { KeepsReady tables.old tables.new }
    ensures steps { steps.old ≤ steps.new }
{
    let rec = match rewritten_in(alloc, tables, rules, ask, collection, id, body, steps) {
        Ok(rec) => rec,
        Err(fault) => return Err(fault),
    };
    plan_put(alloc, tables, rules, None, collection, rec, steps)
}

/// Why an update is refused where no record stands: at a text that has no id's form, or at an id of no record.
pub fn refuse_update(
    alloc: Global,
    tables: &Tables,
    ask: &Ask,
    collection: &Name,
    body: Option<&Jv>,
) -> ChangeFault
    requires sound { All HasSoundParts tables.now.world.shelves }
    requires there { IsSome (collection_at tables.now.world collection.now) }
    requires body { IfSome body (λ tree. IsProfiled tree.now) }
    ensures fault { IfSome (collection_at tables.now.world collection.now)
        (λ c. (id : Id) → rec_at tables.now.world c.name id ≡ None → result ≢ fault.Memory
        → updated tables.now.world ask.now c id (option_copied body.entry) ≡ Err result) }
{
    match collection_named(tables.collections(), collection) {
        Some(collection) => refusal(alloc, ask, collection, body),
        None => unreachable!(),
    }
}
