// The records that bodies would make.
ghost use Rattle.std.specs.Prelude.{◌≡◌, ◌≢◌, ◌≤◌, ℕ, List, All, Err, IfOk, IfSome, None, Some, slice_index, unwrap_or};
ghost use Rattle.std.specs.Option.{option_copied};
ghost use Rattle.pocket_types.specs.Names.{made_id};
ghost use Rattle.pocket_types.specs.Profile.{IsProfiled};
ghost use Rattle.pocket_types.specs.Sound.{AllFit, IsSoundCollection};
ghost use Rattle.pocket_types.specs.Within.{collections_of};
ghost use Rattle.pocket_types.specs.declared.world.World.{World};
ghost use Rattle.pocket_tables.specs.Laws.{HasSoundParts};
ghost use Rattle.pocket_tables.specs.Worlds.{HasShape, collection_at, rec_at, shapes_of};
ghost use Rattle.pocket_gate.specs.Built.{rules_of};
ghost use Rattle.pocket_check.specs.Bodies.{with_sent};
ghost use Rattle.pocket_check.specs.Cells.{zero_cells};
ghost use Rattle.pocket_change.specs.Changes.{candidate_put, created, old_put, put_checked, updated};
ghost use Rattle.pocket_change.specs.Changes as defs;
ghost use Rattle.pocket_change.specs.Plans.{LeadsTo, admitted_put, none_updated, old_updated, tree_created};
ghost use Rattle.pocket_change.specs.declared.fault.ChangeFault.TheVariants as fault;

use crate::bodies::{body_of, cells_with, fields_sent, id_given};
use crate::copies::ask_with;
use crate::fault::ChangeFault;
use crate::judging::admit;
use pocket_check::laws::{sent_cells_have_shape, zero_cells_fit};
use pocket_check::zero_cells as cells_never_set;
use pocket_gate::Rules;
use pocket_tables::Tables;
use pocket_types::{Action, Ask, Collection, Id, Jv, Moment, Rec, Sent, Seq, Steps};
use std::alloc::{AllocError, Global};
use std::sync::ledger::Ledger;

/// A new record, with the request as its rule sees it.
#[derive(Drop)]
pub(crate) struct Candidate {
    pub rec: Rec,
    pub ask: Ask,
}

/// The id given, or the one that the words make.
fn id_or_made(given: Option<Id>, words: [u64; 2]) -> Id
    ensures { result ≡ unwrap_or given (made_id (slice_index words 0) (slice_index words 1)) }
{
    match given {
        Some(id) => id,
        None => Id::made(words),
    }
}

/// A new record of fields that were sent.
fn new_rec(
    alloc: Global,
    collection: &Collection,
    fields: &[Sent],
    given: Option<Id>,
    words: [u64; 2],
    moment: Moment,
) -> Result<Rec, AllocError>
    ensures { IfOk result (λ made. made ≡ defs.new_rec given words moment (with_sent fields.now collection.now (zero_cells collection.now))) }
{
    let zero = cells_never_set(alloc, collection)?;
    let cells = cells_with(alloc, fields, collection, zero.as_slice())?;
    let id = id_or_made(given, words);
    Ok(Rec {
        id,
        created: moment,
        updated: moment,
        cells,
    })
}

/// A new record whose id is free.
fn free_candidate<L: Ledger>(
    alloc: Global,
    tables: &Tables,
    ask: &Ask,
    collection: &Collection,
    fields: Seq<Sent>,
    rec: Rec,
    steps: &mut Steps<L>,
) -> Result<Candidate, ChangeFault>
    ensures leads { LeadsTo (λ x. admitted_put tables.now.world x.ask collection.now x.rec) result
        (candidate_put tables.now.world ask.now collection.now fields rec) }
    ensures same { IfOk result (λ x. x.rec ≡ rec) }
    ensures steps { steps.old ≤ steps.new }
{
    if tables.rec(&collection.name, rec.id, steps).is_some() {
        return Err(ChangeFault::IdTaken);
    }
    match ask_with(alloc, ask, fields) {
        Ok(ask) => Ok(Candidate { rec, ask }),
        Err(_) => Err(ChangeFault::Memory),
    }
}

/// The record that a body's tree would create.
fn tree_candidate<L: Ledger>(
    alloc: Global,
    tables: &Tables,
    ask: &Ask,
    collection: &Collection,
    tree: &Jv,
    words: [u64; 2],
    steps: &mut Steps<L>,
) -> Result<Candidate, ChangeFault>
    requires sound { IsSoundCollection collection.now }
    requires profile { IsProfiled tree.now }
    ensures leads { LeadsTo (λ x. admitted_put tables.now.world x.ask collection.now x.rec) result
        (tree_created tables.now.world ask.now collection.now words tree.now) }
    ensures shape { IfOk result (λ x. HasShape (shapes_of collection.now) x.rec) }
    ensures steps { steps.old ≤ steps.new }
{
    zero_cells_fit();
    sent_cells_have_shape();
    let given = match id_given(alloc, tree) {
        Ok(given) => given,
        Err(fault) => return Err(fault),
    };
    let fields = match fields_sent(alloc, collection, &ask.caller, None, tree) {
        Ok(fields) => fields,
        Err(fault) => return Err(fault),
    };
    let rec = match new_rec(
        alloc,
        collection,
        fields.as_slice(),
        given,
        words,
        ask.moment,
    ) {
        Ok(rec) => rec,
        Err(_) => return Err(ChangeFault::Memory),
    };
    free_candidate(alloc, tables, ask, collection, fields, rec, steps)
}

/// The record that a body would create.
pub(crate) fn body_candidate<L: Ledger>(
    alloc: Global,
    tables: &Tables,
    ask: &Ask,
    collection: &Collection,
    body: Option<&Jv>,
    words: [u64; 2],
    steps: &mut Steps<L>,
) -> Result<Candidate, ChangeFault>
    requires sound { IsSoundCollection collection.now }
    requires profile { IfSome body (λ tree. IsProfiled tree.now) }
    ensures leads { LeadsTo (λ x. admitted_put tables.now.world x.ask collection.now x.rec) result
        (created tables.now.world ask.now collection.now (option_copied body.entry) words) }
    ensures shape { IfOk result (λ x. HasShape (shapes_of collection.now) x.rec) }
    ensures steps { steps.old ≤ steps.new }
{
    let rule = &collection.create_rule;
    match body_of(ask, Action::Create, collection, rule, body) {
        Ok(tree) => tree_candidate(alloc, tables, ask, collection, tree, words, steps),
        Err(fault) => Err(fault),
    }
}

/// An old record with the fields that were sent, where the update rule admits the old one.
fn admitted_rec<L: Ledger>(
    alloc: Global,
    tables: &Tables,
    rules: &Rules,
    ask: &Ask,
    collection: &Collection,
    fields: Seq<Sent>,
    old: &Rec,
    steps: &mut Steps<L>,
) -> Result<Rec, ChangeFault>
    requires rules { rules.now ≡ rules_of (collections_of tables.now.world) }
    requires there { collection_at tables.now.world collection.now.name ≡ Some collection.now }
    ensures leads { LeadsTo (put_checked tables.now.world collection.now) result
        (old_put tables.now.world ask.now collection.now fields old.now) }
    ensures cells { IfOk result (λ r. r.cells ≡ with_sent fields collection.now old.now.cells) }
    ensures steps { steps.old ≤ steps.new }
{
    let cells = cells_with(alloc, fields.as_slice(), collection, old.cells.as_slice())?;
    let ask = ask_with(alloc, ask, fields)?;
    let name = &collection.name;
    let verdict = rules.may(alloc, tables, &ask, Action::Update, name, old, steps);
    match admit(verdict) {
        Ok(()) => Ok(Rec {
            id: old.id,
            created: old.created,
            updated: ask.moment,
            cells,
        }),
        Err(fault) => Err(fault),
    }
}

/// An old record as a body's tree would change it.
fn tree_rec<L: Ledger>(
    alloc: Global,
    tables: &Tables,
    rules: &Rules,
    ask: &Ask,
    collection: &Collection,
    old: &Rec,
    tree: &Jv,
    steps: &mut Steps<L>,
) -> Result<Rec, ChangeFault>
    requires rules { rules.now ≡ rules_of (collections_of tables.now.world) }
    requires there { collection_at tables.now.world collection.now.name ≡ Some collection.now }
    requires sound { IsSoundCollection collection.now }
    requires fit { AllFit collection.now.fields old.now.cells }
    requires profile { IsProfiled tree.now }
    ensures leads { LeadsTo (put_checked tables.now.world collection.now) result
        (old_updated tables.now.world ask.now collection.now old.now tree.now) }
    ensures shape { IfOk result (λ r. HasShape (shapes_of collection.now) r) }
    ensures steps { steps.old ≤ steps.new }
{
    sent_cells_have_shape();
    match fields_sent(alloc, collection, &ask.caller, Some(old), tree) {
        Ok(fields) => admitted_rec(alloc, tables, rules, ask, collection, fields, old, steps),
        Err(fault) => Err(fault),
    }
}

/// Why there is nothing that a body's tree would change.
fn tree_refusal(alloc: Global, ask: &Ask, collection: &Collection, tree: &Jv) -> ChangeFault
    requires sound { IsSoundCollection collection.now }
    requires profile { IsProfiled tree.now }
    ensures { result ≢ fault.Memory → none_updated ask.now collection.now tree.now ≡ Err result }
{
    zero_cells_fit();
    let Ok(cells) = cells_never_set(alloc, collection) else {
        return ChangeFault::Memory;
    };
    let moment = ask.moment;
    let none = Rec {
        id: Id::made([0, 0]),
        created: moment,
        updated: moment,
        cells,
    };
    match fields_sent(alloc, collection, &ask.caller, Some(&none), tree) {
        Ok(_) => ChangeFault::NoRecord,
        Err(fault) => fault,
    }
}

/// An old record as a body would change it.
pub(crate) fn rewritten_rec<L: Ledger>(
    alloc: Global,
    tables: &Tables,
    rules: &Rules,
    ask: &Ask,
    collection: &Collection,
    id: Id,
    body: Option<&Jv>,
    steps: &mut Steps<L>,
) -> Result<Rec, ChangeFault>
    requires rules { rules.now ≡ rules_of (collections_of tables.now.world) }
    requires there { collection_at tables.now.world collection.now.name ≡ Some collection.now }
    requires sound { All HasSoundParts tables.now.world.shelves }
    requires profile { IfSome body (λ tree. IsProfiled tree.now) }
    ensures leads { LeadsTo (put_checked tables.now.world collection.now) result
        (updated tables.now.world ask.now collection.now id (option_copied body.entry)) }
    ensures shape { IfOk result (λ r. HasShape (shapes_of collection.now) r) }
    ensures steps { steps.old ≤ steps.new }
{
    let rule = &collection.update_rule;
    let tree = match body_of(ask, Action::Update, collection, rule, body) {
        Ok(tree) => tree,
        Err(fault) => return Err(fault),
    };
    match tables.rec(&collection.name, id, steps) {
        Some(old) => tree_rec(alloc, tables, rules, ask, collection, old, tree, steps),
        None => Err(tree_refusal(alloc, ask, collection, tree)),
    }
}

/// Why there is nothing that a body would change.
pub(crate) fn refusal(
    alloc: Global,
    ask: &Ask,
    collection: &Collection,
    body: Option<&Jv>,
) -> ChangeFault
    requires sound { IsSoundCollection collection.now }
    requires profile { IfSome body (λ tree. IsProfiled tree.now) }
    ensures { (w : World) (id : List ℕ) → rec_at w collection.now.name id ≡ None → result ≢ fault.Memory
        → updated w ask.now collection.now id (option_copied body.entry) ≡ Err result }
{
    let rule = &collection.update_rule;
    match body_of(ask, Action::Update, collection, rule, body) {
        Ok(tree) => tree_refusal(alloc, ask, collection, tree),
        Err(fault) => fault,
    }
}
