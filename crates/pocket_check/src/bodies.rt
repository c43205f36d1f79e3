// The fields that a body sends, with the cells that they will have.
ghost use Rattle.std.specs.Prelude.{◌≡◌, ◌≢◌, ◌+◌, ℕ, List, Some, codes, map, zip, filter_map, IfOk, IfSome, option_map, Option, Err, MatchResult, ◌++◌};
ghost use Rattle.std.specs.Option.{option_copied, option_to_list};
ghost use Rattle.pocket_types.specs.declared.json.Jv.{out-Jv};
ghost use Rattle.pocket_types.specs.Chains.{or_refuse};
ghost use Rattle.pocket_types.specs.Profile.{IsProfiled};
ghost use Rattle.pocket_types.specs.Sound.{AllFit, Fits, IsCellTree, IsSoundCollection};
ghost use Rattle.pocket_types.specs.declared.records.Rec.{Rec};
ghost use Rattle.pocket_rows.specs.Cells.{AreShallow};
ghost use Rattle.pocket_check.specs.Answers.{Gives};
ghost use Rattle.pocket_check.specs.Bodies as bodies;
ghost use Rattle.pocket_check.specs.Changes as changes;
ghost use Rattle.pocket_check.specs.Cells.{zero_cells};
ghost use Rattle.pocket_check.specs.Changes.{IsWithin, cell_by_now};
ghost use Rattle.pocket_check.specs.declared.fault.CheckFault.TheVariants as fault;

use crate::change::Change;
use crate::fault::CheckFault;
use crate::keys::{cell_changed, has_key, key_of};
use crate::values::{cell_of, zero_cells};
use pocket_rows::{members_in, value_under};
use pocket_types::{Caller, Cell, Collection, Field, Id, Jv, Member, Name, Rec, Sent, Seq};
use std::alloc::{AllocError, Global};

// ---- the id of a creation

/// That what stands under `id` is no id.
fn id_fault(alloc: Global) -> CheckFault
    ensures { result ≢ fault.Memory → result ≡ fault.BadValue (codes "id") }
{
    match Name::read(alloc, "id") {
        Ok(name) => CheckFault::BadValue(name),
        Err(_) => CheckFault::Memory,
    }
}

/// The id that a text is; the empty text is none.
fn id_of_text(alloc: Global, text: &str) -> Result<Option<Id>, CheckFault>
    ensures { Gives result (bodies.id_of_text text.now) }
{
    if text.is_empty() {
        return Ok(None);
    }
    match Id::read(text) {
        Some(id) => Ok(Some(id)),
        None => Err(id_fault(alloc)),
    }
}

fn id_of_tree(alloc: Global, tree: &Jv) -> Result<Option<Id>, CheckFault>
    ensures { Gives result (bodies.id_of_tree tree.now) }
{
    match tree {
        Jv::Null => Ok(None),
        Jv::Text(text) => id_of_text(alloc, text.as_str()),
        _ => Err(id_fault(alloc)),
    }
}

/// The id that a body gives to a new record, where it gives one. The empty text and null give none.
#[tactic(auto, unfolding(crate::specs::Bodies::given_id))]
pub fn given_id(alloc: Global, body: &Jv) -> Result<Option<Id>, CheckFault>
    ensures { Gives result (bodies.given_id body.now) }
{
    let Some(members) = members_in(body) else {
        return Err(CheckFault::BadBody);
    };
    match value_under(members, "id") {
        Some(tree) => id_of_tree(alloc, tree),
        None => Ok(None),
    }
}

// ---- the cell of a field

/// The value that a body has for a change of a field's cell.
fn asked<'a>(
    alloc: Global,
    field: &Field,
    members: &'a [Member],
    change: Change,
) -> Result<Option<&'a Jv>, AllocError>
    ensures { IfOk result (λ found. option_copied found ≡ changes.asked field.now members.now change) }
{
    if !has_key(&field.kind, change) {
        return Ok(None);
    }
    let key = key_of(alloc, field.name.as_str(), change)?;
    Ok(value_under(members, key.as_str()))
}

/// That what stands under a key of a field isn't a value of it.
fn value_fault(field: &Field) -> CheckFault
    ensures { result ≢ fault.Memory → result ≡ fault.BadValue field.now.name }
{
    match field.name.clone() {
        Ok(name) => CheckFault::BadValue(name),
        Err(_) => CheckFault::Memory,
    }
}

/// The cell that a value is in a field.
fn read_cell(alloc: Global, field: &Field, tree: &Jv) -> Result<Cell, CheckFault>
    requires { IsCellTree tree.now }
    ensures cell { Gives result (changes.read_cell field.now tree.now) }
    ensures small { IfOk result (λ given. IsWithin 1 given) }
{
    match cell_of(alloc, &field.kind, tree)? {
        Some(cell) => Ok(cell),
        None => Err(value_fault(field)),
    }
}

/// The cell that a field has by now, which is the old one until a change is asked for.
fn by_now<'a>(old: &'a Cell, now: &'a Option<Cell>) -> &'a Cell
    ensures { result.now ≡ cell_by_now old.now now.now }
{
    match now {
        Some(cell) => cell,
        None => old,
    }
}

/// A field's cell after one change more, where a body asks for it. `now` is none until it asks for one.
#[tactic(auto, unfolding(crate::specs::Changes::after_change))]
fn after_change(
    alloc: Global,
    field: &Field,
    members: &[Member],
    old: &Cell,
    change: Change,
    now: Option<Cell>,
) -> Result<Option<Cell>, CheckFault>
    requires shallow { AreShallow members.now }
    requires room { IsWithin 4 (cell_by_now old.now now) }
    ensures cell { Gives result (changes.after_change field.now members.now old.now change now) }
    ensures grows { (times : ℕ) → IsWithin times (cell_by_now old.now now) → IfOk result (λ next. IsWithin (times + 1) (cell_by_now old.now next)) }
{
    let Some(tree) = asked(alloc, field, members, change)? else {
        return Ok(now);
    };
    let given = read_cell(alloc, field, tree)?;
    let cell = cell_changed(alloc, change, by_now(old, &now), given)?;
    Ok(Some(cell))
}

/// A field's cell after all that a body asks for, where it asks for anything.
#[tactic(auto, unfolding(crate::specs::Changes::after_changes))]
fn after_changes(
    alloc: Global,
    field: &Field,
    members: &[Member],
    old: &Cell,
) -> Result<Option<Cell>, CheckFault>
    requires shallow { AreShallow members.now }
    requires fit { Fits field.now.kind old.now }
    ensures { Gives result (changes.after_changes field.now members.now old.now) }
{
    let now = after_change(alloc, field, members, old, Change::Becomes, None)?;
    let now = after_change(alloc, field, members, old, Change::Before, now)?;
    let now = after_change(alloc, field, members, old, Change::Behind, now)?;
    after_change(alloc, field, members, old, Change::Without, now)
}

// ---- fields

/// A field with its cell, as it is sent.
fn with_name(field: &Field, cell: Cell) -> Result<Sent, AllocError>
    ensures { IfOk result (λ sent. sent ≡ changes.as_sent field.now cell) }
{
    Ok(Sent {
        field: field.name.clone()?,
        cell,
    })
}

/// A field that isn't ignored, as a body sends it.
fn field_read(
    alloc: Global,
    members: &[Member],
    field: &Field,
    old: &Cell,
) -> Result<Option<Sent>, CheckFault>
    requires shallow { AreShallow members.now }
    requires fit { Fits field.now.kind old.now }
    ensures { Gives result (changes.field_read field.now members.now old.now) }
{
    match after_changes(alloc, field, members, old) {
        Ok(Some(cell)) => Ok(Some(with_name(field, cell)?)),
        Ok(None) => Ok(None),
        Err(fault) => Err(fault),
    }
}

/// Hidden fields are ignored in a body that isn't the administrator's.
fn is_ignored(caller: &Caller, field: &Field) -> bool
    ensures { result ≡ bodies.is_ignored caller.now field.now }
{
    field.hidden && !caller.is_admin()
}

/// A field as a body sends it.
fn field_sent(
    alloc: Global,
    caller: &Caller,
    members: &[Member],
    field: &Field,
    old: &Cell,
) -> Result<Option<Sent>, CheckFault>
    requires shallow { AreShallow members.now }
    requires fit { Fits field.now.kind old.now }
    ensures { Gives result (bodies.field_sent caller.now members.now (field.now, old.now)) }
{
    if is_ignored(caller, field) {
        Ok(None)
    } else {
        field_read(alloc, members, field, old)
    }
}

/// Adds a field to those that are sent, where it is sent.
fn push_sent(
    sent: &mut Seq<Sent>,
    found: Result<Option<Sent>, CheckFault>,
) -> Result<(), CheckFault>
    ensures { MatchResult found
        (λ s. MatchResult result (λ _. sent.new ≡ sent.old ++ option_to_list s) (λ e. e ≡ fault.Memory))
        (λ e. result ≡ Err e) }
{
    match found {
        Ok(Some(field)) => Ok(sent.push(field)?),
        Ok(None) => Ok(()),
        Err(fault) => Err(fault),
    }
}

/// The fields that a body's members send over old cells.
fn sent_fields(
    alloc: Global,
    collection: &Collection,
    caller: &Caller,
    old: &[Cell],
    members: &[Member],
) -> Result<Seq<Sent>, CheckFault>
    requires shallow { AreShallow members.now }
    requires fit { AllFit collection.now.fields old.now }
    ensures { Gives result (bodies.sent_fields caller.now collection.now old.now members.now) }
{
    let mut sent = Seq::new(alloc);
    for (field, cell) in collection.fields.as_slice().iter().zip(old) {
        let found = field_sent(alloc, caller, members, field, cell);
        match push_sent(&mut sent, found) {
            Ok(_) => {}
            Err(fault) => return Err(fault),
        }
    }
    Ok(sent)
}

// ---- bodies

/// The fields that a body sends over old cells.
#[tactic(auto, unfolding(crate::specs::Bodies::sent_over))]
fn sent_over(
    alloc: Global,
    collection: &Collection,
    caller: &Caller,
    old: &[Cell],
    body: &Jv,
) -> Result<Seq<Sent>, CheckFault>
    requires profile { IsProfiled body.now }
    requires fit { AllFit collection.now.fields old.now }
    ensures { Gives result (bodies.sent_over caller.now collection.now old.now body.now) }
{
    let Some(members) = members_in(body) else {
        return Err(CheckFault::BadBody);
    };
    sent_fields(alloc, collection, caller, old, members)
}

/// The fields that a body sends to a new record, over cells that were never set.
fn sent_new(
    alloc: Global,
    collection: &Collection,
    caller: &Caller,
    body: &Jv,
) -> Result<Seq<Sent>, CheckFault>
    requires profile { IsProfiled body.now }
    ensures { Gives result (bodies.sent_over caller.now collection.now (zero_cells collection.now) body.now) }
{
    let zero = zero_cells(alloc, collection)?;
    sent_over(alloc, collection, caller, zero.as_slice(), body)
}

/// The fields that a body sends, with the cells that they will have. `old` is none for a creation.
#[tactic(auto, unfolding(crate::specs::Bodies::sent))]
pub fn read_body(
    alloc: Global,
    collection: &Collection,
    caller: &Caller,
    old: Option<&Rec>,
    body: &Jv,
) -> Result<Seq<Sent>, CheckFault>
    requires sound { IsSoundCollection collection.now }
    requires profile { IsProfiled body.now }
    requires fit { IfSome old (λ r. AllFit collection.now.fields r.now.cells) }
    ensures { Gives result (bodies.sent caller.now collection.now (option_copied old.entry) body.now) }
{
    match old {
        Some(rec) => sent_over(alloc, collection, caller, rec.cells.as_slice(), body),
        None => match given_id(alloc, body) {
            Ok(_) => sent_new(alloc, collection, caller, body),
            Err(fault) => Err(fault),
        },
    }
}
