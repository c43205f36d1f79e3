ghost use Rattle.std.specs.Prelude.{◌≡◌, IfOk, map, filter, filter_map, option_map, ◌++◌, false, find};
ghost use Rattle.std.specs.List.{list_any};
ghost use Rattle.std.specs.Str.{bytes_eq};
ghost use Rattle.std.specs.Option.{option_copied, option_map_or};
ghost use Rattle.pocket_types.specs.Kinds.{target_of};
ghost use Rattle.pocket_types.specs.World.{shelf_named, rec_of, lent_shelf, lent_world};
ghost use Rattle.pocket_ops.specs.Cells.{items_of};
ghost use Rattle.pocket_ops.specs.Fields.{ids_of};
ghost use Rattle.pocket_meaning.specs.Members as member;
ghost use Rattle.pocket_meaning.specs.Related.{sent_for, sent_field, shelf_member, held, refers, points_to, holders, step_list, root_list};
ghost use Rattle.pocket_meaning.specs.Seen.{seen, sight_of};

use crate::members::{Member, Scene};
use pocket_ops::{field_of, ids_in};
use pocket_types::{Caller, Cell, Collection, Field, Id, LentShelf, Name, Rec, Root, Sent, Step};
use std::alloc::{AllocError, Global};

/// What was sent for a field.
pub fn sent_of<'a>(body: &'a [Sent], name: &Name) -> Option<&'a Sent>
    ensures { option_copied result ≡ sent_for body.now name.now }
{
    body.iter().find(|sent| sent.field == *name)
}

/// The field of a name.
fn field_named<'a>(fields: &'a [Field], name: &Name) -> Option<&'a Field>
    ensures { option_copied result ≡ find (λ x. bytes_eq x.name name.now) fields.now }
{
    fields.iter().find(|field| field.name == *name)
}

/// The shelf of a collection.
pub fn shelf_in<'a>(shelves: &[LentShelf<'a>], name: &Name) -> Option<LentShelf<'a>>
    ensures { option_map lent_shelf result ≡ shelf_named name.now (lent_world shelves.now).shelves }
{
    match shelves {
        [] => None,
        [shelf, shelves @ ..] => {
            if shelf.collection.name == *name {
                Some(*shelf)
            } else {
                shelf_in(shelves, name)
            }
        }
    }
}

/// The record of an id.
fn rec_in(recs: &[Rec], id: Id) -> Option<&Rec>
    ensures { option_copied result ≡ rec_of id recs.now }
{
    recs.iter().find(|rec| rec.id == id)
}

/// A field of the home collection that was sent, with the cell that it will have.
pub fn sent_field_of<'a>(scene: &Scene<'_, 'a>, name: &Name) -> Option<(&'a Field, &'a Cell)>
    ensures { option_map (λ x. (x.0.now, x.1.now)) result ≡ sent_field (lent_world scene.now.shelves.now) scene.now.home.now scene.now.ask.now.body name.now }
{
    let shelf = shelf_in(scene.shelves, scene.home)?;
    let field = field_named(shelf.collection.fields.as_slice(), name)?;
    let sent = sent_of(scene.ask.body.as_slice(), name)?;
    Some((field, &sent.cell))
}

/// Adds the items of a cell.
pub fn add_items<'a>(members: &mut Vec<Member<'a>>, cell: &'a Cell) -> Result<(), AllocError>
    ensures { IfOk result (λ _. map seen members.new.items ≡ map seen members.old.items ++ map member.Item (items_of cell.now)) }
{
    match cell {
        Cell::Picks(texts) => {
            for text in texts.as_slice() {
                members.push(Member::Item(text.as_str()))?;
            }
        }
        Cell::Refs(ids) => {
            for id in ids.as_slice() {
                members.push(Member::Item(id.as_str()))?;
            }
        }
        _ => {}
    }
    Ok(())
}

/// Adds the records of a shelf.
fn add_shelf<'a>(members: &mut Vec<Member<'a>>, shelf: LentShelf<'a>) -> Result<(), AllocError>
    ensures { IfOk result (λ _. map seen members.new.items ≡ map seen members.old.items ++ map (member.Record shelf.entry.collection.now) shelf.entry.recs.now) }
{
    for rec in shelf.recs {
        members.push(Member::Record(shelf.collection, rec))?;
    }
    Ok(())
}

/// Adds the records of a shelf that these ids name, in the ids' order.
fn add_named<'a>(
    members: &mut Vec<Member<'a>>,
    shelf: LentShelf<'a>,
    ids: &[Id],
) -> Result<(), AllocError>
    ensures { IfOk result (λ _. map seen members.new.items ≡ map seen members.old.items ++ filter_map (shelf_member (lent_shelf shelf.entry)) ids.now) }
{
    for id in ids {
        if let Some(rec) = rec_in(shelf.recs, *id) {
            members.push(Member::Record(shelf.collection, rec))?;
        }
    }
    Ok(())
}

/// Adds the records that a relation holds.
fn add_held<'a>(
    members: &mut Vec<Member<'a>>,
    shelves: &[LentShelf<'a>],
    field: &Field,
    cell: &Cell,
) -> Result<(), AllocError>
    ensures { IfOk result (λ _. map seen members.new.items ≡ map seen members.old.items ++ held (lent_world shelves.now) (field.now, cell.now)) }
{
    if let Some(name) = field.kind.target()
        && let Some(shelf) = shelf_in(shelves, name)
    {
        add_named(members, shelf, ids_in(cell))?;
    }
    Ok(())
}

/// Whether a field refers to a collection.
fn is_relation_to(field: &Field, name: &Name) -> bool
    ensures { result ≡ option_map_or (λ t. bytes_eq t name.now) (target_of field.now.kind) false }
{
    match field.kind.target() {
        Some(target) => target == name,
        None => false,
    }
}

/// Whether a cell holds an id.
fn has_id(cell: &Cell, id: Id) -> bool
    ensures { result ≡ list_any (λ held. bytes_eq held id) (ids_of cell.now) }
{
    ids_in(cell).iter().any(|held| *held == id)
}

/// Whether a relation to a collection holds an id.
pub fn does_refer(field: &Field, cell: &Cell, name: &Name, id: Id) -> bool
    ensures { result ≡ refers name.now id (field.now, cell.now) }
{
    let to_it = is_relation_to(field, name);
    let holds = has_id(cell, id);
    to_it && holds
}

/// Whether a record's field refers to the record of a collection and an id.
fn does_point(collection: &Collection, rec: &Rec, field: &Name, name: &Name, id: Id) -> bool
    ensures { result ≡ points_to collection.now field.now name.now id rec.now }
{
    match field_of(collection, rec, field) {
        Some((field, cell)) => does_refer(field, cell, name, id),
        None => false,
    }
}

/// Adds the records of a shelf whose field refers to the record of a collection and an id.
fn add_holders<'a>(
    members: &mut Vec<Member<'a>>,
    shelf: LentShelf<'a>,
    field: &Name,
    name: &Name,
    id: Id,
) -> Result<(), AllocError>
    ensures { IfOk result (λ _. map seen members.new.items ≡ map seen members.old.items ++ map (member.Record shelf.entry.collection.now) (filter (points_to shelf.entry.collection.now field.now name.now id) shelf.entry.recs.now)) }
{
    for rec in shelf.recs {
        if does_point(shelf.collection, rec, field, name, id) {
            members.push(Member::Record(shelf.collection, rec))?;
        }
    }
    Ok(())
}

/// The members to which a step leads from one.
pub fn members_of_step<'a>(
    alloc: Global,
    scene: &Scene<'_, 'a>,
    step: &Step,
    from: Member<'a>,
) -> Result<Vec<Member<'a>>, AllocError>
    ensures { IfOk result (λ v. map seen v.items ≡ (sight_of scene.now).steps step.now (seen from.entry)) }
{
    let mut members = Vec::new(alloc);
    match (step, from) {
        (Step::Forward(name), Member::Record(collection, rec)) => {
            if let Some((field, cell)) = field_of(collection, rec, name) {
                add_held(&mut members, scene.shelves, field, cell)?;
            }
        }
        (Step::Forward(name), Member::Sent) => {
            if let Some((field, cell)) = sent_field_of(scene, name) {
                add_held(&mut members, scene.shelves, field, cell)?;
            }
        }
        (Step::Back(from, name), Member::Record(collection, rec)) => {
            if let Some(shelf) = shelf_in(scene.shelves, from) {
                add_holders(&mut members, shelf, name, &collection.name, rec.id)?;
            }
        }
        (Step::Item(name), Member::Record(collection, rec)) => {
            if let Some((_, cell)) = field_of(collection, rec, name) {
                add_items(&mut members, cell)?;
            }
        }
        (Step::Item(name), Member::Sent) => {
            if let Some((_, cell)) = sent_field_of(scene, name) {
                add_items(&mut members, cell)?;
            }
        }
        _ => {}
    }
    Ok(members)
}

/// The members of a root.
pub fn members_of_root<'a>(
    alloc: Global,
    scene: &Scene<'_, 'a>,
    root: &Root,
) -> Result<Vec<Member<'a>>, AllocError>
    ensures { IfOk result (λ v. map seen v.items ≡ (sight_of scene.now).roots root.now) }
{
    let mut members = Vec::new(alloc);
    match root {
        Root::Home => {
            if let Some(shelf) = shelf_in(scene.shelves, scene.home) {
                members.push(Member::Record(shelf.collection, scene.rec))?;
            }
        }
        Root::Auth => {
            if let Caller::Member(name, id) = &scene.ask.caller
                && let Some(shelf) = shelf_in(scene.shelves, name)
                && let Some(rec) = rec_in(shelf.recs, *id)
            {
                members.push(Member::Record(shelf.collection, rec))?;
            }
        }
        Root::Body => members.push(Member::Sent)?,
        Root::Look(name, _) => {
            if let Some(shelf) = shelf_in(scene.shelves, name) {
                add_shelf(&mut members, shelf)?;
            }
        }
    }
    Ok(members)
}
