// The JSON of records.
ghost use Rattle.std.specs.Prelude.{◌≡◌, ◌&&◌, not, IfOk, if◌then◌else◌};
ghost use Rattle.pocket_types.specs.Maps.{put};
ghost use Rattle.pocket_ops.specs.Trees.{put_cells, cell_jv, rec_members, shown_members, kept_jv, rec_jv};

use crate::cell_trees::cell_jv;
use crate::trees::{map_jv, moment_jv, text_jv};
use pocket_types::{Cell, Collection, Field, Jv, Rec, Text};
use std::alloc::{AllocError, Global};
use std::collections::BTreeMap;

/// Puts a member among those there; of equal keys the later value counts.
#[tactic(auto, unfolding(pocket_types::specs::Maps::put))]
pub fn put_member(
    members: &mut BTreeMap<Text, Jv>,
    alloc: Global,
    key: &str,
    value: Jv,
) -> Result<(), AllocError>
    ensures { IfOk result (λ _. members.new.entries ≡ put key.now value members.old.entries) }
{
    let key = Text::from_str(alloc, key)?;
    drop(members.insert(key, value)?);
    Ok(())
}

/// Puts a cell under its field's name, one of a hidden field only where those are wanted.
fn put_cell(
    members: &mut BTreeMap<Text, Jv>,
    alloc: Global,
    field: &Field,
    cell: &Cell,
    hidden: bool,
) -> Result<(), AllocError>
    ensures { IfOk result (λ _. members.new.entries
        ≡ (if field.now.hidden && not hidden then members.old.entries
        else put field.now.name (cell_jv field.now.kind cell.now) members.old.entries)) }
{
    if field.hidden && !hidden {
        return Ok(());
    }
    let value = cell_jv(alloc, &field.kind, cell)?;
    put_member(members, alloc, field.name.as_str(), value)
}

fn put_cells(
    members: &mut BTreeMap<Text, Jv>,
    alloc: Global,
    fields: &[Field],
    cells: &[Cell],
    hidden: bool,
) -> Result<(), AllocError>
    ensures { IfOk result (λ _. members.new.entries
        ≡ put_cells hidden fields.now cells.now members.old.entries) }
{
    for (field, cell) in fields.iter().zip(cells) {
        put_cell(members, alloc, field, cell, hidden)?;
    }
    Ok(())
}

/// The dates of a record and its cells, by key.
#[tactic(auto, unfolding(pocket_types::specs::Maps::put))]
fn rec_members(
    alloc: Global,
    collection: &Collection,
    rec: &Rec,
    hidden: bool,
) -> Result<BTreeMap<Text, Jv>, AllocError>
    ensures { IfOk result (λ members. members.entries ≡ rec_members hidden collection.now rec.now) }
{
    let mut members = BTreeMap::new(alloc);
    let created = moment_jv(alloc, &rec.created)?;
    put_member(&mut members, alloc, "created", created)?;
    let updated = moment_jv(alloc, &rec.updated)?;
    put_member(&mut members, alloc, "updated", updated)?;
    let fields = collection.fields.as_slice();
    put_cells(&mut members, alloc, fields, rec.cells.as_slice(), hidden)?;
    Ok(members)
}

/// The JSON of a record as its row keeps it: its dates and all its cells, those of hidden fields too.
pub fn kept_jv(alloc: Global, collection: &Collection, rec: &Rec) -> Result<Jv, AllocError>
    ensures { IfOk result (λ tree. tree ≡ kept_jv collection.now rec.now) }
{
    map_jv(alloc, rec_members(alloc, collection, rec, true)?)
}

/// The members of a record as it is shown, by key: with its hidden fields for the administrator, else without them.
pub fn shown_members(
    alloc: Global,
    collection: &Collection,
    rec: &Rec,
    hidden: bool,
) -> Result<BTreeMap<Text, Jv>, AllocError>
    ensures { IfOk result (λ members. members.entries ≡ shown_members hidden collection.now rec.now) }
{
    let mut members = rec_members(alloc, collection, rec, hidden)?;
    let name = text_jv(alloc, collection.name.as_str())?;
    put_member(&mut members, alloc, "collectionName", name)?;
    let id = text_jv(alloc, rec.id.as_str())?;
    put_member(&mut members, alloc, "id", id)?;
    Ok(members)
}

/// The JSON of a record as it is shown: with its hidden fields for the administrator, else without them.
pub fn rec_jv(
    alloc: Global,
    collection: &Collection,
    rec: &Rec,
    hidden: bool,
) -> Result<Jv, AllocError>
    ensures { IfOk result (λ tree. tree ≡ rec_jv collection.now rec.now hidden) }
{
    map_jv(alloc, shown_members(alloc, collection, rec, hidden)?)
}
