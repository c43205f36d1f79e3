// Rows of records, read back.
ghost use Rattle.std.specs.Prelude.{◌≡◌, ◌≢◌, ℕ, List, IfOk, IsTrue, MatchOption};
ghost use Rattle.pocket_types.specs.Names.{is_id};
ghost use Rattle.pocket_keeper.specs.Texts.{rec_key};
ghost use Rattle.pocket_rows.specs.Cells.{AreShallow, HasNoCell, MayHaveCell, HasNoCells, MayHaveCells, HasNoRec, MayHaveRec, MayKeepRec};
ghost use Rattle.pocket_rows.specs.RowReading.{KeepsNoRec, KeepsRec};
ghost use Rattle.pocket_types.specs.Sound.{IsSoundCollection};

use crate::cells::cell_of;
use crate::members::{cell_tree_under, members_of, moment_under};
use pocket_keeper::{KeptRow, id_in_rec_key, row_of_rec};
use pocket_types::{Cell, Collection, Field, Id, Member, Rec, Seq};
use std::alloc::{AllocError, Global};

/// The cell that may stand under a field's name. None only where none does.
fn cell_under(alloc: Global, field: &Field, members: &[Member]) -> Result<Option<Cell>, AllocError>
    requires { AreShallow members.now }
    ensures { IfOk result (λ found. MatchOption found (HasNoCell field.now members.now) (λ cell. MayHaveCell field.now members.now cell)) }
{
    match cell_tree_under(members, field.name.as_str()) {
        Some(tree) => cell_of(alloc, &field.kind, tree),
        None => Ok(None),
    }
}

/// The cells that may stand under the fields' names. None only where none do.
fn cells_under(
    alloc: Global,
    fields: &[Field],
    members: &[Member],
) -> Result<Option<Seq<Cell>>, AllocError>
    requires { AreShallow members.now }
    ensures { IfOk result (λ found. MatchOption found (HasNoCells fields.now members.now) (λ cells. MayHaveCells fields.now members.now cells)) }
{
    let mut cells = Vec::new(alloc);
    for field in fields {
        let Some(cell) = cell_under(alloc, field, members)? else {
            return Ok(None);
        };
        cells.push(cell)?;
    }
    Ok(Some(Seq::from_vec(cells)))
}

/// The one record of these members that may be of the collection. None only where none is.
fn rec_of_members(
    alloc: Global,
    collection: &Collection,
    id: Id,
    members: &[Member],
) -> Result<Option<Rec>, AllocError>
    requires id { IsTrue (is_id id) }
    requires members { AreShallow members.now }
    ensures { IfOk result (λ found. MatchOption found (HasNoRec collection.now members.now) (λ rec. MayHaveRec collection.now id members.now rec)) }
{
    let Some(created) = moment_under(members, "created") else {
        return Ok(None);
    };
    let Some(updated) = moment_under(members, "updated") else {
        return Ok(None);
    };
    let fields = collection.fields.as_slice();
    let Some(cells) = cells_under(alloc, fields, members)? else {
        return Ok(None);
    };
    Ok(Some(Rec {
        id,
        created,
        updated,
        cells,
    }))
}

/// The one record of a collection that may have a row. None only where none has it.
fn candidate(
    alloc: Global,
    collection: &Collection,
    row: &KeptRow,
) -> Result<Option<Rec>, AllocError>
    requires { IsSoundCollection collection.now }
    ensures { IfOk result (λ found. MatchOption found (KeepsNoRec collection.now row.now) (λ rec. MayKeepRec collection.now row.now rec)) }
{
    let Some(id) = id_in_rec_key(row.key.as_str(), collection.name.as_str()) else {
        return Ok(None);
    };
    let Some(members) = members_of(alloc, row.value.as_str())? else {
        return Ok(None);
    };
    rec_of_members(alloc, collection, id, members.as_slice())
}

/// The record of a collection that a row keeps. None exactly where no sound record has this row.
pub fn rec_of_row(
    alloc: Global,
    collection: &Collection,
    row: &KeptRow,
) -> Result<Option<Rec>, AllocError>
    requires { IsSoundCollection collection.now }
    ensures { IfOk result (λ found. MatchOption found (KeepsNoRec collection.now row.now) (λ rec. KeepsRec collection.now row.now rec)) }
{
    let Some(rec) = candidate(alloc, collection, row)? else {
        return Ok(None);
    };
    let printed = row_of_rec(alloc, collection, &rec)?;
    let same_key = printed.key == row.key;
    let same_value = printed.value == row.value;
    if same_key && same_value {
        Ok(Some(rec))
    } else {
        Ok(None)
    }
}
