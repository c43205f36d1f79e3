// Rows of records that may stand in a store.
ghost use Rattle.std.specs.Prelude.{◌<◌, ◌≤◌, length, All, IfOk, MatchBool, MatchOption};
ghost use Rattle.pocket_keeper.specs.Rows.{IsRising};
ghost use Rattle.pocket_keeper.specs.Texts.{rec_key};
ghost use Rattle.pocket_store.specs.Reading.{IsGoodRecAt};
ghost use Rattle.pocket_store.specs.Stores.{AllHoldKept, AreReadable, HasKey, HoldsKept, IsRecRow};

use crate::limits::MOST_BYTES;
use crate::places::{has_rec, place_of};
use pocket_keeper::{KeptRow, split_rec_key};
use pocket_rows::rec_of_row;
use pocket_types::{Cell, Collection, Field, Id, Kind, Name, Rec};
use std::alloc::{AllocError, Global};

/// Whether each of the ids is that of a record of the collection that has a row.
fn are_kept(alloc: Global, rows: &[KeptRow], target: &Name, ids: &[Id]) -> Result<bool, AllocError>
    requires { IsRising rows.now }
    ensures { IfOk result (λ good. MatchBool good (All (λ id. HasKey rows.now (rec_key target.now id)) ids.now) (¬ All (λ id. HasKey rows.now (rec_key target.now id)) ids.now)) }
{
    for id in ids {
        if !has_rec(alloc, rows, target.as_str(), id.as_str())? {
            return Ok(false);
        }
    }
    Ok(true)
}

/// Whether each id that a relation's cell holds is that of a record of its target that has a row.
fn holds_kept(alloc: Global, rows: &[KeptRow], kind: &Kind, cell: &Cell) -> Result<bool, AllocError>
    requires { IsRising rows.now }
    ensures { IfOk result (λ good. MatchBool good (HoldsKept rows.now kind.now cell.now) (¬ HoldsKept rows.now kind.now cell.now)) }
{
    match kind {
        Kind::Relation { target, .. } => match cell {
            Cell::Refs(ids) => are_kept(alloc, rows, target, ids.as_slice()),
            _ => Ok(true),
        },
        _ => Ok(true),
    }
}

fn all_hold_kept(
    alloc: Global,
    rows: &[KeptRow],
    fields: &[Field],
    cells: &[Cell],
) -> Result<bool, AllocError>
    requires { IsRising rows.now }
    ensures { IfOk result (λ good. MatchBool good (AllHoldKept rows.now fields.now cells.now) (¬ AllHoldKept rows.now fields.now cells.now)) }
{
    for (field, cell) in fields.iter().zip(cells) {
        if !holds_kept(alloc, rows, &field.kind, cell)? {
            return Ok(false);
        }
    }
    Ok(true)
}

fn is_short(row: &KeptRow) -> bool
    ensures { MatchBool result (length row.now.value ≤ 65536) (65536 < length row.now.value) }
{
    row.value.len() <= MOST_BYTES
}

/// The record that a row keeps and the place of its collection, where it may stand there.
pub(crate) fn good_rec(
    alloc: Global,
    rows: &[KeptRow],
    collections: &[Collection],
    row: &KeptRow,
) -> Result<Option<(usize, Rec)>, AllocError>
    requires rising { IsRising rows.now }
    requires readable { AreReadable rows.now collections.now }
    ensures { IfOk result (λ found. MatchOption found (¬ IsRecRow rows.now collections.now row.now) (λ f. IsGoodRecAt rows.now collections.now row.now f.0 f.1)) }
{
    if !is_short(row) {
        return Ok(None);
    }
    let Some((name, _)) = split_rec_key(row.key.as_str()) else {
        return Ok(None);
    };
    let Some(at) = place_of(collections, name) else {
        return Ok(None);
    };
    let collection = &collections[at];
    let Some(rec) = rec_of_row(alloc, collection, row)? else {
        return Ok(None);
    };
    let held = all_hold_kept(
        alloc,
        rows,
        collection.fields.as_slice(),
        rec.cells.as_slice(),
    )?;
    if held { Ok(Some((at, rec))) } else { Ok(None) }
}
