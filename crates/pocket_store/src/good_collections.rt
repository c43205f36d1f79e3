// Rows of collections that may stand in a store.
ghost use Rattle.std.specs.Prelude.{◌<◌, ◌≤◌, length, All, IfOk, MatchBool};
ghost use Rattle.pocket_keeper.specs.Rows.{IsRising};
ghost use Rattle.pocket_store.specs.Reading.{AddsCollection};
ghost use Rattle.pocket_store.specs.Stores.{AreReadable, FitsAmong, IsCollectionRow, LeadsToKept};

use crate::limits::MOST_FIELDS;
use crate::places::has_collection;
use crate::rules::rules_resolve;
use pocket_keeper::KeptRow;
use pocket_rows::collection_of_row;
use pocket_types::{Collection, Field};
use std::alloc::{AllocError, Global};

/// Whether the collection that a relation leads to has a row. Other fields lead nowhere.
fn leads_to_kept(alloc: Global, rows: &[KeptRow], field: &Field) -> Result<bool, AllocError>
    requires { IsRising rows.now }
    ensures { IfOk result (λ good. MatchBool good (LeadsToKept rows.now field.now) (¬ LeadsToKept rows.now field.now)) }
{
    match field.kind.target() {
        Some(target) => has_collection(alloc, rows, target.as_str()),
        None => Ok(true),
    }
}

fn all_lead_to_kept(alloc: Global, rows: &[KeptRow], fields: &[Field]) -> Result<bool, AllocError>
    requires { IsRising rows.now }
    ensures { IfOk result (λ good. MatchBool good (All (LeadsToKept rows.now) fields.now) (¬ All (LeadsToKept rows.now) fields.now)) }
{
    for field in fields {
        if !leads_to_kept(alloc, rows, field)? {
            return Ok(false);
        }
    }
    Ok(true)
}

/// Adds the collection that a row keeps, if there is one.
fn add_collection(
    alloc: Global,
    collections: &mut Vec<Collection>,
    row: &KeptRow,
) -> Result<(), AllocError>
    ensures { IfOk result (λ _. AddsCollection row.now collections.old.items collections.new.items) }
{
    let Some(collection) = collection_of_row(alloc, row)? else {
        return Ok(());
    };
    collections.push(collection)?;
    Ok(())
}

/// The collections that have a row, in the order of the rows.
pub(crate) fn readable_collections(
    alloc: Global,
    rows: &[KeptRow],
) -> Result<Vec<Collection>, AllocError>
    requires { IsRising rows.now }
    ensures { IfOk result (λ collections. AreReadable rows.now collections.items) }
{
    let mut collections = Vec::new(alloc);
    for row in rows {
        add_collection(alloc, &mut collections, row)?;
    }
    Ok(collections)
}

fn are_few(fields: &[Field]) -> bool
    ensures { MatchBool result (length fields.now ≤ 64) (64 < length fields.now) }
{
    fields.len() <= MOST_FIELDS
}

/// Whether a collection may stand among the others.
fn fits_among(
    alloc: Global,
    rows: &[KeptRow],
    collections: &[Collection],
    collection: &Collection,
) -> Result<bool, AllocError>
    requires { IsRising rows.now }
    ensures { IfOk result (λ good. MatchBool good (FitsAmong rows.now collections.now collection.now) (¬ FitsAmong rows.now collections.now collection.now)) }
{
    let few = are_few(collection.fields.as_slice());
    let lead = all_lead_to_kept(alloc, rows, collection.fields.as_slice())?;
    let resolve = rules_resolve(alloc, collections, collection)?;
    Ok(few && lead && resolve)
}

/// Whether the row is that of a collection that may stand there.
pub(crate) fn is_good_collection(
    alloc: Global,
    rows: &[KeptRow],
    collections: &[Collection],
    row: &KeptRow,
) -> Result<bool, AllocError>
    requires { IsRising rows.now }
    ensures { IfOk result (λ good. MatchBool good (IsCollectionRow rows.now collections.now row.now) (¬ IsCollectionRow rows.now collections.now row.now)) }
{
    let Some(collection) = collection_of_row(alloc, row)? else {
        return Ok(false);
    };
    fits_among(alloc, rows, collections, &collection)
}
