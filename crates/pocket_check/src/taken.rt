// The cases that other records decide.
ghost use Rattle.std.specs.Prelude.{◌≡◌, ◌+◌, ◌≤◌, IfOk, Some, is_none, not};
ghost use Rattle.std.specs.List.{list_any};
ghost use Rattle.std.specs.Str.{bytes_eq};
ghost use Rattle.pocket_tables.specs.Reads.{IsSingle, matching};
ghost use Rattle.pocket_tables.specs.Worlds.{IsTabled, collection_at, rec_at};
ghost use Rattle.pocket_check.specs.Validity.{is_missing, is_taken};

use pocket_ops::cell_value;
use pocket_tables::Tables;
use pocket_types::{Cell, Collection, Field, Id, Kind, Name, Rec, Steps, Value};
use std::alloc::{AllocError, Global};
use std::sync::ledger::Ledger;

/// Whether the record of one of these ids isn't there.
fn lacks_any<L: Ledger>(tables: &Tables, target: &Name, ids: &[Id], steps: &mut Steps<L>) -> bool
    ensures missing { result ≡ list_any (λ id. is_none (rec_at tables.now.world target.now id)) ids.now }
    ensures steps { steps.old ≤ steps.new }
{
    for id in ids {
        if tables.rec(target, *id, steps).is_none() {
            return true;
        }
    }
    false
}

/// Whether a relation's record isn't there.
pub(crate) fn is_missing<L: Ledger>(
    tables: &Tables,
    kind: &Kind,
    cell: &Cell,
    steps: &mut Steps<L>,
) -> bool
    ensures missing { result ≡ is_missing tables.now.world kind.now cell.now }
    ensures steps { steps.old ≤ steps.new }
{
    match (kind, cell) {
        (Kind::Relation { target, .. }, Cell::Refs(ids)) => {
            lacks_any(tables, target, ids.as_slice(), steps)
        }
        _ => false,
    }
}

/// Whether another record than that of this id has a value, by two look-ups at most.
fn has_another<L: Ledger>(
    tables: &Tables,
    collection: &Collection,
    field: &Name,
    value: &Value,
    id: Id,
    steps: &mut Steps<L>,
) -> bool
    requires tabled { IsTabled tables.now.world }
    requires there { collection_at tables.now.world collection.now.name ≡ Some collection.now }
    requires single { IsSingle collection.now field.now }
    ensures another { result ≡ list_any (λ other. not (bytes_eq other.id id)) (matching tables.now.world collection.now.name field.now value.now) }
    ensures steps { steps.old ≤ steps.new }
    ensures few { steps.new ≤ steps.old + 2 }
{
    let name = &collection.name;
    let Some(first) = tables.match_after(name, field, value, None, steps) else {
        return false;
    };
    if first.id != id {
        return true;
    }
    tables
        .match_after(name, field, value, Some(id), steps)
        .is_some()
}

/// Whether another record of the collection has the field's value, by two look-ups at most.
pub(crate) fn is_taken<L: Ledger>(
    alloc: Global,
    tables: &Tables,
    collection: &Collection,
    rec: &Rec,
    field: &Field,
    cell: &Cell,
    steps: &mut Steps<L>,
) -> Result<bool, AllocError>
    requires there { collection_at tables.now.world collection.now.name ≡ Some collection.now }
    requires single { IsSingle collection.now field.now.name }
    ensures taken { IfOk result (λ taken. taken ≡ is_taken tables.now.world collection.now rec.now field.now cell.now) }
    ensures steps { steps.old ≤ steps.new }
    ensures few { steps.new ≤ steps.old + 2 }
{
    let _collections = tables.collections();
    let value = cell_value(alloc, field, cell)?;
    let taken = has_another(tables, collection, &field.name, &value, rec.id, steps);
    drop(value);
    Ok(taken)
}
