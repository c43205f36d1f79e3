// The keys of a field, and what they make of its cell.
ghost use Rattle.std.specs.Prelude.{◌≡◌, ◌++◌, IfOk};
ghost use Rattle.std.specs.String.{string_bytes};
ghost use Rattle.pocket_types.specs.declared.records.Cell.TheVariants as cell;
ghost use Rattle.pocket_check.specs.Bodies.{cell_changed, has_key, is_number, items_changed, key_of};
ghost use Rattle.pocket_check.specs.Changes.{IsWithin};

use crate::change::Change;
use crate::items::{items_without, joined};
use pocket_ops::Item;
use pocket_types::{Cell, Faithful, Kind, Seq};
use std::alloc::{AllocError, Global};

fn is_number(kind: &Kind) -> bool
    ensures { result ≡ is_number kind.now }
{
    matches!(kind, Kind::Number { .. })
}

/// Whether a field of this kind has a key for the change.
pub fn has_key(kind: &Kind, change: Change) -> bool
    ensures { result ≡ has_key kind.now change }
{
    match change {
        Change::Becomes => true,
        Change::Before => kind.is_multiple(),
        Change::Behind | Change::Without => {
            let number = is_number(kind);
            kind.is_multiple() || number
        }
    }
}

fn spelled(alloc: Global, front: &str, name: &str, end: &str) -> Result<String, AllocError>
    ensures { IfOk result (λ key. string_bytes key ≡ front.now ++ name.now ++ end.now) }
{
    let mut key = String::from_str(alloc, front)?;
    key.push_str(name)?;
    key.push_str(end)?;
    Ok(key)
}

/// The key of a change, by the field's name.
pub fn key_of(alloc: Global, name: &str, change: Change) -> Result<String, AllocError>
    ensures { IfOk result (λ key. string_bytes key ≡ key_of name.now change) }
{
    match change {
        Change::Becomes => spelled(alloc, "", name, ""),
        Change::Before => spelled(alloc, "+", name, ""),
        Change::Behind => spelled(alloc, "", name, "+"),
        Change::Without => spelled(alloc, "", name, "-"),
    }
}

/// A number after a change by the one given.
fn number_changed(change: Change, old: i64, given: i64) -> i64
    requires old { IsWithin 4 (cell.Num old) }
    requires given { IsWithin 1 (cell.Num given) }
    ensures { cell.Num result ≡ cell_changed change (cell.Num old) (cell.Num given) }
{
    match change {
        Change::Becomes | Change::Before => given,
        Change::Behind => old + given,
        Change::Without => old - given,
    }
}

/// Items after a change by those given.
fn items_changed<T: Item + Faithful>(
    alloc: Global,
    change: Change,
    old: &[T],
    given: Seq<T>,
) -> Result<Seq<T>, AllocError>
    ensures { IfOk result (λ items. T.texts items ≡ items_changed change (T.texts old.now) (T.texts given)) }
{
    match change {
        Change::Becomes => Ok(given),
        Change::Before => joined(alloc, given.as_slice(), old),
        Change::Behind => joined(alloc, old, given.as_slice()),
        Change::Without => items_without(alloc, old, given.as_slice()),
    }
}

/// A cell after a change by the one given.
pub fn cell_changed(
    alloc: Global,
    change: Change,
    old: &Cell,
    given: Cell,
) -> Result<Cell, AllocError>
    requires old { IsWithin 4 old.now }
    requires given { IsWithin 1 given }
    ensures { IfOk result (λ cell. cell ≡ cell_changed change old.now given) }
{
    match (old, given) {
        (Cell::Num(old), Cell::Num(given)) => Ok(Cell::Num(number_changed(change, *old, given))),
        (Cell::Picks(old), Cell::Picks(given)) => {
            Ok(Cell::Picks(items_changed(alloc, change, old.as_slice(), given)?))
        }
        (Cell::Refs(old), Cell::Refs(given)) => {
            Ok(Cell::Refs(items_changed(alloc, change, old.as_slice(), given)?))
        }
        (_, given) => Ok(given),
    }
}
