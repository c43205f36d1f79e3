ghost use Rattle.std.specs.Prelude.{◌≡◌, ◌<◌, ◌^◌, IfOk, length};
ghost use Rattle.pocket_types.specs.Json.{printed};
ghost use Rattle.pocket_types.specs.declared.values.Value.TheVariants as value;
ghost use Rattle.pocket_ops.specs.Cells.{items_of, items_value, date_value, tree_value, cell_value, count_value, lowered};

use crate::items::Item;
use crate::trees::{moment_text, texts_jv};
use pocket_types::{Cell, Field, Id, Jv, Moment, Text, Value};
use std::alloc::{AllocError, Global};

fn text_value(alloc: Global, text: &str) -> Result<Value, AllocError>
    ensures { IfOk result (λ v. v ≡ value.Text text.now) }
{
    Ok(Value::Text(Text::from_str(alloc, text)?))
}

fn date_value(alloc: Global, date: &Option<Moment>) -> Result<Value, AllocError>
    ensures { IfOk result (λ v. v ≡ date_value date.now) }
{
    match date {
        None => text_value(alloc, ""),
        Some(moment) => Ok(Value::Text(moment_text(alloc, *moment)?)),
    }
}

fn items_value<T: Item>(alloc: Global, several: bool, items: &[T]) -> Result<Value, AllocError>
    ensures { IfOk result (λ v. v ≡ items_value several (T.texts items.now)) }
{
    match items {
        [] => Ok(Value::Nothing),
        _ if several => Ok(Value::Text(texts_jv(alloc, items)?.print(alloc)?)),
        [first, ..] => text_value(alloc, first.as_str()),
    }
}

fn tree_value(alloc: Global, tree: &Jv) -> Result<Value, AllocError>
    ensures { IfOk result (λ v. v ≡ tree_value tree.now) }
{
    match tree {
        Jv::Null => Ok(Value::Nothing),
        Jv::Flag(flag) => Ok(Value::Flag(*flag)),
        Jv::Num(n) => Ok(Value::Num(*n)),
        Jv::Text(text) => text_value(alloc, text.as_str()),
        Jv::List(_) | Jv::Map(_) => Ok(Value::Text(tree.print(alloc)?)),
    }
}

/// The value of a field's cell.
///
/// Of a select or a relation that may hold one item it is that item's text, of one that may hold several the compact
/// JSON list of them, and nothing where there is no item. A list or a map of JSON is its compact text.
pub fn cell_value(alloc: Global, field: &Field, cell: &Cell) -> Result<Value, AllocError>
    ensures { IfOk result (λ v. v ≡ cell_value field.now cell.now) }
{
    match cell {
        Cell::Text(text) => text_value(alloc, text.as_str()),
        Cell::Num(n) => Ok(Value::Num(*n)),
        Cell::Flag(flag) => Ok(Value::Flag(*flag)),
        Cell::Date(date) => date_value(alloc, date),
        Cell::Picks(picks) => items_value(alloc, field.kind.is_multiple(), picks.as_slice()),
        Cell::Json(tree) => tree_value(alloc, tree),
        Cell::Refs(ids) => items_value(alloc, field.kind.is_multiple(), ids.as_slice()),
    }
}

/// How many items a cell holds.
pub fn item_count(cell: &Cell) -> usize
    ensures count { result ≡ length (items_of cell.now) }
    ensures small { result < 2 ^ 63 }
{
    match cell {
        Cell::Picks(picks) => picks_count(picks.as_slice()),
        Cell::Refs(ids) => ids_count(ids.as_slice()),
        _ => 0,
    }
}

fn picks_count(picks: &[Text]) -> usize
    ensures count { result ≡ length picks.now }
    ensures small { result < 2 ^ 63 }
{
    picks.len()
}

fn ids_count(ids: &[Id]) -> usize
    ensures count { result ≡ length ids.now }
    ensures small { result < 2 ^ 63 }
{
    ids.len()
}

/// How many items a cell holds, as a value.
pub fn count_value(cell: &Cell) -> Value
    ensures { result ≡ count_value cell.now }
{
    Value::Num(item_count(cell) as i64)
}

/// A value with A to Z of its text as a to z.
pub fn lowered_value(alloc: Global, value: Value) -> Result<Value, AllocError>
    ensures { IfOk result (λ v. v ≡ lowered value) }
{
    match value {
        Value::Text(text) => Ok(Value::Text(Text::from_string(
            text.as_str().to_ascii_lowercase(alloc)?,
        ))),
        other => Ok(other),
    }
}
