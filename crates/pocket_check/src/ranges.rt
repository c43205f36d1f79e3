// The cases that a field and its cell decide alone.
ghost use Rattle.std.specs.Prelude.{◌≡◌, IfOk, length, nat_lt};
ghost use Rattle.std.specs.List.{list_all, list_any};
ghost use Rattle.std.specs.Str.{bytes_eq, chars};
ghost use Rattle.pocket_types.specs.Json.{printed};
ghost use Rattle.pocket_check.specs.Validity.{above, below, is_above, is_below, is_over, is_too_big, is_unknown, is_zero_cell};

use pocket_types::{Cell, Jv, Kind, Moment, NUMBER_END, Text};
use std::alloc::{AllocError, Global};

/// Whether a cell is the zero value of its field.
pub(crate) fn is_zero_cell(cell: &Cell) -> bool
    ensures { result ≡ is_zero_cell cell.now }
{
    match cell {
        Cell::Text(text) => text.is_empty(),
        Cell::Num(n) => *n == 0,
        Cell::Flag(flag) => !*flag,
        Cell::Date(date) => date.is_none(),
        Cell::Picks(items) => items.is_empty(),
        Cell::Json(tree) => matches!(tree, Jv::Null),
        Cell::Refs(ids) => ids.is_empty(),
    }
}

/// Whether a cell is a number over 2^53 - 1 in size.
pub(crate) fn is_over(cell: &Cell) -> bool
    ensures { result ≡ is_over cell.now }
{
    match cell {
        Cell::Num(n) => n.unsigned_abs() >= NUMBER_END,
        _ => false,
    }
}

/// The number of characters of a text.
fn char_count(text: &str) -> usize
    ensures { result ≡ length (chars text.now) }
{
    text.chars().count()
}

fn below(bound: Option<i64>, n: i64) -> bool
    ensures { result ≡ below bound n }
{
    match bound {
        Some(low) => n < low,
        None => false,
    }
}

fn above(bound: Option<i64>, n: i64) -> bool
    ensures { result ≡ above bound n }
{
    match bound {
        Some(high) => n > high,
        None => false,
    }
}

fn is_early(bound: Option<Moment>, moment: Moment) -> bool
    ensures { result ≡ below bound moment }
{
    match bound {
        Some(first) => moment.millis() < first.millis(),
        None => false,
    }
}

fn is_late(bound: Option<Moment>, moment: Moment) -> bool
    ensures { result ≡ above bound moment }
{
    match bound {
        Some(last) => moment.millis() > last.millis(),
        None => false,
    }
}

/// Whether a cell is below its field's bound: a text in characters, a date as a moment.
pub(crate) fn is_below(kind: &Kind, cell: &Cell) -> bool
    ensures { result ≡ is_below kind.now cell.now }
{
    match (kind, cell) {
        (Kind::Text { min, .. }, Cell::Text(text)) => char_count(text.as_str()) < *min as usize,
        (Kind::Number { min, .. }, Cell::Num(n)) => below(*min, *n),
        (Kind::Date { min, .. }, Cell::Date(Some(moment))) => is_early(*min, *moment),
        _ => false,
    }
}

/// Whether a cell is above its field's bound.
pub(crate) fn is_above(kind: &Kind, cell: &Cell) -> bool
    ensures { result ≡ is_above kind.now cell.now }
{
    match (kind, cell) {
        (Kind::Text { max, .. }, Cell::Text(text)) => char_count(text.as_str()) > *max as usize,
        (Kind::Number { max, .. }, Cell::Num(n)) => above(*max, *n),
        (Kind::Date { max, .. }, Cell::Date(Some(moment))) => is_late(*max, *moment),
        _ => false,
    }
}

/// Whether a tree's compact text has more bytes than these.
fn is_longer(alloc: Global, tree: &Jv, max: u32) -> Result<bool, AllocError>
    ensures { IfOk result (λ longer. longer ≡ nat_lt max (length (printed tree.now))) }
{
    let text = tree.print(alloc)?;
    Ok(text.len() > max as usize)
}

/// Whether a cell is JSON over its field's size, or holds more items than may stand there.
pub(crate) fn is_too_big(alloc: Global, kind: &Kind, cell: &Cell) -> Result<bool, AllocError>
    ensures { IfOk result (λ big. big ≡ is_too_big kind.now cell.now) }
{
    match (kind, cell) {
        (Kind::Json { max }, Cell::Json(tree)) => is_longer(alloc, tree, *max),
        (Kind::Select { most, .. }, Cell::Picks(items)) => Ok(items.len() > *most as usize),
        (Kind::Relation { most, .. }, Cell::Refs(ids)) => Ok(ids.len() > *most as usize),
        _ => Ok(false),
    }
}

fn is_among(values: &[Text], item: &Text) -> bool
    ensures { result ≡ list_any (bytes_eq item.now) values.now }
{
    values.iter().any(|value| *item == *value)
}

fn are_among(values: &[Text], items: &[Text]) -> bool
    ensures { result ≡ list_all (λ x. list_any (bytes_eq x) values.now) items.now }
{
    items.iter().all(|item| is_among(values, item))
}

/// Whether a cell holds an item that isn't one of its select's values.
pub(crate) fn is_unknown(kind: &Kind, cell: &Cell) -> bool
    ensures { result ≡ is_unknown kind.now cell.now }
{
    match (kind, cell) {
        (Kind::Select { values, .. }, Cell::Picks(items)) => {
            !are_among(values.as_slice(), items.as_slice())
        }
        _ => false,
    }
}
