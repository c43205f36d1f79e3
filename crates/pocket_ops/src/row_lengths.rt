// The length of a record's row text.
ghost use Rattle.std.specs.Prelude.{◌≡◌, length, MatchBool};
ghost use Rattle.std.specs.List.{list_all, list_any};
ghost use Rattle.std.specs.Str.{bytes_eq};
ghost use Rattle.pocket_types.specs.Json.{printed};
ghost use Rattle.pocket_ops.specs.Dates.{date_text};
ghost use Rattle.pocket_ops.specs.Lengths.{held, row_len, is_undated, AreApart, HasOwnNames};
ghost use Rattle.pocket_types.specs.Maps.{map_jv};
ghost use Rattle.pocket_ops.specs.Trees.{text_jv, date_jv, items_jv, cell_jv, date_members};

use crate::date_texts::{as_text, date_text};
use crate::items::Item;
use crate::lengths::{member_len, num_len, text_len, texts_len, tree_len};
use pocket_types::{Cell, Collection, Field, Kind, Moment, Rec};

/// The length of a moment's text and its quotes.
fn moment_len(moment: &Moment) -> u64
    ensures { result ≡ held (length (printed (text_jv (date_text moment.now)))) }
{
    let bytes = date_text(*moment);
    text_len(as_text(&bytes))
}

fn date_len(date: &Option<Moment>) -> u64
    ensures { result ≡ held (length (printed (date_jv date.now))) }
{
    match date {
        None => 2,
        Some(moment) => moment_len(moment),
    }
}

/// The length of the map of both dates.
fn dates_len(rec: &Rec) -> u64
    ensures { result ≡ held (length (printed (map_jv (date_members rec.now)))) }
{
    let created = member_len("created", moment_len(&rec.created));
    let updated = member_len("updated", moment_len(&rec.updated));
    created.saturating_add(updated).saturating_add(3)
}

fn items_len<T: Item>(most: u32, items: &[T]) -> u64
    ensures { result ≡ held (length (printed (items_jv most (T.texts items.now)))) }
{
    if most > 1 {
        return texts_len(items);
    }
    match items {
        [] => 2,
        [first, ..] => text_len(first.as_str()),
    }
}

/// The length of a cell's text.
fn cell_len(kind: &Kind, cell: &Cell) -> u64
    ensures { result ≡ held (length (printed (cell_jv kind.now cell.now))) }
{
    match cell {
        Cell::Text(text) => text_len(text.as_str()),
        Cell::Num(n) => num_len(*n),
        Cell::Flag(true) => 4,
        Cell::Flag(false) => 5,
        Cell::Date(date) => date_len(date),
        Cell::Picks(picks) => items_len(kind.most(), picks.as_slice()),
        Cell::Json(tree) => tree_len(tree),
        Cell::Refs(ids) => items_len(kind.most(), ids.as_slice()),
    }
}

/// Whether no field's name is that of a later field.
fn are_apart(fields: &[Field]) -> bool
    ensures { MatchBool result (AreApart fields.now) (¬ AreApart fields.now) }
{
    let Some((first, rest)) = fields.split_first() else {
        return true;
    };
    let named = has_name(rest, first.name.as_str());
    let apart = are_apart(rest);
    !named && apart
}

fn has_name(fields: &[Field], name: &str) -> bool
    ensures { result ≡ list_any (λ f. bytes_eq f.name name.now) fields.now }
{
    fields.iter().any(|field| field.name.as_str() == name)
}

fn is_undated(field: &Field) -> bool
    ensures { result ≡ is_undated field.now }
{
    let created = field.name.as_str() == "created";
    let updated = field.name.as_str() == "updated";
    !created && !updated
}

fn are_undated(fields: &[Field]) -> bool
    ensures { result ≡ list_all is_undated fields.now }
{
    fields.iter().all(|field| is_undated(field))
}

/// Whether no two members of a record's row have one name: a collection's fields have different names, and none is
/// `created` or `updated`. So it is with every sound collection.
pub fn has_own_names(collection: &Collection) -> bool
    ensures { MatchBool result (HasOwnNames collection.now) (¬ HasOwnNames collection.now) }
{
    let fields = collection.fields.as_slice();
    let apart = are_apart(fields);
    let undated = are_undated(fields);
    apart && undated
}

/// The number of bytes of a record's row text, held at 2^64 - 1. The text isn't made.
pub fn row_len(collection: &Collection, rec: &Rec) -> u64
    requires { HasOwnNames collection.now }
    ensures { result ≡ held (row_len collection.now rec.now) }
{
    let fields = collection.fields.as_slice();
    let mut len = dates_len(rec);
    for (field, cell) in fields.iter().zip(rec.cells.as_slice()) {
        let value = cell_len(&field.kind, cell);
        len = len.saturating_add(member_len(field.name.as_str(), value));
        len = len.saturating_add(1);
    }
    len
}
