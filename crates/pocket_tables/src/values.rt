// Whether the value of a record's field compares equal to another value, told without making the first one.
ghost use Rattle.std.specs.Prelude.{◌≡◌, false};
ghost use Rattle.std.specs.Option.{option_map_or};
ghost use Rattle.pocket_types.specs.Json.{printed};
ghost use Rattle.pocket_types.specs.Kinds.{is_multiple};
ghost use Rattle.pocket_types.specs.declared.expr.Op.TheVariants as op;
ghost use Rattle.pocket_types.specs.declared.values.Value.TheVariants as value;
ghost use Rattle.pocket_ops.specs.Cells.{cell_value, date_value, items_value, tree_value};
ghost use Rattle.pocket_ops.specs.Comparison.{compare_values};
ghost use Rattle.pocket_ops.specs.Dates.{date_text as text_of_moment};
ghost use Rattle.pocket_ops.specs.Fields.{field_at};
ghost use Rattle.pocket_tables.specs.Reads.{IsSingle, has_value};

use crate::fronts::is_text_of;
use pocket_ops::{compare, date_text, field_of};
use pocket_types::{Cell, Collection, Field, Id, Jv, Moment, Name, Op, Rec, Text, Value};

/// Whether a text compares equal to a value. Nothing is equal to the empty text.
fn text_equals(text: &str, other: &Value) -> bool
    ensures { result ≡ compare_values op.Eq (value.Text text.now) other.now }
{
    match other {
        Value::Nothing => text.is_empty(),
        Value::Text(other) => text == other.as_str(),
        Value::Num(_) | Value::Flag(_) => false,
    }
}

fn moment_equals(moment: Moment, other: &Value) -> bool
    ensures { result ≡ compare_values op.Eq (value.Text (text_of_moment moment)) other.now }
{
    match str::from_utf8(&date_text(moment)) {
        Ok(text) => text_equals(text, other),
        Err(_) => unreachable!(),
    }
}

fn date_equals(date: &Option<Moment>, other: &Value) -> bool
    ensures { result ≡ compare_values op.Eq (date_value date.now) other.now }
{
    match date {
        None => text_equals("", other),
        Some(moment) => moment_equals(*moment, other),
    }
}

fn pick_equals(picks: &[Text], other: &Value) -> bool
    ensures { result ≡ compare_values op.Eq (items_value false picks.now) other.now }
{
    match picks {
        [] => compare(Op::Eq, &Value::Nothing, other),
        [first, ..] => text_equals(first.as_str(), other),
    }
}

fn ref_equals(ids: &[Id], other: &Value) -> bool
    ensures { result ≡ compare_values op.Eq (items_value false ids.now) other.now }
{
    match ids {
        [] => compare(Op::Eq, &Value::Nothing, other),
        [first, ..] => text_equals(first.as_str(), other),
    }
}

/// Whether the compact text of a tree compares equal to a value.
fn print_equals(tree: &Jv, other: &Value) -> bool
    ensures { result ≡ compare_values op.Eq (value.Text (printed tree.now)) other.now }
{
    match other {
        Value::Nothing => is_text_of(b"", tree),
        Value::Text(other) => is_text_of(other.as_str().as_bytes(), tree),
        Value::Num(_) | Value::Flag(_) => false,
    }
}

fn tree_equals(tree: &Jv, other: &Value) -> bool
    ensures { result ≡ compare_values op.Eq (tree_value tree.now) other.now }
{
    match tree {
        Jv::Null => compare(Op::Eq, &Value::Nothing, other),
        Jv::Flag(flag) => compare(Op::Eq, &Value::Flag(*flag), other),
        Jv::Num(n) => compare(Op::Eq, &Value::Num(*n), other),
        Jv::Text(text) => text_equals(text.as_str(), other),
        Jv::List(_) | Jv::Map(_) => print_equals(tree, other),
    }
}

/// Whether a cell of a field that holds one item at most compares equal to a value.
fn cell_equals(field: &Field, cell: &Cell, other: &Value) -> bool
    requires { is_multiple field.now.kind ≡ false }
    ensures { result ≡ compare_values op.Eq (cell_value field.now cell.now) other.now }
{
    match cell {
        Cell::Text(text) => text_equals(text.as_str(), other),
        Cell::Num(n) => compare(Op::Eq, &Value::Num(*n), other),
        Cell::Flag(flag) => compare(Op::Eq, &Value::Flag(*flag), other),
        Cell::Date(date) => date_equals(date, other),
        Cell::Picks(picks) => pick_equals(picks.as_slice(), other),
        Cell::Json(tree) => tree_equals(tree, other),
        Cell::Refs(ids) => ref_equals(ids.as_slice(), other),
    }
}

/// Whether a field of a record's own compares equal to a value.
fn own_equals(collection: &Collection, field: &Name, other: &Value, rec: &Rec) -> bool
    requires { IsSingle collection.now field.now }
    ensures { result ≡ compare_values op.Eq (option_map_or (λ x. cell_value x.0 x.1) (field_at collection.now rec.now field.now) value.Nothing) other.now }
{
    match field_of(collection, rec, field) {
        Some((field, cell)) => cell_equals(field, cell, other),
        None => compare(Op::Eq, &Value::Nothing, other),
    }
}

/// Whether a record's field compares equal to a value.
pub(crate) fn equals_at(collection: &Collection, field: &Name, other: &Value, rec: &Rec) -> bool
    requires { IsSingle collection.now field.now }
    ensures { result ≡ has_value collection.now field.now other.now rec.now }
{
    match field.as_str() {
        "id" => text_equals(rec.id.as_str(), other),
        "created" => moment_equals(rec.created, other),
        "updated" => moment_equals(rec.updated, other),
        "collectionName" => text_equals(collection.name.as_str(), other),
        _ => own_equals(collection, field, other, rec),
    }
}
