// The order of keys.
ghost use Rattle.std.specs.Prelude.{◌≡◌, ℕ, drop, IfOk, OnOk};
ghost use Rattle.pocket_read.specs.Sorting.{directed, first_value, in_order, key_cmp, stands_before, value_cmp, values_cmp};
ghost use Rattle.pocket_read.specs.Sorting as sorting;

use crate::keys::SortKey;
use crate::terms::SortTerm;
use pocket_types::Value;
use std::alloc::AllocError;
use std::cmp::Ordering;

fn rank(value: &Value) -> u8
    ensures { result ≡ sorting.rank value.now }
{
    match value {
        Value::Nothing => 0,
        Value::Flag(_) => 1,
        Value::Num(_) => 2,
        Value::Text(_) => 3,
    }
}

fn compare(a: &Value, b: &Value) -> Ordering
    ensures { result ≡ value_cmp a.now b.now }
{
    match (a, b) {
        (Value::Flag(a), Value::Flag(b)) => a.cmp(b),
        (Value::Num(a), Value::Num(b)) => a.cmp(b),
        (Value::Text(a), Value::Text(b)) => a.cmp(b),
        _ => rank(a).cmp(&rank(b)),
    }
}

/// The first values; what is wanting is Nothing.
fn compare_first(a: &[Value], b: &[Value]) -> Ordering
    ensures { result ≡ value_cmp (first_value a.now) (first_value b.now) }
{
    match (a, b) {
        ([a, ..], [b, ..]) => compare(a, b),
        ([a, ..], []) => rank(a).cmp(&0),
        ([], [b, ..]) => 0.cmp(&rank(b)),
        ([], []) => Ordering::Equal,
    }
}

fn turned(falling: bool, order: Ordering) -> Ordering
    ensures { result ≡ directed falling order }
{
    if falling { order.reverse() } else { order }
}

fn behind_first(values: &[Value]) -> &[Value]
    ensures { result.now ≡ drop 1 values.now }
{
    match values {
        [] => values,
        [_, rest @ ..] => rest,
    }
}

fn compare_values(terms: &[SortTerm], a: &[Value], b: &[Value]) -> Ordering
    ensures { result ≡ values_cmp terms.now a.now b.now }
{
    match terms {
        [] => Ordering::Equal,
        [term, rest @ ..] => match turned(term.falling, compare_first(a, b)) {
            Ordering::Equal => compare_values(rest, behind_first(a), behind_first(b)),
            order => order,
        },
    }
}

/// By the values of the terms, ties by id.
fn compare_keys(terms: &[SortTerm], a: &SortKey, b: &SortKey) -> Ordering
    ensures { result ≡ key_cmp terms.now a.now b.now }
{
    match compare_values(terms, a.values.as_slice(), b.values.as_slice()) {
        Ordering::Equal => a.id.cmp(&b.id),
        order => order,
    }
}

/// Puts keys into the order of the terms.
pub fn sort_keys(terms: &[SortTerm], keys: &mut Vec<SortKey>) -> Result<(), AllocError>
    ensures { OnOk result (keys.new.items ≡ in_order (stands_before terms.now) keys.old.items) }
{
    keys.sort_by(|a, b| compare_keys(terms, a, b))
}
