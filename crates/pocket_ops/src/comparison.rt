ghost use Rattle.std.specs.Prelude.{◌≡◌, ◌↔◌, IsTrue};
ghost use Rattle.pocket_ops.specs.Comparison.{compare_values, or_empty, order_of};

use crate::likeness::like;
use pocket_types::{Op, Value};
use std::cmp::Ordering;

/// How two values of one kind stand to each other. None where they are of different kinds.
fn order_of(a: &Value, b: &Value) -> Option<Ordering>
    ensures { result ≡ order_of (or_empty a.now) (or_empty b.now) }
{
    match (a, b) {
        (Value::Nothing, Value::Nothing) => Some(Ordering::Equal),
        (Value::Nothing, Value::Text(b)) => Some("".cmp(b.as_str())),
        (Value::Text(a), Value::Nothing) => Some(a.as_str().cmp("")),
        (Value::Num(a), Value::Num(b)) => Some(a.cmp(b)),
        (Value::Flag(a), Value::Flag(b)) => Some(a.cmp(b)),
        (Value::Text(a), Value::Text(b)) => Some(a.cmp(b)),
        _ => None,
    }
}

/// Whether two values compare true. Nothing compares as the empty text.
///
/// Values of different kinds are neither equal nor ordered, so only `!=` is true of them; `~` and `!~` take numbers
/// and flags as their texts.
pub fn compare(op: Op, a: &Value, b: &Value) -> bool
    ensures value { result ≡ compare_values op a.now b.now }
    ensures equal { op ≡ Op.Eq → (IsTrue result ↔ (or_empty a.now ≡ or_empty b.now)) }
{
    let order = order_of(a, b);
    match op {
        Op::Eq => order.is_some_and(Ordering::is_eq),
        Op::Ne => !order.is_some_and(Ordering::is_eq),
        Op::Lt => order.is_some_and(Ordering::is_lt),
        Op::Gt => order.is_some_and(Ordering::is_gt),
        Op::Le => order.is_some_and(Ordering::is_le),
        Op::Ge => order.is_some_and(Ordering::is_ge),
        Op::Like => like(a, b),
        Op::Unlike => !like(a, b),
    }
}
