// Copies and comparisons that contracts can rely on.
ghost use Rattle.std.specs.Prelude.{◌≡◌, ◌↔◌, IfOk, IsTrue};
ghost use Rattle.std.specs.Bool.{Decides};

use std::alloc::{AllocError, Global};

/// Types whose `clone` gives the same value.
pub trait Faithful: Clone {
    ghost clone_is_same: { (a b : Self) → Self.is_clone a b → b ≡ a };
}

/// Types whose `==` tells whether two values are the same.
pub trait Exact: PartialEq {
    ghost eq_is_same: { (a b : Self) → Decides (Self.eq a b) (a ≡ b) };
}

/// A copy, the same value.
pub fn copied<T: Faithful>(value: &T) -> Result<T, AllocError>
    ensures { IfOk result (λ copy. copy ≡ value.now) }
{
    value.clone()
}

/// A copy of each item, the same values.
pub fn copied_items<T: Faithful>(alloc: Global, items: &[T]) -> Result<Vec<T>, AllocError>
    ensures { IfOk result (λ copies. copies.items ≡ items.now) }
{
    Vec::from_clones(alloc, items)
}

/// Whether the two are the same value.
pub fn is_same<T: Exact>(a: &T, b: &T) -> bool
    ensures { IsTrue result ↔ (a.now ≡ b.now) }
{
    a == b
}
