// Copies of filters: the same values.
ghost use Rattle.std.specs.Prelude.{◌≡◌, IfOk, IsOkAnd};
ghost use Rattle.pocket_types.specs.declared.resolved.Leaf.TheVariants as leaf;
ghost use Rattle.pocket_types.specs.declared.resolved.Resolved.TheVariants as made;

use pocket_types::{
    Boxed, Leaf, Modifier, Name, Op, Prefix, Resolved, Seq, Text, copied, copied_items,
};
use std::alloc::{AllocError, Global};

fn copied_prefix(alloc: Global, prefix: &Prefix) -> Result<Prefix, AllocError>
    ensures { IfOk result (λ copy. copy ≡ prefix.now) }
{
    let steps = Seq::from_vec(copied_items(alloc, prefix.steps.as_slice())?);
    Ok(Prefix {
        root: copied(&prefix.root)?,
        steps,
    })
}

/// The copy of a field of a prefix.
fn copied_of(
    alloc: Global,
    prefix: &Prefix,
    field: &Name,
    modifier: Modifier,
) -> Result<Leaf, AllocError>
    ensures { IfOk result (λ copy. copy ≡ leaf.Of prefix.now field.now modifier) }
{
    let field = copied(field)?;
    Ok(Leaf::Of {
        prefix: copied_prefix(alloc, prefix)?,
        field,
        modifier,
    })
}

fn copied_leaf(alloc: Global, side: &Leaf) -> Result<Leaf, AllocError>
    ensures { IfOk result (λ copy. copy ≡ side.now) }
{
    match side {
        Leaf::Fixed(value) => Ok(Leaf::Fixed(copied(value)?)),
        Leaf::Of {
            prefix,
            field,
            modifier,
        } => copied_of(alloc, prefix, field, *modifier),
        Leaf::ItemOf(prefix) => Ok(Leaf::ItemOf(copied_prefix(alloc, prefix)?)),
        Leaf::Context => Ok(Leaf::Context),
        Leaf::Method => Ok(Leaf::Method),
        Leaf::Header(name, modifier) => Ok(Leaf::Header(copied(name)?, *modifier)),
        Leaf::Query(name, modifier) => Ok(Leaf::Query(copied(name)?, *modifier)),
        Leaf::Body(field, modifier) => Ok(Leaf::Body(copied(field)?, *modifier)),
        Leaf::Macro(which) => Ok(Leaf::Macro(*which)),
    }
}

fn copied_test(
    alloc: Global,
    left: &Leaf,
    any: bool,
    op: Op,
    right: &Leaf,
) -> Result<Resolved, AllocError>
    ensures { IfOk result (λ copy. copy ≡ made.Test left.now any op right.now) }
{
    let left = copied_leaf(alloc, left)?;
    Ok(Resolved::Test {
        left,
        any,
        op,
        right: copied_leaf(alloc, right)?,
    })
}

/// Both filters, where the second one is there.
fn both(alloc: Global, a: Resolved, b: Result<Resolved, AllocError>) -> Result<Resolved, AllocError>
    ensures { IfOk result (λ copy. IsOkAnd b (λ b. copy ≡ made.And a b)) }
{
    let a = Boxed::new(alloc, a)?;
    let b = Boxed::new(alloc, b?)?;
    Ok(Resolved::And(a, b))
}

/// One of the filters, where the second one is there.
fn either(
    alloc: Global,
    a: Resolved,
    b: Result<Resolved, AllocError>,
) -> Result<Resolved, AllocError>
    ensures { IfOk result (λ copy. IsOkAnd b (λ b. copy ≡ made.Or a b)) }
{
    let a = Boxed::new(alloc, a)?;
    let b = Boxed::new(alloc, b?)?;
    Ok(Resolved::Or(a, b))
}

/// A filter once more.
pub fn copied_filter(alloc: Global, filter: &Resolved) -> Result<Resolved, AllocError>
    ensures { IfOk result (λ copy. copy ≡ filter.now) }
{
    match filter {
        Resolved::Test {
            left,
            any,
            op,
            right,
        } => copied_test(alloc, left, *any, *op, right),
        Resolved::And(a, b) => {
            let first = copied_filter(alloc, a.get())?;
            both(alloc, first, copied_filter(alloc, b.get()))
        }
        Resolved::Or(a, b) => {
            let first = copied_filter(alloc, a.get())?;
            either(alloc, first, copied_filter(alloc, b.get()))
        }
    }
}
