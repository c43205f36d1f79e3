// Whole filters.
ghost use Rattle.std.specs.Prelude.{◌≡◌, ◌+◌, Ok};
ghost use Rattle.pocket_types.specs.declared.resolved.Resolved.TheVariants as made;
ghost use Rattle.pocket_resolve.specs.Answers.{made_of, Gives, GivesAs};
ghost use Rattle.pocket_resolve.specs.Filters.{home_of, is_guarded, setting, test_from, filter_from};
ghost use Rattle.pocket_resolve.specs.Roots as roots;

use crate::answers::with;
use crate::paths::side;
use crate::places::Setting;
use crate::purpose::Purpose;
use pocket_types::{Boxed, Collection, Expr, Leaf, Name, Op, Operand, ResolveFault, Resolved};
use std::alloc::Global;

fn home(purpose: &Purpose) -> &Name
    ensures { result.now ≡ home_of purpose.now }
{
    match purpose {
        Purpose::RuleOf(home) => home,
        Purpose::ClientOf { home, .. } => home,
    }
}

fn guarded(purpose: &Purpose) -> bool
    ensures { result ≡ is_guarded purpose.now }
{
    match purpose {
        Purpose::RuleOf(_) => false,
        Purpose::ClientOf { admin, .. } => !*admin,
    }
}

/// An operand by its number.
fn side_at(
    alloc: Global,
    collections: &[Collection],
    purpose: &Purpose,
    operand: &Operand,
    number: u32,
    any: bool,
) -> Result<Leaf, ResolveFault>
    ensures { Gives result (roots.side (setting collections.now purpose.now number any) operand.now) }
{
    let setting = Setting {
        collections,
        home: home(purpose),
        guarded: guarded(purpose),
        operand: number,
        any,
    };
    side(alloc, &setting, operand)
}

/// The number behind an operand's. No memory holds 2^32 operands.
fn after(number: u32) -> Result<u32, ResolveFault>
    ensures { Gives result (Ok (number + 1)) }
{
    match number.checked_add(1) {
        Some(next) => Ok(next),
        None => Err(ResolveFault::Memory),
    }
}

/// A comparison whose left side has a number, which becomes that of the next operand.
#[tactic(auto, unfolding(crate::specs::Filters::test_from))]
fn test_at(
    alloc: Global,
    collections: &[Collection],
    purpose: &Purpose,
    left: &Operand,
    any: bool,
    op: Op,
    right: &Operand,
    number: &mut u32,
) -> Result<Resolved, ResolveFault>
    ensures { GivesAs (λ test. (test, number.new)) result (test_from collections.now purpose.now left.now any op right.now number.old) }
{
    let first = *number;
    let second = after(first)?;
    let next = after(second)?;
    let left = side_at(alloc, collections, purpose, left, first, any)?;
    let right = side_at(alloc, collections, purpose, right, second, any);
    let (left, right) = with(left, right)?;
    *number = next;
    Ok(Resolved::Test {
        left,
        any,
        op,
        right,
    })
}

/// Two values in boxes, where the second one is there.
fn boxed<A: Drop>(
    alloc: Global,
    a: A,
    b: Result<A, ResolveFault>,
) -> Result<(Boxed<A>, Boxed<A>), ResolveFault>
    ensures { Gives result (made_of (λ y. (a, y)) b) }
{
    let a = Boxed::new(alloc, a)?;
    let b = Boxed::new(alloc, b?)?;
    Ok((a, b))
}

/// Both filters, where the second one is there.
fn both(
    alloc: Global,
    a: Resolved,
    b: Result<Resolved, ResolveFault>,
) -> Result<Resolved, ResolveFault>
    ensures { Gives result (made_of (made.And a) b) }
{
    let (a, b) = boxed(alloc, a, b)?;
    Ok(Resolved::And(a, b))
}

/// One of the filters, where the second one is there.
fn either(
    alloc: Global,
    a: Resolved,
    b: Result<Resolved, ResolveFault>,
) -> Result<Resolved, ResolveFault>
    ensures { Gives result (made_of (made.Or a) b) }
{
    let (a, b) = boxed(alloc, a, b)?;
    Ok(Resolved::Or(a, b))
}

/// An expression whose first operand has a number, which becomes that of the next operand.
#[tactic(auto, using(crate::proofs::FilterLemmas::from_test, crate::proofs::FilterLemmas::from_and, crate::proofs::FilterLemmas::from_or, crate::proofs::FilterLemmas::and_whole, crate::proofs::FilterLemmas::or_whole))]
pub fn filter_at(
    alloc: Global,
    collections: &[Collection],
    purpose: &Purpose,
    expr: &Expr,
    number: &mut u32,
) -> Result<Resolved, ResolveFault>
    ensures { GivesAs (λ filter. (filter, number.new)) result (filter_from collections.now purpose.now expr.now number.old) }
{
    match expr {
        Expr::Test {
            left,
            any,
            op,
            right,
        } => test_at(alloc, collections, purpose, left, *any, *op, right, number),
        Expr::And(a, b) => {
            let a = filter_at(alloc, collections, purpose, a.get(), number)?;
            let b = filter_at(alloc, collections, purpose, b.get(), number);
            both(alloc, a, b)
        }
        Expr::Or(a, b) => {
            let a = filter_at(alloc, collections, purpose, a.get(), number)?;
            let b = filter_at(alloc, collections, purpose, b.get(), number);
            either(alloc, a, b)
        }
    }
}
