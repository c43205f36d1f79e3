ghost use Rattle.std.specs.Prelude.{◌≡◌, IfOk};
ghost use Rattle.std.specs.List.{list_any, list_all};
ghost use Rattle.pocket_meaning.specs.Choices.{chosen, choices_from};
ghost use Rattle.pocket_meaning.specs.Meaning.{test_under, test_always, true_under, true_in, holds};
ghost use Rattle.pocket_meaning.specs.Seen.{choice_of};

use crate::choices::{longer, members_to_choose};
use crate::members::{Chosen, Scene, lent_shelves};
use crate::prefixes::{prefixes_of_any, prefixes_of_test};
use crate::sees::Sees;
use crate::values::value_under;
use pocket_ops::compare;
use pocket_types::{Ask, Leaf, Name, Op, Prefix, Rec, Resolved, World};
use std::alloc::{AllocError, Global};

/// A comparison under a choice.
fn test<S: Sees>(
    alloc: Global,
    scene: &S,
    choice: &[Chosen<'_, '_>],
    left: &Leaf,
    op: Op,
    right: &Leaf,
) -> Result<bool, AllocError>
    ensures { IfOk result (λ b. b ≡ test_under (S.all_seen scene.now) (chosen (choice_of choice.now)) left.now op right.now) }
{
    let left = value_under(alloc, scene, choice, left)?;
    let right = value_under(alloc, scene, choice, right)?;
    Ok(compare(op, &left, &right))
}

/// A comparison under every choice that goes on from this one.
fn test_each<'p, 'w, S: Sees>(
    alloc: Global,
    scene: &'w S,
    prefixes: &'p [Prefix],
    choice: &[Chosen<'p, 'w>],
    left: &Leaf,
    op: Op,
    right: &Leaf,
) -> Result<bool, AllocError>
    ensures { IfOk result (λ b. b ≡ list_all (λ c. test_under (S.all_seen scene.now) (chosen c) left.now op right.now) (choices_from (S.all_seen scene.now) prefixes.entry.now (choice_of choice.now))) }
{
    match prefixes {
        [] => test(alloc, scene, choice, left, op, right),
        [prefix, rest @ ..] => {
            let members = members_to_choose(alloc, scene, choice, prefix)?;
            for member in members.as_slice() {
                let choice = longer(alloc, choice, prefix, *member)?;
                if !test_each(alloc, scene, rest, choice.as_slice(), left, op, right)? {
                    return Ok(false);
                }
            }
            Ok(true)
        }
    }
}

/// A comparison under every choice of its own two sides' prefixes.
fn is_always<S: Sees>(
    alloc: Global,
    scene: &S,
    left: &Leaf,
    op: Op,
    right: &Leaf,
) -> Result<bool, AllocError>
    ensures { IfOk result (λ b. b ≡ test_always (S.all_seen scene.now) left.now op right.now) }
{
    let prefixes = prefixes_of_test(alloc, left, right)?;
    test_each(alloc, scene, prefixes.as_slice(), &[], left, op, right)
}

/// A filter under a choice.
fn is_true<S: Sees>(
    alloc: Global,
    scene: &S,
    choice: &[Chosen<'_, '_>],
    filter: &Resolved,
) -> Result<bool, AllocError>
    ensures { IfOk result (λ b. b ≡ true_under (S.all_seen scene.now) (chosen (choice_of choice.now)) filter.now) }
{
    match filter {
        Resolved::Test {
            left,
            any,
            op,
            right,
        } => {
            if *any {
                Ok(test(alloc, scene, choice, left, *op, right)?)
            } else {
                Ok(is_always(alloc, scene, left, *op, right)?)
            }
        }
        Resolved::And(a, b) => {
            Ok(is_true(alloc, scene, choice, a.get())? && is_true(alloc, scene, choice, b.get())?)
        }
        Resolved::Or(a, b) => {
            Ok(is_true(alloc, scene, choice, a.get())? || is_true(alloc, scene, choice, b.get())?)
        }
    }
}

/// Whether a choice that goes on from this one makes the filter true.
fn is_true_for_some<'p, 'w, S: Sees>(
    alloc: Global,
    scene: &'w S,
    prefixes: &'p [Prefix],
    choice: &[Chosen<'p, 'w>],
    filter: &Resolved,
) -> Result<bool, AllocError>
    ensures { IfOk result (λ b. b ≡ list_any (λ c. true_under (S.all_seen scene.now) (chosen c) filter.now) (choices_from (S.all_seen scene.now) prefixes.entry.now (choice_of choice.now))) }
{
    match prefixes {
        [] => is_true(alloc, scene, choice, filter),
        [prefix, rest @ ..] => {
            let members = members_to_choose(alloc, scene, choice, prefix)?;
            for member in members.as_slice() {
                let choice = longer(alloc, choice, prefix, *member)?;
                if is_true_for_some(alloc, scene, rest, choice.as_slice(), filter)? {
                    return Ok(true);
                }
            }
            Ok(false)
        }
    }
}

/// Whether a filter is true in what is seen.
pub fn is_true_in<S: Sees>(alloc: Global, scene: &S, filter: &Resolved) -> Result<bool, AllocError>
    ensures { IfOk result (λ b. b ≡ true_in (S.all_seen scene.now) filter.now) }
{
    let prefixes = prefixes_of_any(alloc, filter)?;
    is_true_for_some(alloc, scene, prefixes.as_slice(), &[], filter)
}

/// Whether a filter holds of a record, for a request in a world. The record need not stand in the world.
///
/// The filter is resolved for `home`, the record's collection. A step over a field that a collection lacks leads nowhere, and
/// the value of such a field is nothing, so that a filter resolved before fields were left out has a meaning too. Time and
/// memory grow with the number of choices: this is the plain way, for small worlds and for comparison.
pub fn holds_slow(
    alloc: Global,
    world: &World,
    ask: &Ask,
    home: &Name,
    rec: &Rec,
    filter: &Resolved,
) -> Result<bool, AllocError>
    ensures { IfOk result (λ b. b ≡ holds world.now ask.now home.now rec.now filter.now) }
{
    let shelves = lent_shelves(alloc, world)?;
    let scene = Scene {
        shelves: shelves.as_slice(),
        ask,
        home,
        rec,
    };
    is_true_in(alloc, &scene, filter)
}
