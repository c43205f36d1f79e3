ghost use Rattle.std.specs.Prelude.{◌≡◌, IfOk, OnErr, fold, flat_map, length, take};
ghost use Rattle.std.specs.List.{list_any};
ghost use Rattle.std.specs.Cmp.Lexicographic.{pointwise};
ghost use Rattle.pocket_types.specs.Paths.{same_root, same_step, same_prefix, with_prefix, begun, prefixes_of};

use crate::exact::{copied, copied_items};
use crate::resolved::{Leaf, Prefix, Root, Step};
use crate::seq::Seq;
use std::alloc::{AllocError, Global};

fn is_same_root(a: &Root, b: &Root) -> bool
    ensures { result ≡ same_root a.now b.now }
{
    match (a, b) {
        (Root::Home, Root::Home) | (Root::Auth, Root::Auth) | (Root::Body, Root::Body) => true,
        (Root::Look(a, x), Root::Look(b, y)) => {
            let name = a == b;
            let alias = x == y;
            name && alias
        }
        _ => false,
    }
}

fn is_same_step(a: &Step, b: &Step) -> bool
    ensures { result ≡ same_step a.now b.now }
{
    match (a, b) {
        (Step::Forward(a), Step::Forward(b)) | (Step::Item(a), Step::Item(b)) => a == b,
        (Step::Back(a, f), Step::Back(b, g)) => {
            let from = a == b;
            let field = f == g;
            from && field
        }
        _ => false,
    }
}

fn are_same_steps(a: &[Step], b: &[Step]) -> bool
    ensures { result ≡ pointwise same_step a.now b.now }
{
    match (a, b) {
        ([], []) => true,
        ([first, more @ ..], [other, others @ ..]) => {
            let same = is_same_step(first, other);
            same && are_same_steps(more, others)
        }
        _ => false,
    }
}

impl Prefix {
    /// Whether this prefix has that root and those steps.
    pub fn is_of(&self, root: &Root, steps: &[Step]) -> bool
        ensures { result ≡ same_prefix self.now (record { root = root.now; steps = steps.now }) }
    {
        let same = is_same_root(&self.root, root);
        same && are_same_steps(self.steps.as_slice(), steps)
    }
}

/// Whether a root with steps is a prefix.
fn is_same_prefix(root: &Root, steps: &[Step], prefix: &Prefix) -> bool
    ensures { result ≡ same_prefix (record { root = root.now; steps = steps.now }) prefix.now }
{
    let same = is_same_root(root, &prefix.root);
    same && are_same_steps(steps, prefix.steps.as_slice())
}

fn stands(prefixes: &[Prefix], root: &Root, steps: &[Step]) -> bool
    ensures { result ≡ list_any (same_prefix (record { root = root.now; steps = steps.now })) prefixes.now }
{
    prefixes.iter().any(|p| is_same_prefix(root, steps, p))
}

/// A root with steps, copied.
fn prefix_of(alloc: Global, root: &Root, steps: &[Step]) -> Result<Prefix, AllocError>
    ensures { IfOk result (λ p. p ≡ record { root = root.now; steps = steps.now }) }
{
    let root = copied(root)?;
    let steps = Seq::from_vec(copied_items(alloc, steps)?);
    Ok(Prefix { root, steps })
}

/// Adds a root with steps, unless it stands there.
fn add_prefix(prefixes: &mut Vec<Prefix>, root: &Root, steps: &[Step]) -> Result<(), AllocError>
    ensures ok { IfOk result (λ _. prefixes.new.items ≡ with_prefix prefixes.old.items (record { root = root.now; steps = steps.now })) }
    ensures err { OnErr result (prefixes.new.items ≡ prefixes.old.items) }
{
    if !stands(prefixes, root, steps) {
        prefixes.push(prefix_of(*prefixes.allocator(), root, steps)?)?;
    }
    Ok(())
}

/// Adds a prefix with all that it begins with, those that don't stand there yet. After a refusal some are added.
fn add_begun(prefixes: &mut Vec<Prefix>, prefix: &Prefix) -> Result<(), AllocError>
    ensures ok { IfOk result (λ _. prefixes.new.items ≡ fold with_prefix prefixes.old.items (begun prefix.now)) }
    ensures err { take (length prefixes.old.items) prefixes.new.items ≡ prefixes.old.items }
{
    let steps = prefix.steps.as_slice();
    for len in 0..steps.len() + 1 {
        add_prefix(prefixes, &prefix.root, &steps[..len])?;
    }
    Ok(())
}

impl Leaf {
    /// Adds this side's prefix with all that it begins with to a list of prefixes, those that don't stand there yet. After a
    /// refusal the list is as before.
    pub fn add_prefixes(&self, prefixes: &mut Vec<Prefix>) -> Result<(), AllocError>
        ensures ok { IfOk result (λ _. prefixes.new.items ≡ fold with_prefix prefixes.old.items (flat_map begun (prefixes_of self.now))) }
        ensures err { OnErr result (prefixes.new.items ≡ prefixes.old.items) }
    {
        let (Leaf::Of { prefix, .. } | Leaf::ItemOf(prefix)) = self else {
            return Ok(());
        };
        let len = prefixes.len();
        if let Err(refused) = add_begun(prefixes, prefix) {
            prefixes.truncate(len);
            return Err(refused);
        }
        Ok(())
    }
}
