// How many different prefixes a filter has.
ghost use Rattle.std.specs.Prelude.{◌≡◌, ◌≤◌, IfOk, length, fold, flat_map, count_by};
ghost use Rattle.pocket_types.specs.Paths.{with_prefix, begun};
ghost use Rattle.pocket_types.specs.declared.faults.ResolveFault.TheVariants as fault;
ghost use Rattle.pocket_types.specs.Chains.{refuse};
ghost use Rattle.pocket_resolve.specs.Answers.{Gives};
ghost use Rattle.pocket_resolve.specs.Filters as filters;

use pocket_types::{Prefix, ResolveFault, Resolved, Root};
use std::alloc::{AllocError, Global};

const MAX_PREFIXES: usize = 12;

/// Whether a prefix counts: the record itself, the caller's record and the body don't.
fn is_counted(prefix: &Prefix) -> bool
    ensures { result ≡ filters.is_counted prefix.now }
{
    match prefix.root {
        Root::Look(..) => true,
        Root::Home | Root::Auth | Root::Body => !prefix.steps.as_slice().is_empty(),
    }
}

fn count(prefixes: &[Prefix]) -> usize
    ensures value { result ≡ count_by filters.is_counted prefixes.now }
    ensures within { result ≤ length prefixes.now }
{
    match prefixes {
        [] => 0,
        [first, rest @ ..] => {
            let others = count(rest);
            if is_counted(first) {
                others + 1
            } else {
                others
            }
        }
    }
}

/// Adds the prefixes of a filter's sides to those that were found.
fn add_prefixes(found: &mut Vec<Prefix>, filter: &Resolved) -> Result<(), AllocError>
    ensures { IfOk result (λ _. found.new.items ≡ fold with_prefix found.old.items (flat_map begun (filters.filter_prefixes filter.now))) }
{
    match filter {
        Resolved::Test { left, right, .. } => {
            left.add_prefixes(found)?;
            right.add_prefixes(found)
        }
        Resolved::And(a, b) | Resolved::Or(a, b) => {
            add_prefixes(found, a.get())?;
            add_prefixes(found, b.get())
        }
    }
}

/// Refuses a filter with too many different prefixes.
pub fn few_prefixes(alloc: Global, filter: &Resolved) -> Result<(), ResolveFault>
    ensures { Gives result (refuse (filters.has_too_many filter.now) fault.TooManyPrefixes) }
{
    let mut found = Vec::new(alloc);
    add_prefixes(&mut found, filter)?;
    if count(found.as_slice()) > MAX_PREFIXES {
        return Err(ResolveFault::TooManyPrefixes);
    }
    Ok(())
}
