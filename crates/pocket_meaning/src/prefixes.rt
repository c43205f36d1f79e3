ghost use Rattle.std.specs.Prelude.{◌≡◌, IfOk, fold, flat_map, ◌++◌};
ghost use Rattle.pocket_types.specs.Paths.{with_prefix, begun, with_parents, prefixes_of};
ghost use Rattle.pocket_meaning.specs.Prefixes.{any_prefixes};

use pocket_types::{Leaf, Prefix, Resolved};
use std::alloc::{AllocError, Global};

/// Adds the prefixes of a filter's any-match comparisons.
fn add_any(prefixes: &mut Vec<Prefix>, filter: &Resolved) -> Result<(), AllocError>
    ensures { IfOk result (λ _. prefixes.new.items ≡ fold with_prefix prefixes.old.items (flat_map begun (any_prefixes filter.now))) }
{
    match filter {
        Resolved::Test {
            left,
            any,
            right,
            ..
        } => {
            if *any {
                left.add_prefixes(prefixes)?;
                right.add_prefixes(prefixes)?;
            }
            Ok(())
        }
        Resolved::And(a, b) | Resolved::Or(a, b) => {
            add_any(prefixes, a.get())?;
            add_any(prefixes, b.get())?;
            Ok(())
        }
    }
}

/// The prefixes of a filter's any-match comparisons with all that they begin with, parents first, each once.
pub fn prefixes_of_any(alloc: Global, filter: &Resolved) -> Result<Vec<Prefix>, AllocError>
    ensures { IfOk result (λ v. v.items ≡ with_parents (any_prefixes filter.now)) }
{
    let mut prefixes = Vec::new(alloc);
    add_any(&mut prefixes, filter)?;
    Ok(prefixes)
}

/// The prefixes of one comparison with all that they begin with, parents first, each once.
pub fn prefixes_of_test(alloc: Global, left: &Leaf, right: &Leaf) -> Result<Vec<Prefix>, AllocError>
    ensures { IfOk result (λ v. v.items ≡ with_parents (prefixes_of left.now ++ prefixes_of right.now)) }
{
    let mut prefixes = Vec::new(alloc);
    left.add_prefixes(&mut prefixes)?;
    right.add_prefixes(&mut prefixes)?;
    Ok(prefixes)
}
