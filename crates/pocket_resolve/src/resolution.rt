ghost use Rattle.std.specs.Prelude.{◌≡◌, ◌≢◌, true, Ok, Err, IfOk, IfErr};
ghost use Rattle.pocket_types.specs.declared.faults.ResolveFault.TheVariants as fault;
ghost use Rattle.pocket_resolve.specs.Filters.{home_of, is_guarded, resolution};
ghost use Rattle.pocket_resolve.specs.Safety.{IsSafe};
ghost use Rattle.pocket_resolve.specs.Typing.{IsTyped};

use crate::filters::filter_at;
use crate::prefixes::few_prefixes;
use crate::purpose::Purpose;
use pocket_types::{Collection, Expr, ResolveFault, Resolved};
use std::alloc::Global;

/// The filter of an expression, its names looked up in the collections. A fault is the first, of operands from the left
/// and in each of its parts from the left; too many prefixes come after all operands.
/// A filter that it gives is typed: each name in it stands for something that the collections have. A client's, who isn't
/// the administrator, is safe: it asks of the record itself and of what its paths lead to, by no hidden field.
///
/// Time grows with the expression's text times the number of collections and fields, and with the square of the number
/// of different prefixes in it.
#[tactic(auto, unfolding(crate::specs::Filters::resolution))]
pub fn resolve(
    alloc: Global,
    collections: &[Collection],
    purpose: &Purpose,
    expr: &Expr,
) -> Result<Resolved, ResolveFault>
    ensures ok { IfOk result (λ filter. resolution collections.now purpose.now expr.now ≡ Ok filter) }
    ensures typed { IfOk result (λ filter. IsTyped collections.now (home_of purpose.now) filter) }
    ensures safe { IfOk result
        (λ filter. is_guarded purpose.now ≡ true → IsSafe collections.now (home_of purpose.now) filter) }
    ensures fault { IfErr result
        (λ e. e ≢ fault.Memory → resolution collections.now purpose.now expr.now ≡ Err e) }
{
    let mut number = 0;
    let filter = filter_at(alloc, collections, purpose, expr, &mut number)?;
    few_prefixes(alloc, &filter).and(Ok(filter))
}
