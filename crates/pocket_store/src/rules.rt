// Whether the rules of a collection resolve.
ghost use Rattle.std.specs.Prelude.{◌≡◌, ◌≢◌, IfOk, MatchBool, MatchOption};
ghost use Rattle.pocket_types.specs.declared.expr.Expr.{Expr};
ghost use Rattle.pocket_types.specs.declared.faults.FilterFault.TheVariants as FilterFault;
ghost use Rattle.pocket_types.specs.declared.faults.ResolveFault.TheVariants as ResolveFault;
ghost use Rattle.pocket_filter.specs.Filters.{IsFilter};
ghost use Rattle.pocket_resolve.specs.declared.purpose.Purpose.TheVariants.{RuleOf};
ghost use Rattle.pocket_store.specs.Reading.{IsResolved, IsOnlyTree};
ghost use Rattle.pocket_store.specs.Stores.{HoldsFilter, Resolves, RulesResolve};

use pocket_filter::parse;
use pocket_resolve::{Purpose, resolve};
use pocket_types::{Collection, Expr, FilterFault, Name, ResolveFault, Rule, Text};
use std::alloc::{AllocError, Global};

fn parse_lacks_memory(fault: &FilterFault) -> bool
    ensures { MatchBool result (fault.now ≡ FilterFault.Memory) (fault.now ≢ FilterFault.Memory) }
{
    matches!(fault, FilterFault::Memory)
}

fn resolve_lacks_memory(fault: ResolveFault) -> bool
    ensures { MatchBool result (fault ≡ ResolveFault.Memory) (fault ≢ ResolveFault.Memory) }
{
    matches!(fault, ResolveFault::Memory)
}

/// The tree of a filter's text. None exactly where the text is no filter.
fn read_filter(alloc: Global, text: &Text) -> Result<Option<Expr>, AllocError>
    ensures { IfOk result (λ found. MatchOption found ((tree : Expr) → ¬ IsFilter text.now tree) (IsOnlyTree text.now)) }
{
    match parse(alloc, text.as_str()) {
        Ok(tree) => Ok(Some(tree)),
        Err(fault) => {
            if parse_lacks_memory(&fault) {
                Err(AllocError)
            } else {
                Ok(None)
            }
        }
    }
}

fn purpose_of(name: &Name) -> Result<Purpose, AllocError>
    ensures { IfOk result (λ purpose. purpose ≡ RuleOf name.now) }
{
    Ok(Purpose::RuleOf(name.clone()?))
}

/// Whether a filter resolves for this purpose.
fn tree_resolves(
    alloc: Global,
    collections: &[Collection],
    purpose: &Purpose,
    tree: &Expr,
) -> Result<bool, AllocError>
    ensures { IfOk result (λ good. MatchBool good (IsResolved collections.now purpose.now tree.now) (¬ IsResolved collections.now purpose.now tree.now)) }
{
    match resolve(alloc, collections, purpose, tree) {
        Ok(_) => Ok(true),
        Err(fault) => {
            if resolve_lacks_memory(fault) {
                Err(AllocError)
            } else {
                Ok(false)
            }
        }
    }
}

/// Whether a text is a filter that resolves as a rule of the collection of this name.
fn filter_resolves(
    alloc: Global,
    collections: &[Collection],
    name: &Name,
    text: &Text,
) -> Result<bool, AllocError>
    ensures { IfOk result (λ good. MatchBool good (HoldsFilter collections.now name.now text.now) (¬ HoldsFilter collections.now name.now text.now)) }
{
    let Some(tree) = read_filter(alloc, text)? else {
        return Ok(false);
    };
    let purpose = purpose_of(name)?;
    tree_resolves(alloc, collections, &purpose, &tree)
}

fn rule_resolves(
    alloc: Global,
    collections: &[Collection],
    name: &Name,
    rule: &Rule,
) -> Result<bool, AllocError>
    ensures { IfOk result (λ good. MatchBool good (Resolves collections.now name.now rule.now) (¬ Resolves collections.now name.now rule.now)) }
{
    match rule {
        Rule::Locked => Ok(true),
        Rule::Free => Ok(true),
        Rule::Filter(text) => filter_resolves(alloc, collections, name, text),
    }
}

/// Whether each rule of a collection resolves among the collections.
pub(crate) fn rules_resolve(
    alloc: Global,
    collections: &[Collection],
    collection: &Collection,
) -> Result<bool, AllocError>
    ensures { IfOk result (λ good. MatchBool good (RulesResolve collections.now collection.now) (¬ RulesResolve collections.now collection.now)) }
{
    let name = &collection.name;
    let list = rule_resolves(alloc, collections, name, &collection.list_rule)?;
    let view = rule_resolves(alloc, collections, name, &collection.view_rule)?;
    let create = rule_resolves(alloc, collections, name, &collection.create_rule)?;
    let update = rule_resolves(alloc, collections, name, &collection.update_rule)?;
    let delete = rule_resolves(alloc, collections, name, &collection.delete_rule)?;
    Ok(list && view && create && update && delete)
}
