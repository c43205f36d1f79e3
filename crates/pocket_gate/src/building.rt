// From the texts of rules to what is asked of records. Trees and filters are let go by `drop`, which is proved once for all types.
ghost use Rattle.std.specs.Prelude.{◌≡◌, ◌≢◌, IfOk, IsOkAnd};
ghost use Rattle.std.specs.Result.{result_ok};
ghost use Rattle.pocket_types.specs.declared.faults.ResolveFault.TheVariants as faults;
ghost use Rattle.pocket_resolve.specs.Answers.{Gives};
ghost use Rattle.pocket_resolve.specs.Filters.{resolution};
ghost use Rattle.pocket_resolve.specs.declared.purpose.Purpose.TheVariants.{RuleOf};
ghost use Rattle.pocket_plan.specs.declared.guard.ViewTest.TheVariants as test;
ghost use Rattle.pocket_gate.specs.Built.{filter_test, test_of, view_for, views_for};
ghost use Rattle.pocket_gate.specs.Rules.{rule_filter, rule_for};

use pocket_filter::parse;
use pocket_plan::{Plan, View, ViewTest, compile};
use pocket_resolve::{Purpose, resolve};
use pocket_types::{
    Action, Collection, Expr, FilterFault, Name, ResolveFault, Resolved, Rule, Seq, Text,
};
use std::alloc::{AllocError, Global};

fn by_plan(plan: Result<Plan, AllocError>) -> Result<ViewTest, AllocError>
    ensures { IfOk result (λ t. IsOkAnd plan (λ p. t ≡ test.ByPlan p)) }
{
    match plan {
        Ok(plan) => Ok(ViewTest::ByPlan(plan)),
        Err(refused) => Err(refused),
    }
}

/// Whom a filter lets through.
fn test_of_filter(alloc: Global, filter: Resolved) -> Result<ViewTest, AllocError>
    ensures { IfOk result (λ t. t ≡ test.ByPlan filter) }
{
    let test = by_plan(compile(alloc, &filter));
    drop(filter);
    test
}

/// Whom a rule lets through that doesn't resolve: nobody, unless memory was wanting.
fn test_of_fault(fault: ResolveFault) -> Result<ViewTest, AllocError>
    ensures { IfOk result (λ t. (t ≡ test.Nobody) × (fault ≢ faults.Memory)) }
{
    match fault {
        ResolveFault::Memory => Err(AllocError),
        _ => Ok(ViewTest::Nobody),
    }
}

/// The filter of a tree, as a rule of the collection of this name among others.
fn resolve_rule(
    alloc: Global,
    collections: &[Collection],
    name: &Name,
    tree: &Expr,
) -> Result<Resolved, ResolveFault>
    ensures { Gives result (resolution collections.now (RuleOf name.now) tree.now) }
{
    let purpose = Purpose::RuleOf(name.clone()?);
    let filter = resolve(alloc, collections, &purpose, tree);
    drop(purpose);
    filter
}

/// Whom a rule's tree lets through: nobody where it doesn't resolve.
fn test_of_tree(
    alloc: Global,
    collections: &[Collection],
    name: &Name,
    tree: Expr,
) -> Result<ViewTest, AllocError>
    ensures { IfOk result (λ t. t ≡ filter_test (result_ok (resolution collections.now (RuleOf name.now) tree))) }
{
    let filter = resolve_rule(alloc, collections, name, &tree);
    drop(tree);
    match filter {
        Ok(filter) => test_of_filter(alloc, filter),
        Err(fault) => test_of_fault(fault),
    }
}

/// Whom a rule's text lets through: nobody where it is no filter.
#[tactic(auto, unfolding(crate::specs::Rules::rule_filter))]
fn test_of_text(
    alloc: Global,
    collections: &[Collection],
    name: &Name,
    text: &Text,
) -> Result<ViewTest, AllocError>
    ensures { IfOk result (λ t. t ≡ filter_test (rule_filter collections.now name.now text.now)) }
{
    match parse(alloc, text.as_str()) {
        Ok(tree) => test_of_tree(alloc, collections, name, tree),
        Err(FilterFault::Memory) => Err(AllocError),
        Err(_) => Ok(ViewTest::Nobody),
    }
}

/// Whom a rule lets through.
fn test_of_rule(
    alloc: Global,
    collections: &[Collection],
    name: &Name,
    rule: &Rule,
) -> Result<ViewTest, AllocError>
    ensures { IfOk result (λ t. t ≡ test_of collections.now name.now rule.now) }
{
    match rule {
        Rule::Locked => Ok(ViewTest::Nobody),
        Rule::Free => Ok(ViewTest::All),
        Rule::Filter(text) => test_of_text(alloc, collections, name, text),
    }
}

/// The rule of a collection for an action.
fn rule_of(collection: &Collection, action: Action) -> &Rule
    ensures { result.now ≡ rule_for action collection.now }
{
    match action {
        Action::List => &collection.list_rule,
        Action::View => &collection.view_rule,
        Action::Create => &collection.create_rule,
        Action::Update => &collection.update_rule,
        Action::Delete => &collection.delete_rule,
    }
}

/// A collection with its rule for an action.
fn view_of(
    alloc: Global,
    collections: &[Collection],
    collection: &Collection,
    action: Action,
) -> Result<View, AllocError>
    ensures { IfOk result (λ view. view ≡ view_for collections.now action collection.now) }
{
    let name = &collection.name;
    Ok(View {
        collection: name.clone()?,
        test: test_of_rule(alloc, collections, name, rule_of(collection, action))?,
    })
}

/// All collections with their rules for an action.
pub(crate) fn views_of(
    alloc: Global,
    collections: &[Collection],
    action: Action,
) -> Result<Seq<View>, AllocError>
    ensures { IfOk result (λ views. views ≡ views_for collections.now action) }
{
    let mut views = Vec::new(alloc);
    for collection in collections {
        views.push(view_of(alloc, collections, collection, action)?)?;
    }
    Ok(Seq::from_vec(views))
}
