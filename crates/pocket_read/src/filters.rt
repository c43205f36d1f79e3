// The filter of a client.
ghost use Rattle.std.specs.Prelude.{◌≡◌, ◌≤◌, IfOk, Some};
ghost use Rattle.std.specs.Option.{option_copied};
ghost use Rattle.pocket_types.specs.Within.{collections_of};
ghost use Rattle.pocket_filter.specs.Parsed.{parsed};
ghost use Rattle.pocket_resolve.specs.Filters.{resolution};
ghost use Rattle.pocket_gate.specs.Built.{rules_of};
ghost use Rattle.pocket_read.specs.Answers.{Gives, GivesAs, refuse_as};
ghost use Rattle.pocket_read.specs.Filtering.{client_filter, filter_of_text, passes};
ghost use Rattle.pocket_read.specs.declared.faults.ReadFault.TheVariants.{BadFilter, BadPath};

use crate::faults::ReadFault;
use pocket_filter::parse;
use pocket_gate::Rules;
use pocket_gate::laws::plans_answer_what_is_seen;
use pocket_plan::{Plan, compile};
use pocket_resolve::{Purpose, resolve};
use pocket_tables::Tables;
use pocket_types::{
    Ask, Collection, Expr, FilterFault, Name, Rec, ResolveFault, Resolved, Steps, Text,
};
use std::alloc::{AllocError, Global};
use std::sync::ledger::Ledger;

fn parsed(alloc: Global, text: &str) -> Result<Expr, ReadFault>
    ensures { Gives result (refuse_as BadFilter (parsed text.now)) }
{
    match parse(alloc, text) {
        Ok(tree) => Ok(tree),
        Err(FilterFault::Memory) => Err(ReadFault::Memory),
        Err(fault) => Err(ReadFault::BadFilter(fault)),
    }
}

fn filter_of(
    alloc: Global,
    collections: &[Collection],
    purpose: &Purpose,
    tree: &Expr,
) -> Result<Resolved, ReadFault>
    ensures { Gives result (refuse_as BadPath (resolution collections.now purpose.now tree.now)) }
{
    match resolve(alloc, collections, purpose, tree) {
        Ok(filter) => Ok(filter),
        Err(ResolveFault::Memory) => Err(ReadFault::Memory),
        Err(fault) => Err(ReadFault::BadPath(fault)),
    }
}

fn plan_of(alloc: Global, filter: Resolved) -> Result<Plan, AllocError>
    ensures { IfOk result (λ plan. plan ≡ filter) }
{
    let plan = compile(alloc, &filter);
    drop(filter);
    plan
}

/// The plan of a filter's text, or what is wrong with the text.
#[tactic(auto, unfolding(crate::specs::Filtering::filter_of_text))]
fn plan_of_text(
    alloc: Global,
    collections: &[Collection],
    purpose: &Purpose,
    text: &str,
) -> Result<Plan, ReadFault>
    ensures { GivesAs Some result (filter_of_text collections.now purpose.now text.now) }
{
    let tree = parsed(alloc, text)?;
    let filter = filter_of(alloc, collections, purpose, &tree);
    drop(tree);
    Ok(plan_of(alloc, filter?)?)
}

/// The plan of a client's filter, where it sent one.
pub fn client_plan(
    alloc: Global,
    collections: &[Collection],
    purpose: &Purpose,
    text: Option<&Text>,
) -> Result<Option<Plan>, ReadFault>
    ensures { Gives result (client_filter collections.now purpose.now (option_copied text.entry)) }
{
    let Some(text) = text else {
        return Ok(None);
    };
    match plan_of_text(alloc, collections, purpose, text.as_str()) {
        Ok(plan) => Ok(Some(plan)),
        Err(fault) => Err(fault),
    }
}

/// Whether a record passes a client's filter, which is asked in what the caller sees.
pub fn does_pass<L: Ledger>(
    alloc: Global,
    tables: &Tables,
    rules: &Rules,
    ask: &Ask,
    home: &Name,
    plan: Option<&Plan>,
    rec: &Rec,
    steps: &mut Steps<L>,
) -> Result<bool, AllocError>
    requires rules { rules.now ≡ rules_of (collections_of tables.now.world) }
    ensures passes { IfOk result (λ b. b ≡ passes tables.now.world ask.now home.now (option_copied plan.entry) rec.now) }
    ensures steps { steps.old ≤ steps.new }
{
    plans_answer_what_is_seen();
    let _collections = tables.collections();
    let guard = rules.guard(ask);
    match plan {
        Some(plan) => plan.test(alloc, tables, guard, ask, home, rec, steps),
        None => Ok(true),
    }
}
