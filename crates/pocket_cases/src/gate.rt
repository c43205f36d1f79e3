// Calls that ask what the rules of a store say of its records, and what a caller sees of them.
ghost use Rattle.std.specs.Prelude.{◌≡◌, ◌<◌, is_some};
ghost use Rattle.std.specs.Option.{option_copied};
ghost use Rattle.pocket_resolve.specs.Fields.{collection_named};

use crate::askers::ask_of;
use crate::truths::filter_of;
use pocket_cases_text::{Given, Trouble, name_of, told_flag, world_of_lines};
use pocket_gate::{Rules, Verdict};
use pocket_plan::{Plan, compile};
use pocket_tables::Tables;
use pocket_tables::laws::sound_shelves_are_tabled;
use pocket_types::{Action, Ask, Collection, Id, Name, Resolved, Steps};
use std::alloc::{AllocError, Global};
use std::marker::Brand;
use std::sync::ledger::{Blank, Ledger};

/// `CALLER HOME/ID`, taken apart.
#[derive(Clone, Copy)]
struct Question<'a> {
    caller: &'a str,
    home: &'a str,
    id: &'a str,
}

fn question_of(text: &str) -> Option<Question<'_>> {
    let (caller, rest) = text.split_once(' ')?;
    let (home, id) = rest.split_once('/')?;
    Some(Question { caller, home, id })
}

fn action_of(word: &str) -> Option<Action> {
    match word {
        "list" => Some(Action::List),
        "view" => Some(Action::View),
        "create" => Some(Action::Create),
        "update" => Some(Action::Update),
        "delete" => Some(Action::Delete),
        _ => None,
    }
}

fn word_of(action: Action) -> &'static str {
    match action {
        Action::List => "list",
        Action::View => "view",
        Action::Create => "create",
        Action::Update => "update",
        Action::Delete => "delete",
    }
}

/// The collection of a name.
fn named<'a>(collections: &'a [Collection], name: &Name) -> Option<&'a Collection>
    ensures { option_copied result ≡ collection_named collections.now name.now }
{
    collections
        .iter()
        .find(|collection| collection.name == *name)
}

fn is_there(collections: &[Collection], name: &Name) -> bool
    ensures { result ≡ is_some (collection_named collections.now name.now) }
{
    named(collections, name).is_some()
}

/// The tables of the world that is given.
fn tables_of(alloc: Global, given: &Given) -> Result<Tables, Trouble> {
    sound_shelves_are_tabled();
    let world = world_of_lines(alloc, given.text("world"))?;
    Ok(Tables::build(alloc, world)?)
}

/// `allowed`, or why not: `locked` or `false`, with the collection and the action of the rule.
fn told(alloc: Global, verdict: &Verdict) -> Result<String, AllocError> {
    match verdict {
        Verdict::Allowed => String::from_str(alloc, "allowed"),
        Verdict::Locked(name, action) => {
            format!(in alloc; "locked {} {}", name.as_str(), word_of(*action))
        }
        Verdict::RuleFalse(name, action) => {
            format!(in alloc; "false {} {}", name.as_str(), word_of(*action))
        }
    }
}

/// What the rule for an action says of the record of an id.
fn verdict_on<L: Ledger>(
    alloc: Global,
    tables: &Tables,
    ask: &Ask,
    action: Action,
    home: &Name,
    id: Id,
    steps: &mut Steps<L>,
) -> Result<Verdict, Trouble> {
    let rec = tables.rec(home, id, steps).ok_or("no such record")?;
    if !is_there(tables.collections(), home) {
        return Err(Trouble::Case("no such collection"));
    }
    let rules = Rules::build(alloc, tables.collections())?;
    Ok(rules.may(alloc, tables, ask, action, home, rec, steps)?)
}

/// What the rule for an action says of the record of a question.
fn verdict_for<L: Ledger>(
    alloc: Global,
    given: &Given,
    tables: &Tables,
    question: Question<'_>,
    action: Action,
    steps: &mut Steps<L>,
) -> Result<Verdict, Trouble> {
    let id = Id::read(question.id).ok_or("no id")?;
    let home = name_of(alloc, question.home)?;
    let ask = ask_of(alloc, given, question.caller, question.home)?;
    verdict_on(alloc, tables, &ask, action, &home, id, steps)
}

/// What is told of the verdict on the record of a question.
fn told_verdict<L: Ledger>(
    alloc: Global,
    given: &Given,
    tables: &Tables,
    question: Question<'_>,
    action: Action,
    steps: &mut Steps<L>,
) -> Result<String, Trouble> {
    let verdict = verdict_for(alloc, given, tables, question, action, steps)?;
    Ok(told(alloc, &verdict)?)
}

/// What the rules say of `ACTION CALLER HOME/ID`.
fn judged<L: Ledger>(
    alloc: Global,
    given: &Given,
    text: &str,
    steps: &mut Steps<L>,
) -> Result<String, Trouble> {
    let (word, rest) = text.split_once(' ').ok_or("no action")?;
    let action = action_of(word).ok_or("no such action")?;
    let question = question_of(rest).ok_or("no question")?;
    let tables = tables_of(alloc, given)?;
    told_verdict(alloc, given, &tables, question, action, steps)
}

/// The plan of a filter.
fn plan_for(alloc: Global, filter: &Resolved) -> Result<Plan, Trouble> {
    Ok(compile(alloc, filter)?)
}

/// The plan of a text.
fn plan_of(
    alloc: Global,
    collections: &[Collection],
    home: &Name,
    text: &str,
) -> Result<Plan, Trouble> {
    match filter_of(alloc, collections, home, text) {
        Ok(filter) => {
            let plan = plan_for(alloc, &filter);
            drop(filter);
            plan
        }
        Err(trouble) => Err(trouble),
    }
}

/// Whether a plan's filter holds of the record of an id in what the caller sees.
fn holds_for<L: Ledger>(
    alloc: Global,
    tables: &Tables,
    ask: &Ask,
    home: &Name,
    id: Id,
    plan: &Plan,
    steps: &mut Steps<L>,
) -> Result<bool, Trouble> {
    let rec = tables.rec(home, id, steps).ok_or("no such record")?;
    let rules = Rules::build(alloc, tables.collections())?;
    Ok(plan.test(alloc, tables, rules.guard(ask), ask, home, rec, steps)?)
}

/// Whether a plan's filter holds of the record of a question in what the caller sees.
fn holds_by_plan<L: Ledger>(
    alloc: Global,
    given: &Given,
    tables: &Tables,
    question: Question<'_>,
    home: &Name,
    plan: &Plan,
    steps: &mut Steps<L>,
) -> Result<bool, Trouble> {
    let id = Id::read(question.id).ok_or("no id")?;
    let ask = ask_of(alloc, given, question.caller, question.home)?;
    holds_for(alloc, tables, &ask, home, id, plan, steps)
}

/// Whether a filter's text holds of the record of a question in what the caller sees.
fn holds_seen<L: Ledger>(
    alloc: Global,
    given: &Given,
    tables: &Tables,
    question: Question<'_>,
    text: &str,
    steps: &mut Steps<L>,
) -> Result<bool, Trouble> {
    let home = name_of(alloc, question.home)?;
    let plan = plan_of(alloc, tables.collections(), &home, text)?;
    holds_by_plan(alloc, given, tables, question, &home, &plan, steps)
}

/// Whether the filter of `CALLER HOME/ID: FILTER` holds in what the caller sees.
fn seen<L: Ledger>(
    alloc: Global,
    given: &Given,
    text: &str,
    steps: &mut Steps<L>,
) -> Result<String, Trouble> {
    let (asked, filter) = text.split_once(": ").ok_or("no filter")?;
    let question = question_of(asked).ok_or("no question")?;
    let tables = tables_of(alloc, given)?;
    told_flag(
        alloc,
        holds_seen(alloc, given, &tables, question, filter, steps)?,
    )
}

// The text is a `String`, as a call can give its own ledger only where no argument is a slice of a text.
fn answered<L: Ledger>(
    alloc: Global,
    given: &Given,
    asks_rule: bool,
    text: &String,
    blank: Blank,
) -> Result<String, Trouble>
    requires name { blank.name ≡ L.name }
    requires parts { blank.parts ≡ L.parts }
    requires some { 0 < L.parts }
{
    let mut steps = Steps::<L>::new(blank);
    if asks_rule {
        judged(alloc, given, text.as_str(), &mut steps)
    } else {
        seen(alloc, given, text.as_str(), &mut steps)
    }
}

/// What comes of a question to rules or guards.
pub fn asked(alloc: Global, given: &Given, call: &str, text: &str) -> Result<String, Trouble> {
    let text = String::from_str(alloc, text)?;
    answered::<Brand>(alloc, given, call == "may", &text, Blank::new(1))
}
