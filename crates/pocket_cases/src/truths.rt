// Calls that ask whether a rule holds of a record.
use crate::askers::ask_of;
use pocket_cases_text::{Given, Trouble, told_flag, world_of_lines};
use pocket_filter::parse;
use pocket_meaning::holds_slow;
use pocket_resolve::{Purpose, resolve};
use pocket_types::{Ask, Collection, Expr, Id, Name, Rec, Resolved, Shelf, World};
use std::alloc::Global;

/// `CALLER HOME/ID: RULE`, taken apart.
#[derive(Clone, Copy)]
struct Question<'a> {
    caller: &'a str,
    home: &'a str,
    id: &'a str,
    rule: &'a str,
}

fn question_of(text: &str) -> Option<Question<'_>> {
    let (caller, rest) = text.split_once(' ')?;
    let (home, rest) = rest.split_once('/')?;
    let (id, rule) = rest.split_once(": ")?;
    Some(Question {
        caller,
        home,
        id,
        rule,
    })
}

/// The shelves of the world that the rows of these lines stand for.
pub fn shelves_of_lines(alloc: Global, lines: &str) -> Result<Vec<Shelf>, Trouble> {
    Ok(world_of_lines(alloc, lines)?.shelves.into_vec())
}

/// The collections of the rows of these lines.
fn collections_of_lines(alloc: Global, lines: &str) -> Result<Vec<Collection>, Trouble> {
    let mut collections = Vec::new(alloc);
    for shelf in shelves_of_lines(alloc, lines)? {
        collections.push(shelf.collection)?;
    }
    Ok(collections)
}

/// The names of a filter looked up for a purpose.
fn looked_up(
    alloc: Global,
    collections: &[Collection],
    purpose: &Purpose,
    tree: &Expr,
) -> Result<Resolved, Trouble> {
    match resolve(alloc, collections, purpose, tree) {
        Ok(filter) => Ok(filter),
        Err(_) => Err(Trouble::Case("the rule isn't resolved")),
    }
}

/// The filter of a text, as a rule of the collection of this name.
pub fn filter_of(
    alloc: Global,
    collections: &[Collection],
    home: &Name,
    text: &str,
) -> Result<Resolved, Trouble> {
    let purpose = Purpose::RuleOf(home.clone()?);
    match parse(alloc, text) {
        Ok(tree) => looked_up(alloc, collections, &purpose, &tree),
        Err(_) => Err(Trouble::Case("the rule isn't a filter")),
    }
}

/// The rule of a text, for a collection among those that are given as `typed`.
fn rule_of(alloc: Global, given: &Given, home: &Name, text: &str) -> Result<Resolved, Trouble> {
    let collections = collections_of_lines(alloc, given.text("typed"))?;
    filter_of(alloc, collections.as_slice(), home, text)
}

/// The record of an id in the world.
fn rec_of<'a>(world: &'a World, home: &Name, id: &str) -> Option<&'a Rec> {
    world.shelf(home)?.rec(Id::read(id)?)
}

/// The given world with the rows that are given as `beside`.
fn world_beside(alloc: Global, given: &Given) -> Result<World, Trouble> {
    let lines = format!(in alloc; "{}\n{}", given.text("world"), given.text("beside"))?;
    world_of_lines(alloc, lines.as_str().trim_end())
}

/// Whether a rule holds of the record of an id, which stands in the given world or, where rows are given as `beside`, among them.
fn truth(
    alloc: Global,
    given: &Given,
    ask: &Ask,
    home: &Name,
    id: &str,
    rule: &Resolved,
) -> Result<bool, Trouble> {
    let world = world_of_lines(alloc, given.text("world"))?;
    let asked = world_beside(alloc, given)?;
    let rec = rec_of(&asked, home, id).ok_or("no such record")?;
    Ok(holds_slow(alloc, &world, ask, home, rec, rule)?)
}

/// Whether a rule holds for the caller.
fn truth_for(
    alloc: Global,
    given: &Given,
    question: Question<'_>,
    home: &Name,
    rule: &Resolved,
) -> Result<bool, Trouble> {
    let ask = ask_of(alloc, given, question.caller, question.home)?;
    truth(alloc, given, &ask, home, question.id, rule)
}

/// The answer to a question about a record of this collection.
fn answer(
    alloc: Global,
    given: &Given,
    question: Question<'_>,
    home: &Name,
) -> Result<bool, Trouble> {
    let rule = rule_of(alloc, given, home, question.rule)?;
    truth_for(alloc, given, question, home, &rule)
}

/// Whether the rule holds.
pub fn holds(alloc: Global, given: &Given, text: &str) -> Result<String, Trouble> {
    let question = question_of(text).ok_or("no question")?;
    match Name::read(alloc, question.home) {
        Ok(home) => told_flag(alloc, answer(alloc, given, question, &home)?),
        Err(_) => Err(Trouble::Case("no name of a collection")),
    }
}
