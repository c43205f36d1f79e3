// Calls that look up the names in filters.
use crate::filters::told_fault;
use crate::schemas::collections_of;
use pocket_cases_text::{Given, Trouble};
use pocket_filter::parse;
use pocket_resolve::{Purpose, ResolveFault, resolve};
use pocket_types::{Collection, Leaf, Modifier, Name, Prefix, Resolved, Root, Step, Value};
use std::alloc::{AllocError, Global};

fn push_step(out: &mut String, step: &Step) -> Result<(), AllocError> {
    match step {
        Step::Forward(field) => {
            out.push('>')?;
            out.push_str(field.as_str())
        }
        Step::Back(from, field) => {
            out.push('<')?;
            out.push_str(from.as_str())?;
            out.push('/')?;
            out.push_str(field.as_str())
        }
        Step::Item(field) => {
            out.push('*')?;
            out.push_str(field.as_str())
        }
    }
}

fn push_root(out: &mut String, root: &Root) -> Result<(), AllocError> {
    match root {
        Root::Home => out.push_str("home"),
        Root::Auth => out.push_str("auth"),
        Root::Body => out.push_str("body"),
        Root::Look(name, alias) => {
            out.push_str(name.as_str())?;
            out.push(':')?;
            out.push_str(alias.as_str())
        }
    }
}

fn push_prefix(out: &mut String, prefix: &Prefix) -> Result<(), AllocError> {
    push_root(out, &prefix.root)?;
    for step in prefix.steps.as_slice() {
        push_step(out, step)?;
    }
    Ok(())
}

fn push_name(
    out: &mut String,
    before: &str,
    name: &str,
    modifier: Modifier,
) -> Result<(), AllocError> {
    out.push_str(before)?;
    out.push_str(name)?;
    out.push_str(match modifier {
        Modifier::Plain => "",
        Modifier::Length => ":length",
        Modifier::Lower => ":lower",
        Modifier::Isset => ":isset",
    })
}

fn push_value(out: &mut String, value: &Value) -> Result<(), AllocError> {
    match value {
        Value::Nothing => out.push_str("null"),
        Value::Num(number) => write!(out, "{number}"),
        Value::Flag(flag) => write!(out, "{flag}"),
        Value::Text(text) => write!(out, "\"{text}\""),
    }
}

fn push_leaf(out: &mut String, leaf: &Leaf) -> Result<(), AllocError> {
    match leaf {
        Leaf::Fixed(value) => push_value(out, value),
        Leaf::Of {
            prefix,
            field,
            modifier,
        } => {
            push_prefix(out, prefix)?;
            push_name(out, ".", field.as_str(), *modifier)
        }
        Leaf::ItemOf(prefix) => push_prefix(out, prefix),
        Leaf::Context => out.push_str("context"),
        Leaf::Method => out.push_str("method"),
        Leaf::Header(name, modifier) => push_name(out, "header ", name.as_str(), *modifier),
        Leaf::Query(name, modifier) => push_name(out, "query ", name.as_str(), *modifier),
        Leaf::Body(name, modifier) => push_name(out, "sent ", name.as_str(), *modifier),
        Leaf::Macro(which) => write!(out, "@{which:?}"),
    }
}

/// The sides of a filter's comparisons, each followed by a blank.
fn push_sides(out: &mut String, filter: &Resolved) -> Result<(), AllocError> {
    match filter {
        Resolved::Test { left, right, .. } => {
            push_leaf(out, left)?;
            out.push(' ')?;
            push_leaf(out, right)?;
            out.push(' ')
        }
        Resolved::And(a, b) | Resolved::Or(a, b) => {
            push_sides(out, a.get())?;
            push_sides(out, b.get())
        }
    }
}

fn push_fault(out: &mut String, fault: &ResolveFault) -> Result<(), AllocError> {
    match fault {
        ResolveFault::NoCollection(name) => write!(out, "! NoCollection {name}"),
        ResolveFault::NoField(name) => write!(out, "! NoField {name}"),
        ResolveFault::NotRelation(name) => write!(out, "! NotRelation {name}"),
        ResolveFault::HiddenField(name) => write!(out, "! HiddenField {name}"),
        ResolveFault::BadModifier(at) => write!(out, "! BadModifier {at}"),
        ResolveFault::SuperuserOnly(at) => write!(out, "! SuperuserOnly {at}"),
        ResolveFault::TooManySteps => out.push_str("! TooManySteps"),
        ResolveFault::TooManyPrefixes => out.push_str("! TooManyPrefixes"),
        ResolveFault::Memory => out.push_str("! Memory"),
    }
}

/// The purpose that a call names: the rule of a collection, or a filter that a client or the administrator sends for its records.
fn purpose_of(alloc: Global, call: &str, home: &str) -> Result<Purpose, Trouble> {
    let home = Name::read(alloc, home)
        .ok()
        .ok_or("no name of a collection")?;
    match call {
        "rule" => Ok(Purpose::RuleOf(home)),
        _ => Ok(Purpose::ClientOf {
            home,
            admin: call == "admin",
        }),
    }
}

/// The sides of a filter's comparisons, or `!` and the fault.
fn told_sides(
    resolution: Result<Resolved, ResolveFault>,
    alloc: Global,
) -> Result<String, AllocError> {
    let mut out = String::new(alloc);
    match resolution {
        Ok(filter) => push_sides(&mut out, &filter)?,
        Err(fault) => push_fault(&mut out, &fault)?,
    }
    Ok(out)
}

/// What comes of a filter's text.
fn told_filter(
    alloc: Global,
    collections: &[Collection],
    purpose: &Purpose,
    text: &str,
) -> Result<String, AllocError> {
    match parse(alloc, text) {
        Ok(tree) => told_sides(resolve(alloc, collections, purpose, &tree), alloc),
        Err(fault) => told_fault(alloc, fault),
    }
}

/// The sides of the comparisons of `HOME: FILTER` among the given collections, or `!` and the fault.
pub fn resolved(alloc: Global, given: &Given, call: &str, text: &str) -> Result<String, Trouble> {
    let (home, filter) = text
        .split_once(": ")
        .ok_or("no collection before a filter")?;
    let purpose = purpose_of(alloc, call, home)?;
    let collections = collections_of(alloc, given.text("collections"))?;
    Ok(told_filter(alloc, collections.as_slice(), &purpose, filter)?)
}
