// What a collection's row keeps, in other words than the row's own.
use pocket_cases_text::{Trouble, row_of_line};
use pocket_rows::collection_of_row;
use pocket_types::{Collection, Field, Kind, Moment, Rule, Text};
use std::alloc::{AllocError, Global};

fn push_bounds(out: &mut String, min: Option<i64>, max: Option<i64>) -> Result<(), AllocError> {
    if let Some(min) = min {
        write!(out, " from {min}")?;
    }
    if let Some(max) = max {
        write!(out, " to {max}")?;
    }
    Ok(())
}

fn millis_of(bound: Option<Moment>) -> Option<i64> {
    Some(bound?.millis())
}

fn push_values(out: &mut String, values: &[Text]) -> Result<(), AllocError> {
    for value in values {
        write!(out, " [{}]", value.as_str())?;
    }
    Ok(())
}

/// Adds a kind with its options; the bounds of dates are in milliseconds since 1970.
fn push_kind(out: &mut String, kind: &Kind) -> Result<(), AllocError> {
    match kind {
        Kind::Text { min, max } => write!(out, "text of {min} to {max}"),
        Kind::Number { min, max } => {
            out.push_str("number")?;
            push_bounds(out, *min, *max)
        }
        Kind::Flag => out.push_str("flag"),
        Kind::Date { min, max } => {
            out.push_str("date")?;
            push_bounds(out, millis_of(*min), millis_of(*max))
        }
        Kind::Select { values, most } => {
            write!(out, "{most} of")?;
            push_values(out, values.as_slice())
        }
        Kind::Json { max } => write!(out, "tree of {max}"),
        Kind::Relation {
            target,
            most,
            cascade,
        } => {
            write!(out, "{most} in {}", target.as_str())?;
            out.push_str(if *cascade { ", goes with them" } else { "" })
        }
    }
}

fn push_field(out: &mut String, field: &Field) -> Result<(), AllocError> {
    write!(out, "\n{}: ", field.name.as_str())?;
    push_kind(out, &field.kind)?;
    out.push_str(if field.required { ", required" } else { "" })?;
    out.push_str(if field.hidden { ", hidden" } else { "" })?;
    out.push_str(if field.unique { ", unique" } else { "" })
}

fn push_rule(out: &mut String, action: &str, rule: &Rule) -> Result<(), AllocError> {
    write!(out, "\n{action} ")?;
    match rule {
        Rule::Locked => out.push_str("locked"),
        Rule::Free => out.push_str("free"),
        Rule::Filter(text) => write!(out, "[{}]", text.as_str()),
    }
}

fn push_rules(out: &mut String, collection: &Collection) -> Result<(), AllocError> {
    push_rule(out, "list", &collection.list_rule)?;
    push_rule(out, "view", &collection.view_rule)?;
    push_rule(out, "create", &collection.create_rule)?;
    push_rule(out, "update", &collection.update_rule)?;
    push_rule(out, "delete", &collection.delete_rule)
}

/// The name, whether its records may be callers, the fields and the rules of a collection.
fn told(alloc: Global, collection: &Collection) -> Result<String, AllocError> {
    let mut out = String::from_str(alloc, collection.name.as_str())?;
    out.push_str(if collection.is_auth { ", callers" } else { "" })?;
    for field in collection.fields.as_slice() {
        push_field(&mut out, field)?;
    }
    push_rules(&mut out, collection)?;
    Ok(out)
}

/// What the collection of a row is.
pub fn parts(alloc: Global, text: &str) -> Result<String, Trouble> {
    match collection_of_row(alloc, &row_of_line(alloc, text)?)? {
        Some(collection) => Ok(told(alloc, &collection)?),
        None => Err(Trouble::Case("the row keeps no collection")),
    }
}
