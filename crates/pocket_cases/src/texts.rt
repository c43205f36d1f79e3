// Calls over texts: names, ids, moments, JSON, and what is said of texts that are refused.
use crate::values::moment_text;
use pocket_cases_text::Trouble;
use pocket_filter::parse;
use pocket_json::{JsonFault, read_jv};
use pocket_types::{Id, Jv, Moment, Name, Text};
use std::alloc::{AllocError, Global};

fn told(alloc: Global, good: bool) -> Result<String, Trouble> {
    Ok(String::from_str(alloc, if good { "ok" } else { "refused" })?)
}

/// Whether a text is a name.
pub fn name(alloc: Global, text: &str) -> Result<String, Trouble> {
    told(alloc, Name::read(alloc, text).is_ok())
}

/// Whether a text is an id.
pub fn id(alloc: Global, text: &str) -> Result<String, Trouble> {
    told(alloc, Id::read(text).is_some())
}

/// The id that two words make.
pub fn made_id(alloc: Global, text: &str) -> Result<String, Trouble> {
    let (first, second) = text.split_once(' ').ok_or("no two words")?;
    let first = first.parse::<u64>().ok().ok_or("no word")?;
    let second = second.parse::<u64>().ok().ok_or("no word")?;
    Ok(String::from_str(alloc, Id::made([first, second]).as_str())?)
}

/// The text of the moment of so many milliseconds since 1970, or `none`.
pub fn moment(alloc: Global, text: &str) -> Result<String, Trouble> {
    match Moment::of_millis(text.parse::<i64>().ok().ok_or("no number")?) {
        Some(moment) => Ok(moment_text(alloc, moment)?),
        None => Ok(String::from_str(alloc, "none")?),
    }
}

/// Whether a compact text is read back as a tree with this text.
fn is_read_back(alloc: Global, text: &Text) -> Result<bool, AllocError> {
    match read_jv(alloc, text.as_str().as_bytes()) {
        Ok(again) => Ok(again.print(alloc)? == *text),
        Err(_) => Ok(false),
    }
}

/// A tree's compact text, where it is read back as a tree with this text.
fn printed(alloc: Global, tree: &Jv) -> Result<String, Trouble> {
    let text = tree.print(alloc)?;
    if is_read_back(alloc, &text)? {
        Ok(text.into_string())
    } else {
        Err(Trouble::Case("what is printed isn't read back"))
    }
}

/// The compact text of the tree that bytes are, or `refused`.
pub fn json(alloc: Global, bytes: &[u8]) -> Result<String, Trouble> {
    match read_jv(alloc, bytes) {
        Ok(tree) => printed(alloc, &tree),
        Err(JsonFault::BadJson) => told(alloc, false),
        Err(JsonFault::Memory) => Err(Trouble::Memory),
    }
}

/// What is said of bytes that are no tree.
fn json_fault(alloc: Global, bytes: &[u8]) -> Result<String, AllocError> {
    match read_jv(alloc, bytes) {
        Ok(_) => String::from_str(alloc, "read"),
        Err(fault) => format!(in alloc; "{fault}"),
    }
}

/// What is said of a text that is no filter.
fn filter_fault(alloc: Global, text: &str) -> Result<String, AllocError> {
    match parse(alloc, text) {
        Ok(_) => String::from_str(alloc, "read"),
        Err(fault) => format!(in alloc; "{fault}"),
    }
}

/// What is said of `json TEXT` or `filter TEXT`, where the text is none.
pub fn fault(alloc: Global, text: &str) -> Result<String, Trouble> {
    match text.split_once(' ') {
        Some(("json", text)) => Ok(json_fault(alloc, text.as_bytes())?),
        Some(("filter", text)) => Ok(filter_fault(alloc, text)?),
        _ => Err(Trouble::Case("no text of JSON or of a filter")),
    }
}
