// Calls over the texts of filters.
use pocket_cases_text::Trouble;
use pocket_filter::{parse, print};
use pocket_types::{Expr, FilterFault, Text};
use std::alloc::{AllocError, Global};

/// The longest filter, in bytes.
const LONGEST: usize = 3500;

/// A fault as `!` and its name, with its place.
pub fn told_fault(alloc: Global, fault: FilterFault) -> Result<String, AllocError> {
    match fault {
        FilterFault::BadByte(at) => format!(in alloc; "! BadByte {at}"),
        FilterFault::OpenString(at) => format!(in alloc; "! OpenString {at}"),
        FilterFault::Unexpected(at) => format!(in alloc; "! Unexpected {at}"),
        FilterFault::NumberRange(at) => format!(in alloc; "! NumberRange {at}"),
        FilterFault::TooLong => String::from_str(alloc, "! TooLong"),
        FilterFault::TooDeep => String::from_str(alloc, "! TooDeep"),
        FilterFault::TooMany => String::from_str(alloc, "! TooMany"),
        FilterFault::Memory => String::from_str(alloc, "! Memory"),
    }
}

/// Whether a canonical text is read back to a filter with this text or is too long for a filter.
fn is_read_back(alloc: Global, text: &Text) -> Result<bool, AllocError> {
    match parse(alloc, text.as_str()) {
        Ok(again) => Ok(print(alloc, &again)? == *text),
        Err(fault) => Ok(fault == FilterFault::TooLong && text.len() > LONGEST),
    }
}

/// A filter's canonical text, where this is read back to a filter with the same one or is too long for a filter.
fn printed(alloc: Global, tree: &Expr) -> Result<String, Trouble> {
    let text = print(alloc, tree)?;
    if is_read_back(alloc, &text)? {
        Ok(text.into_string())
    } else {
        Err(Trouble::Case("what is printed isn't read back"))
    }
}

/// The canonical text of the filter that a text is, or `!` and its fault.
pub fn parsed(alloc: Global, text: &str) -> Result<String, Trouble> {
    match parse(alloc, text) {
        Ok(tree) => printed(alloc, &tree),
        Err(fault) => Ok(told_fault(alloc, fault)?),
    }
}
