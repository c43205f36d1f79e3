// The calls that cases make, by their names.
use crate::{ends, runs};
use pocket_cases_text::{Calls, Given, Trouble, head_of};
use std::alloc::Global;

/// The calls of whole runs.
pub struct RunCalls;

impl Calls for RunCalls {
    fn outcome(&self, alloc: Global, given: &Given, case: &str) -> Result<String, Trouble> {
        let (call, written) = head_of(case);
        outcome_of(alloc, given, call, given.text_of(alloc, written)?.as_str())
    }
}

/// The outcome of a call with its text, whose names are spelled out.
fn outcome_of(alloc: Global, given: &Given, call: &str, text: &str) -> Result<String, Trouble> {
    match call {
        "pipe" => runs::pipe(alloc, given, text),
        "row" => runs::bad_row(alloc, given, text),
        "sample" => runs::sample(alloc),
        "end" => ends::told(alloc, text),
        _ => Err(Trouble::Case("no such call")),
    }
}
