// The calls that cases make, by their names.
use crate::{
    calls, filters, gate, parts, paths, refusals, requests, rows, stores, texts, truths, values,
};
use pocket_cases_text::{Calls, Given, Trouble, head_of};
use std::alloc::Global;

/// The calls of the libraries below the machine.
pub struct LibraryCalls;

impl Calls for LibraryCalls {
    fn outcome(&self, alloc: Global, given: &Given, case: &str) -> Result<String, Trouble> {
        let (call, written) = head_of(case);
        match call {
            "json" => texts::json(alloc, given.bytes_of(alloc, written)?.as_slice()),
            "request" => requests::request(alloc, given.bytes_of(alloc, written)?.as_slice()),
            "call" => calls::call(alloc, given, written),
            "open" => stores::opened(alloc, given, written),
            "change" => stores::changed(alloc, given, written),
            _ => outcome_with_given(alloc, given, call, given.text_of(alloc, written)?.as_str()),
        }
    }
}

/// The outcome of a call with its text, whose names are spelled out, and with what else is given.
fn outcome_with_given(
    alloc: Global,
    given: &Given,
    call: &str,
    text: &str,
) -> Result<String, Trouble> {
    match call {
        "rule" | "client" | "admin" => paths::resolved(alloc, given, call, text),
        "record" => rows::record(alloc, given, text),
        "commit" => stores::committed(alloc, given, text),
        "holds" => truths::holds(alloc, given, text),
        "may" | "sees" => gate::asked(alloc, given, call, text),
        _ => outcome_of_text(alloc, call, text),
    }
}

/// The outcome of a call with its text alone.
fn outcome_of_text(alloc: Global, call: &str, text: &str) -> Result<String, Trouble> {
    match call {
        "key" => rows::key(alloc, text),
        "names" => rows::own_names(alloc, text),
        "collection" => rows::collection(alloc, text),
        "parts" => parts::parts(alloc, text),
        "token" => rows::token(alloc, text),
        "print" => stores::printed(alloc, text),
        "phrase" => requests::phrase(alloc, text),
        "why" => refusals::why(alloc, text),
        "reply" => refusals::bytes(alloc, text),
        "fault" => texts::fault(alloc, text),
        _ => outcome_of_value(alloc, call, text),
    }
}

/// The outcome of a call over values and short texts.
fn outcome_of_value(alloc: Global, call: &str, text: &str) -> Result<String, Trouble> {
    match call {
        "compare" => values::compared(alloc, text),
        "like" => values::liked(alloc, text),
        "lower" => values::lowered(alloc, text),
        "cell" => values::cell(alloc, text),
        "choose" => values::chosen(alloc, text),
        "date" => values::date(alloc, text),
        "macro" => values::macro_at(alloc, text),
        "name" => texts::name(alloc, text),
        "id" => texts::id(alloc, text),
        "made" => texts::made_id(alloc, text),
        "moment" => texts::moment(alloc, text),
        "parse" => filters::parsed(alloc, text),
        _ => Err(Trouble::Case("no such call")),
    }
}
