// Words that stand for names, values, callers and methods, and what is told of outcomes.
use crate::trouble::Trouble;
use pocket_types::{Caller, Id, Method, Name, Text, Value};
use std::alloc::Global;

/// The name of a text.
pub fn name_of(alloc: Global, text: &str) -> Result<Name, Trouble> {
    Name::read(alloc, text).ok().ok_or(Trouble::Case("no name"))
}

/// The value of a number's digits.
fn number_of(word: &str) -> Result<Value, Trouble> {
    match word.parse::<i64>() {
        Ok(number) => Ok(Value::Num(number)),
        Err(_) => Err(Trouble::Case("no value")),
    }
}

/// The value of a text that is followed by a double quote.
fn text_of(alloc: Global, rest: &str) -> Result<Value, Trouble> {
    match rest.strip_suffix('"') {
        Some(text) => Ok(Value::Text(Text::from_str(alloc, text)?)),
        None => Err(Trouble::Case("no closing quote")),
    }
}

/// The value of a word: `nothing`, a number, `true`, `false`, or a text between double quotes.
pub fn value_of(alloc: Global, word: &str) -> Result<Value, Trouble> {
    match word {
        "nothing" => Ok(Value::Nothing),
        "true" => Ok(Value::Flag(true)),
        "false" => Ok(Value::Flag(false)),
        _ => match word.strip_prefix('"') {
            Some(rest) => text_of(alloc, rest),
            None => number_of(word),
        },
    }
}

/// A flag as `true` or `false`.
pub fn told_flag(alloc: Global, flag: bool) -> Result<String, Trouble> {
    Ok(format!(in alloc; "{flag}")?)
}

/// A caller: `guest`, `admin`, or a member as `COLLECTION/ID`.
pub fn caller_of(alloc: Global, word: &str) -> Result<Caller, Trouble> {
    match word {
        "guest" => Ok(Caller::Guest),
        "admin" => Ok(Caller::Admin),
        _ => {
            let (home, id) = word.split_once('/').ok_or("no caller")?;
            let id = Id::read(id).ok_or("no id of a caller")?;
            let home = Name::read(alloc, home)
                .ok()
                .ok_or("no collection of a caller")?;
            Ok(Caller::Member(home, id))
        }
    }
}

/// The method of a word, GET where none is given.
pub fn method_of(word: &str) -> Method {
    match word {
        "POST" => Method::Post,
        "PATCH" => Method::Patch,
        "PUT" => Method::Put,
        "DELETE" => Method::Delete,
        _ => Method::Get,
    }
}

/// The outcome, where the same came in another way, else both.
pub fn in_both_ways(
    alloc: Global,
    outcome: String,
    found: Result<String, Trouble>,
    way: &str,
) -> Result<String, Trouble> {
    let found = found?;
    if found == outcome {
        Ok(outcome)
    } else {
        Ok(format!(in alloc; "{outcome}, but {found} {way}")?)
    }
}
