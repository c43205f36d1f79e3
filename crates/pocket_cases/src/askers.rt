// Requests of which rules are asked, from what cases are given.
use crate::truths::shelves_of_lines;
use pocket_cases_text::{Given, Trouble, caller_of, method_of};
use pocket_ops::date_read;
use pocket_types::{
    Ask, Caller, Cell, Collection, Context, Field, Moment, Pair, Rec, Sent, Seq, Shelf, Text,
};
use std::alloc::{AllocError, Global};

fn context_of(word: &str) -> Context {
    match word {
        "realtime" => Context::Realtime,
        _ => Context::Default,
    }
}

/// Pairs `name=value`, apart by blanks.
fn pairs_of(alloc: Global, words: &str) -> Result<Seq<Pair>, AllocError> {
    let mut pairs = Seq::new(alloc);
    for word in words.split(' ').filter(|word| !word.is_empty()) {
        let (name, value) = word.split_once('=').unwrap_or((word, ""));
        let name = Text::from_str(alloc, name)?;
        let value = Text::from_str(alloc, value)?;
        pairs.push(Pair { name, value })?;
    }
    Ok(pairs)
}

/// These fields with their cells, as they are sent.
fn sent_of(alloc: Global, fields: &[Field], cells: Seq<Cell>) -> Result<Seq<Sent>, AllocError> {
    let mut sent = Seq::new(alloc);
    for (field, cell) in fields.iter().zip(cells.into_vec()) {
        sent.push(Sent {
            field: field.name.clone()?,
            cell,
        })?;
    }
    Ok(sent)
}

/// What a record of a collection sends.
fn sent_by(alloc: Global, collection: &Collection, rec: Option<Rec>) -> Result<Seq<Sent>, Trouble> {
    match rec {
        Some(rec) => Ok(sent_of(alloc, collection.fields.as_slice(), rec.cells)?),
        None => Err(Trouble::Case("no record that is sent")),
    }
}

/// What the last record of a shelf sends.
fn body_on(alloc: Global, shelf: Shelf) -> Result<Seq<Sent>, Trouble> {
    let Shelf { collection, recs } = shelf;
    sent_by(alloc, &collection, recs.into_vec().pop())
}

/// What is sent: the fields of the last record of the last collection of the rows that are given as `sent`, where that is the home.
fn body_of(alloc: Global, given: &Given, home: &str) -> Result<Seq<Sent>, Trouble> {
    match shelves_of_lines(alloc, given.text("sent"))?.pop() {
        Some(shelf) if shelf.collection.name.as_str() == home => body_on(alloc, shelf),
        _ => Ok(Seq::new(alloc)),
    }
}

/// The request of a caller with what it sends, as it is given by `method`, `context`, `headers` and `query`.
fn ask_by(
    alloc: Global,
    given: &Given,
    caller: Caller,
    body: Seq<Sent>,
    moment: Moment,
) -> Result<Ask, Trouble> {
    let headers = pairs_of(alloc, given.text("headers"))?;
    Ok(Ask {
        caller,
        method: method_of(given.text("method")),
        context: context_of(given.text("context")),
        headers,
        query: pairs_of(alloc, given.text("query"))?,
        body,
        moment,
    })
}

/// The request of a caller as it is given, with `moment` and `sent` beside.
pub fn ask_of(alloc: Global, given: &Given, caller: &str, home: &str) -> Result<Ask, Trouble> {
    let moment = date_read(given.text("moment")).ok_or("no moment")?;
    let caller = caller_of(alloc, caller)?;
    ask_by(alloc, given, caller, body_of(alloc, given, home)?, moment)
}
