// Calls over kept rows, each read alone.
ghost use Rattle.pocket_types.specs.Sound.{IsSoundCollection};

use crate::schemas::collections_of;
use pocket_cases_text::{Given, Trouble, push_row, row_of_line};
use pocket_keeper::{KeptRow, Token, row_of_token, split_rec_key};
use pocket_ops::{collection_jv, has_own_names, kept_jv, rec_jv, row_len};
use pocket_rows::{collection_of_row, rec_of_row, token_of_row};
use pocket_types::{Collection, Jv, Rec};
use std::alloc::{AllocError, Global};

/// The collection's name and the id in a record's key, or `none`.
pub fn key(alloc: Global, text: &str) -> Result<String, Trouble> {
    match split_rec_key(text) {
        Some((name, id)) => Ok(format!(in alloc; "{name} | {id}")?),
        None => Ok(String::from_str(alloc, "none")?),
    }
}

/// Whether no two members of the JSON of a collection's records have one name.
pub fn own_names(alloc: Global, text: &str) -> Result<String, Trouble> {
    let collections = collections_of(alloc, text)?;
    let own = collections
        .as_slice()
        .iter()
        .all(|collection| has_own_names(collection));
    Ok(String::from_str(alloc, if own { "own" } else { "twice" })?)
}

/// `read` where a tree is printed as the row that it was read from, else its text.
fn told_tree(alloc: Global, tree: &Jv, row: &KeptRow) -> Result<String, Trouble> {
    let text = tree.print(alloc)?;
    let same = text == row.value;
    Ok(if same {
        String::from_str(alloc, "read")?
    } else {
        text.into_string()
    })
}

fn refused(alloc: Global) -> Result<String, Trouble> {
    Ok(String::from_str(alloc, "refused")?)
}

/// What is told of a collection and its row.
fn told_collection(
    alloc: Global,
    collection: &Collection,
    row: &KeptRow,
) -> Result<String, Trouble> {
    told_tree(alloc, &collection_jv(alloc, collection)?, row)
}

/// Whether a collection has this row.
pub fn collection(alloc: Global, text: &str) -> Result<String, Trouble> {
    let row = row_of_line(alloc, text)?;
    match collection_of_row(alloc, &row)? {
        Some(collection) => told_collection(alloc, &collection, &row),
        None => refused(alloc),
    }
}

/// Adds a word and the JSON that a record shows, with its hidden fields or without them.
fn push_shown(
    out: &mut String,
    alloc: Global,
    collection: &Collection,
    rec: &Rec,
    hidden: bool,
) -> Result<(), AllocError> {
    out.push_str(if hidden { "\nadmin " } else { "\nothers " })?;
    let text = rec_jv(alloc, collection, rec, hidden)?.print(alloc)?;
    out.push_str(text.as_str())
}

/// What is told of a record: its row, the bytes of its value, and its JSON, as the administrator sees it and as others do.
fn told_rec(
    alloc: Global,
    collection: &Collection,
    rec: &Rec,
    row: &KeptRow,
) -> Result<String, Trouble> {
    let mut out = told_tree(alloc, &kept_jv(alloc, collection, rec)?, row)?;
    if has_own_names(collection) {
        let bytes = row_len(collection, rec);
        write!(&mut out, ", {bytes} bytes")?;
    }
    push_shown(&mut out, alloc, collection, rec, true)?;
    push_shown(&mut out, alloc, collection, rec, false)?;
    Ok(out)
}

/// What is told of the record of a row, of this collection.
fn record_in(alloc: Global, collection: &Collection, text: &str) -> Result<String, Trouble>
    requires { IsSoundCollection collection.now }
{
    let row = row_of_line(alloc, text)?;
    match rec_of_row(alloc, collection, &row)? {
        Some(rec) => told_rec(alloc, collection, &rec, &row),
        None => refused(alloc),
    }
}

/// What is told of the record of a row, of the collection whose row is given.
pub fn record(alloc: Global, given: &Given, text: &str) -> Result<String, Trouble> {
    match collection_of_row(alloc, &row_of_line(alloc, given.text("collection"))?)? {
        Some(collection) => record_in(alloc, &collection, text),
        None => Err(Trouble::Case("the given row keeps no collection")),
    }
}

/// `read` where a row is printed as it was read, else its line.
fn told_row(alloc: Global, again: &KeptRow, row: &KeptRow) -> Result<String, Trouble> {
    let same_key = again.key == row.key;
    let same_value = again.value == row.value;
    if same_key && same_value {
        return Ok(String::from_str(alloc, "read")?);
    }
    let mut line = String::new(alloc);
    push_row(&mut line, again)?;
    Ok(line)
}

/// What is told of a token and its row.
fn told_token(alloc: Global, token: &Token, row: &KeptRow) -> Result<String, Trouble> {
    let again = row_of_token(alloc, &token.text, &token.collection, token.id, token.until)?;
    told_row(alloc, &again, row)
}

/// Whether a token has this row.
pub fn token(alloc: Global, text: &str) -> Result<String, Trouble> {
    let row = row_of_line(alloc, text)?;
    match token_of_row(alloc, &row)? {
        Some(token) => told_token(alloc, &token, &row),
        None => refused(alloc),
    }
}
