// What calls read of a query.
ghost use Rattle.std.specs.Prelude.{◌≡◌, ◌<◌, ◌≤◌, ◌^◌, IfOk, find};
ghost use Rattle.std.specs.Option.{option_copied};
ghost use Rattle.std.specs.List.{list_all};
ghost use Rattle.std.specs.String.{string_bytes};
ghost use Rattle.pocket_types.specs.Names.{is_digit};
ghost use Rattle.pocket_api.specs.Queries.{is_named, is_yes, list_query, number_of, query_flag, query_number, query_pairs, query_value, shown_by};

use crate::call::{ListQuery, Shown};
use pocket_types::{Pair, Seq, Text};
use std::alloc::{AllocError, Global};

fn pair(name: String, value: String) -> Pair
    ensures { result ≡ record { name = string_bytes name; value = string_bytes value } }
{
    Pair {
        name: Text::from_string(name),
        value: Text::from_string(value),
    }
}

/// The pairs of a query, decoded, in their order.
pub(crate) fn query_pairs(alloc: Global, query: &str) -> Result<Seq<Pair>, AllocError>
    ensures { IfOk result (λ pairs. pairs ≡ query_pairs query.now) }
{
    let mut pairs = Seq::new(alloc);
    for item in form_urlencoded::parse(alloc, query.as_bytes()).into_owned() {
        let (name, value) = item?;
        pairs.push(pair(name, value))?;
    }
    Ok(pairs)
}

/// The first pair of a name.
fn first_named<'a>(query: &'a [Pair], name: &str) -> Option<&'a Pair>
    ensures { option_copied result ≡ find (is_named name.now) query.now }
{
    query.iter().find(|pair| pair.name.as_str() == name)
}

/// The value of a name, unless it is empty.
fn query_value<'a>(query: &'a [Pair], name: &str) -> Option<&'a str>
    ensures { option_copied result ≡ query_value query.now name.now }
{
    let pair = first_named(query, name)?;
    if pair.value.is_empty() {
        None
    } else {
        Some(pair.value.as_str())
    }
}

/// The same, as a text of its own.
fn query_text(alloc: Global, query: &[Pair], name: &str) -> Result<Option<Text>, AllocError>
    ensures { IfOk result (λ text. text ≡ query_value query.now name.now) }
{
    match query_value(query, name) {
        Some(text) => Ok(Some(Text::from_str(alloc, text)?)),
        None => Ok(None),
    }
}

fn is_digit(byte: u8) -> bool
    ensures { result ≡ is_digit byte }
{
    byte.is_ascii_digit()
}

fn are_digits(bytes: &[u8]) -> bool
    ensures { result ≡ list_all is_digit bytes.now }
{
    bytes.iter().all(|byte| is_digit(*byte))
}

/// The number of at most so many digits that a text is, else 0.
fn number(text: &str, most: usize) -> u64
    requires { most ≤ 15 }
    ensures value { result ≡ number_of most text.now }
    ensures bound { result < 10 ^ most }
{
    let digits = are_digits(text.as_bytes());
    if text.is_empty() || text.len() > most || !digits {
        return 0;
    }
    match text.parse::<u64>() {
        Ok(number) => number,
        Err(_) => 0,
    }
}

/// The number of a name, 0 where it is absent.
pub(crate) fn query_number(query: &[Pair], name: &str, most: usize) -> u64
    requires { most ≤ 15 }
    ensures value { result ≡ query_number most query.now name.now }
    ensures bound { result < 10 ^ most }
{
    match query_value(query, name) {
        Some(text) => number(text, most),
        None => 0,
    }
}

/// The number of a name that has at most 9 digits.
fn short_number(query: &[Pair], name: &str) -> u32
    ensures { result ≡ query_number 9 query.now name.now }
{
    query_number(query, name, 9) as u32
}

fn is_yes(text: &str) -> bool
    ensures { result ≡ is_yes text.now }
{
    text == "1" || text == "true"
}

fn query_flag(query: &[Pair], name: &str) -> bool
    ensures { result ≡ query_flag query.now name.now }
{
    match query_value(query, name) {
        Some(text) => is_yes(text),
        None => false,
    }
}

/// The query of a list.
pub(crate) fn list_query(alloc: Global, query: &[Pair]) -> Result<ListQuery, AllocError>
    ensures { IfOk result (λ list. list ≡ list_query query.now) }
{
    Ok(ListQuery {
        page: short_number(query, "page"),
        per_page: short_number(query, "perPage"),
        sort: query_text(alloc, query, "sort")?,
        filter: query_text(alloc, query, "filter")?,
        expand: query_text(alloc, query, "expand")?,
        fields: query_text(alloc, query, "fields")?,
        skip_total: query_flag(query, "skipTotal"),
    })
}

/// What the answer is to show.
pub(crate) fn shown_by(alloc: Global, query: &[Pair]) -> Result<Shown, AllocError>
    ensures { IfOk result (λ shown. shown ≡ shown_by query.now) }
{
    Ok(Shown {
        expand: query_text(alloc, query, "expand")?,
        fields: query_text(alloc, query, "fields")?,
    })
}
