ghost use Rattle.std.specs.Prelude.{◌≡◌, ◌↔◌, Some, IsTrue};
ghost use Rattle.pocket_ops.specs.declared.likeness.Piece.TheVariants as piece;
ghost use Rattle.pocket_ops.specs.Likeness.{value_text, pieces_of, has_any, is_like, IsLike};
ghost use Rattle.pocket_ops.specs.Searching.{Splits, HasPassed, LeadsTo, outcome, is_later_match};

use itoa::Buffer;
use pocket_types::Value;

/// What a place of a pattern stands for.
#[derive(Clone, Copy)]
enum Piece {
    /// Any run of bytes.
    Any,
    /// A byte, where a letter stands for either case.
    Byte(u8),
}

/// The text of a value, with room for the digits of a number.
fn text_of<'a>(value: &'a Value, digits: &'a mut Buffer) -> &'a str
    ensures { result.now ≡ value_text value.now }
{
    match value {
        Value::Nothing => "",
        Value::Num(n) => digits.format(*n),
        Value::Flag(true) => "true",
        Value::Flag(false) => "false",
        Value::Text(text) => text.as_str(),
    }
}

/// The first piece of a pattern, and what stands behind it.
fn first_piece(pattern: &[u8]) -> Option<(Piece, &[u8])>
    ensures { Splits pattern.now result }
{
    match pattern {
        [] => None,
        [b'\\', b'%', rest @ ..] => Some((Piece::Byte(b'%'), rest)),
        [b'%', rest @ ..] => Some((Piece::Any, rest)),
        [byte, rest @ ..] => Some((Piece::Byte(*byte), rest)),
    }
}

/// Whether any run of bytes is among the pieces of a pattern.
fn has_any(mut pattern: &[u8]) -> bool
    ensures { result ≡ has_any (pieces_of pattern.now) }
{
    while let Some((piece, rest)) = first_piece(pattern) {
        if matches!(piece, Piece::Any) {
            return true;
        }
        pattern = rest;
    }
    false
}

/// What is left of a pattern and of a text.
#[derive(Clone, Copy)]
struct Place<'a> {
    pattern: &'a [u8],
    text: &'a [u8],
}

/// A match on its way.
#[derive(Clone, Copy)]
struct Search<'a> {
    /// The pattern and the text from here on.
    here: Place<'a>,
    /// Behind the last run of bytes: the rest of the pattern, and where in the text the run ends so far.
    back: Option<Place<'a>>,
    /// Whether the pattern may stand anywhere in the text.
    anywhere: bool,
}

/// What one step of a match gives.
enum Turn<'a> {
    Answer(bool),
    Next(Search<'a>),
}

/// Lets the last run of bytes take one byte more.
fn go_back(search: Search<'_>) -> Turn<'_>
    ensures { LeadsTo (is_later_match search.entry.anywhere search.entry.back) search.entry result }
{
    let Some(back) = search.back else {
        return Turn::Answer(false);
    };
    let Some((_, text)) = back.text.split_first() else {
        return Turn::Answer(false);
    };
    let here = Place {
        pattern: back.pattern,
        text,
    };
    Turn::Next(Search {
        here,
        back: Some(here),
        anywhere: search.anywhere,
    })
}

/// Goes over a byte of the pattern, or back to the last run of bytes.
fn pass<'a>(search: Search<'a>, byte: u8, pattern: &'a [u8]) -> Turn<'a>
    requires passed { HasPassed search.anywhere search.here search.back }
    requires byte { Splits search.here.pattern.now (Some (piece.Byte byte, pattern)) }
    ensures { LeadsTo (outcome search.entry) search.entry result }
{
    match search.here.text.split_first() {
        Some((first, text)) if byte.eq_ignore_ascii_case(first) => Turn::Next(Search {
            here: Place { pattern, text },
            back: search.back,
            anywhere: search.anywhere,
        }),
        _ => go_back(search),
    }
}

/// One step: over a piece of the pattern, or back to the last run of bytes.
fn advance(search: Search<'_>) -> Turn<'_>
    requires { HasPassed search.anywhere search.here search.back }
    ensures { LeadsTo (outcome search.entry) search.entry result }
{
    match first_piece(search.here.pattern) {
        None => {
            if search.anywhere || search.here.text.is_empty() {
                Turn::Answer(true)
            } else {
                go_back(search)
            }
        }
        Some((Piece::Any, pattern)) => {
            let here = Place {
                pattern,
                text: search.here.text,
            };
            Turn::Next(Search {
                here,
                back: Some(here),
                anywhere: search.anywhere,
            })
        }
        Some((Piece::Byte(byte), pattern)) => pass(search, byte, pattern),
    }
}

/// Whether a text is like a pattern, by one pass over it with one place to go back to.
fn is_like(text: &[u8], pattern: &[u8]) -> bool
    ensures { result ≡ is_like text.now pattern.now }
{
    let anywhere = !has_any(pattern);
    let here = Place { pattern, text };
    let mut search = Search {
        here,
        back: anywhere.then_some(here),
        anywhere,
    };
    loop {
        match advance(search) {
            Turn::Answer(found) => return found,
            Turn::Next(next) => search = next,
        }
    }
}

/// Whether a value's text is like a pattern: the text of the second value.
///
/// In a pattern `\%` is a percent sign, `%` is any run of bytes, and each other byte is itself, A to Z and a to z being
/// equal. A pattern without `%` outside `\%` may stand anywhere in the text. It takes time at most in proportion to the
/// product of both lengths.
pub fn like(a: &Value, b: &Value) -> bool
    ensures value { result ≡ is_like (value_text a.now) (value_text b.now) }
    ensures relation { IsTrue result ↔ IsLike (value_text a.now) (value_text b.now) }
{
    let mut digits = Buffer::new();
    let mut other_digits = Buffer::new();
    let text = text_of(a, &mut digits);
    let pattern = text_of(b, &mut other_digits);
    is_like(text.as_bytes(), pattern.as_bytes())
}
