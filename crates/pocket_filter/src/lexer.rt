// From a text to its tokens.
ghost use Rattle.std.specs.Prelude.{◌≡◌, ◌<◌, ◌≤◌, ◌&&◌, ℤ, length, map, slice_index, false, IsTrue, MatchOption};
ghost use Rattle.std.specs.List.{prefix_len};
ghost use Rattle.pocket_types.specs.Names.{is_digit, is_word};
ghost use Rattle.pocket_filter.specs.Fronts.{front_as, front, begun_by, comment_front, quoted_front, number_front, ident_front, mark_front};
ghost use Rattle.pocket_filter.specs.Lexing.{IsNumber, is_quote, op_text};
ghost use Rattle.pocket_filter.specs.Parsed.{GivesAs, tokens_from};
ghost use Rattle.pocket_filter.specs.Scanning.{class, in_line, begins_name as begins_name_of, op_of, mark_of, sign_len as sign_len_of, in_range, joins, path_len, closing};
ghost use Rattle.pocket_filter.specs.Stray.{StrayMarksAreBadBytes};
ghost use Rattle.pocket_filter.specs.Tokens.{placed, lexeme_of};

use crate::tokens::{Token, TokenKind};
use pocket_types::{FilterFault, NUMBER_END, Op};
use std::alloc::Global;

/// What stands at the front of a text.
#[derive(Clone, Copy)]
enum Piece<'t> {
    /// So many bytes separate tokens.
    Separator(usize),
    /// A token, of so many bytes.
    Token(TokenKind<'t>, usize),
    /// A number that is out of range.
    OverRange,
    /// A text without its closing quote.
    OpenText,
    /// No token begins.
    NoToken,
}

/// The tokens of a text, or its first lexical fault. Takes time linear in the text.
pub fn tokens<'t>(alloc: Global, text: &'t str) -> Result<Vec<Token<'t>>, FilterFault>
    requires { length text.now ≤ 3500 }
    ensures { GivesAs (λ tokens. map placed tokens.items) result (tokens_from 0 0 text.now) }
{
    let mut found = Vec::new(alloc);
    let mut rest = text;
    while !rest.is_empty() {
        let at = (text.len() - rest.len()) as u32;
        match first_piece(rest) {
            Piece::Separator(len) => rest = &rest[len..],
            Piece::Token(kind, len) => {
                found.push(Token { at, kind })?;
                rest = &rest[len..];
            }
            Piece::OverRange => return Err(FilterFault::NumberRange(at)),
            Piece::OpenText => return Err(FilterFault::OpenString(at)),
            Piece::NoToken => return Err(FilterFault::BadByte(at)),
        }
    }
    Ok(found)
}

/// The law of stray marks: a `.` or `:` after an ident that no name follows directly, and the second `:` of a part, are bad
/// bytes at their places.
pub fn stray_marks_are_bad_bytes()
    ensures { StrayMarksAreBadBytes }
{}

/// What may begin with a byte.
#[derive(Clone, Copy)]
enum Start {
    Blank,
    Slash,
    Quote,
    /// A minus or a digit.
    Number,
    /// `@`, a letter or `_`.
    Ident,
    /// A parenthesis, a join, an operator or nothing.
    Mark,
}

#[tactic(auto, using(std::proofs::lemmas::Bool::Decides::nat_tests))]
fn start_of(first: u8) -> Start
    ensures { result ≡ begun_by first }
{
    match first {
        b' ' | b'\t' | b'\r' | b'\n' => Start::Blank,
        b'/' => Start::Slash,
        b'\'' | b'"' => Start::Quote,
        b'-' | b'0'..=b'9' => Start::Number,
        b'@' | b'A'..=b'Z' | b'_' | b'a'..=b'z' => Start::Ident,
        _ => Start::Mark,
    }
}

/// What stands at the front of a text that isn't empty.
fn first_piece<'t>(text: &'t str) -> Piece<'t>
    requires { 0 < length text.now }
    ensures { front_as result ≡ front text.now }
{
    let bytes = text.as_bytes();
    match start_of(bytes[0]) {
        Start::Blank => Piece::Separator(1),
        Start::Slash => comment(text),
        Start::Quote => quoted(text),
        Start::Number => number(text),
        Start::Ident => ident(text),
        Start::Mark => marked(text),
    }
}

/// A comment, which goes on to the next line feed or the end.
fn comment<'t>(text: &'t str) -> Piece<'t>
    ensures { front_as result ≡ comment_front text.now }
{
    let bytes = text.as_bytes();
    if byte_at(bytes, 1) != b'/' {
        return Piece::NoToken;
    }
    Piece::Separator(line_len(bytes))
}

/// How many bytes stand before the next line feed or the end.
fn line_len(bytes: &[u8]) -> usize
    ensures { result ≡ prefix_len in_line bytes.now }
{
    bytes.iter().take_while(|b| **b != b'\n').count()
}

/// A text between quotes.
fn quoted<'t>(text: &'t str) -> Piece<'t>
    requires { IsTrue (is_quote (slice_index text.now 0)) }
    ensures { front_as result ≡ quoted_front text.now }
{
    let bytes = text.as_bytes();
    match closing_quote(bytes[0], &bytes[1..]) {
        Some(inside) => {
            let len = inside + 2;
            Piece::Token(TokenKind::Text(&text[..len]), len)
        }
        None => Piece::OpenText,
    }
}

/// How many bytes stand before the closing quote.
fn closing_quote(quote: u8, bytes: &[u8]) -> Option<usize>
    ensures { result ≡ closing quote false 0 bytes.now }
{
    let mut escaped = false;
    for (at, b) in bytes.iter().enumerate() {
        if escaped {
            escaped = false;
        } else if *b == quote {
            return Some(at);
        } else {
            escaped = *b == b'\\';
        }
    }
    None
}

/// A number.
fn number<'t>(text: &'t str) -> Piece<'t>
    requires { class (slice_index text.now 0) ≡ 2 }
    ensures { front_as result ≡ number_front text.now }
{
    let bytes = text.as_bytes();
    let start = sign_len(b'-', bytes[0]);
    let digits = digits_len(&bytes[start..]);
    if digits == 0 {
        return Piece::NoToken;
    }
    let len = start + digits;
    match number_of(&text[..len]) {
        Some(n) => Piece::Token(TokenKind::Number(n), len),
        None => Piece::OverRange,
    }
}

/// The length of a sign at the front.
fn sign_len(sign: u8, first: u8) -> usize
    ensures { result ≡ sign_len_of sign first }
{
    if first == sign { 1 } else { 0 }
}

/// How many digits stand at the front.
fn digits_len(bytes: &[u8]) -> usize
    ensures { result ≡ prefix_len is_digit bytes.now }
{
    bytes.iter().take_while(|b| b.is_ascii_digit()).count()
}

/// The number that a text spells, where it is in range.
fn number_of(text: &str) -> Option<i64>
    ensures { (n : ℤ) → IsNumber text.now n → result ≡ in_range n }
{
    match text.parse::<i64>() {
        Ok(n) => if n.unsigned_abs() < NUMBER_END {
            Some(n)
        } else {
            None
        },
        Err(_) => None,
    }
}

/// An ident.
fn ident<'t>(text: &'t str) -> Piece<'t>
    requires { class (slice_index text.now 0) ≡ 3 }
    ensures { front_as result ≡ ident_front text.now }
{
    let bytes = text.as_bytes();
    let start = sign_len(b'@', bytes[0]);
    if !begins_name(byte_at(bytes, start)) {
        return Piece::NoToken;
    }
    let len = start + path_end(&bytes[start..]);
    Piece::Token(TokenKind::Ident(&text[..len]), len)
}

/// How far parts go on, joined by dots and perhaps with a suffix each.
fn path_end(bytes: &[u8]) -> usize
    ensures { result ≡ path_len false bytes.now }
{
    let mut suffixed = false;
    for (at, b) in bytes.iter().enumerate() {
        if is_word_byte(*b) {
            continue;
        }
        if !goes_on(suffixed, *b, byte_at(bytes, at + 1)) {
            return at;
        }
        suffixed = *b == b':';
    }
    bytes.len()
}

/// Whether an ident goes on with a byte that is in no name, before this next one.
fn goes_on(suffixed: bool, byte: u8, next: u8) -> bool
    ensures { result ≡ (joins suffixed byte && is_word next) }
{
    let follows = is_word_byte(next);
    follows && (byte == b'.' || byte == b':' && !suffixed)
}

/// Whether a byte may stand in a name.
fn is_word_byte(byte: u8) -> bool
    ensures { result ≡ is_word byte }
{
    byte.is_ascii_alphanumeric() || byte == b'_'
}

/// Whether an ident's first name may begin with a byte.
fn begins_name(byte: u8) -> bool
    ensures { result ≡ begins_name_of byte }
{
    byte.is_ascii_alphabetic() || byte == b'_'
}

/// A parenthesis, a join or an operator.
fn marked<'t>(text: &'t str) -> Piece<'t>
    requires { 0 < length text.now }
    ensures { front_as result ≡ mark_front text.now }
{
    match mark(text.as_bytes()) {
        Some((kind, len)) => Piece::Token(kind, len),
        None => Piece::NoToken,
    }
}

/// A parenthesis, a join or an operator, and its length.
fn mark<'t>(bytes: &[u8]) -> Option<(TokenKind<'t>, usize)>
    requires { 0 < length bytes.now }
    ensures { MatchOption result
        (mark_of (slice_index bytes.now 0) (slice_index bytes.now 1) (slice_index bytes.now 2) ≡ None)
        (λ p. mark_of (slice_index bytes.now 0) (slice_index bytes.now 1) (slice_index bytes.now 2) ≡ Some (lexeme_of p.0, p.1)) }
{
    let second = byte_at(bytes, 1);
    match bytes[0] {
        b'(' => Some((TokenKind::Open, 1)),
        b')' => Some((TokenKind::Close, 1)),
        b'&' => if second == b'&' {
            Some((TokenKind::And, 2))
        } else {
            None
        },
        b'|' => if second == b'|' {
            Some((TokenKind::Or, 2))
        } else {
            None
        },
        b'?' => match op(second, byte_at(bytes, 2)) {
            Some(op) => Some((TokenKind::Test { any: true, op }, 1 + op_len(op))),
            None => None,
        },
        first => match op(first, second) {
            Some(op) => Some((TokenKind::Test { any: false, op }, op_len(op))),
            None => None,
        },
    }
}

/// The longest operator that the two bytes begin.
fn op(first: u8, second: u8) -> Option<Op>
    ensures { result ≡ op_of first second }
{
    match first {
        b'=' => Some(Op::Eq),
        b'~' => Some(Op::Like),
        b'>' => Some(if second == b'=' { Op::Ge } else { Op::Gt }),
        b'<' => Some(if second == b'=' { Op::Le } else { Op::Lt }),
        b'!' if second == b'=' => Some(Op::Ne),
        b'!' if second == b'~' => Some(Op::Unlike),
        _ => None,
    }
}

fn op_len(op: Op) -> usize
    ensures { result ≡ length (op_text op) }
{
    match op {
        Op::Eq | Op::Gt | Op::Lt | Op::Like => 1,
        Op::Ne | Op::Ge | Op::Le | Op::Unlike => 2,
    }
}

/// The byte at a place, and 0 after the last one.
pub fn byte_at(bytes: &[u8], at: usize) -> u8
    ensures { result ≡ slice_index bytes.now at }
{
    bytes.get(at).copied().unwrap_or(0)
}
