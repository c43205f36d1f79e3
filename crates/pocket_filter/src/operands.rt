// The operands that tokens are.
ghost use Rattle.std.specs.Prelude.{◌≡◌, ◌++◌, [], IfOk, slice_index};
ghost use Rattle.std.specs.String.{string_bytes};
ghost use Rattle.pocket_filter.specs.Tokens.{lexeme_of};
ghost use Rattle.pocket_filter.specs.Operands.{operand, ident_operand as ident_operand_of, path_operand as path_operand_of, parts_of, part_of, unescaped, inner};
ghost use Rattle.pocket_filter.specs.Scanning.{escapes, given_by, given};

use crate::lexer::byte_at;
use crate::tokens::TokenKind;
use pocket_types::{Operand, Part, Seq, Text};
use std::alloc::{AllocError, Global};

/// The operand that a token is, where it is one.
pub fn operand_of(alloc: Global, kind: TokenKind<'_>) -> Result<Option<Operand>, AllocError>
    ensures { IfOk result (λ found. found ≡ operand (lexeme_of kind.entry)) }
{
    match kind {
        TokenKind::Open => Ok(None),
        TokenKind::Close => Ok(None),
        TokenKind::And => Ok(None),
        TokenKind::Or => Ok(None),
        TokenKind::Test { any: _, op: _ } => Ok(None),
        TokenKind::Ident(written) => Ok(Some(ident_operand(alloc, written)?)),
        TokenKind::Text(written) => Ok(Some(Operand::Text(text_given(alloc, written)?))),
        TokenKind::Number(n) => Ok(Some(Operand::Num(n))),
    }
}

/// A literal, or a path.
fn ident_operand(alloc: Global, written: &str) -> Result<Operand, AllocError>
    ensures { IfOk result (λ found. found ≡ ident_operand_of written.now) }
{
    if written == "true" {
        return Ok(Operand::Flag(true));
    }
    if written == "false" {
        return Ok(Operand::Flag(false));
    }
    if written == "null" {
        return Ok(Operand::Null);
    }
    path_operand(alloc, written)
}

fn path_operand(alloc: Global, written: &str) -> Result<Operand, AllocError>
    ensures { IfOk result (λ found. found ≡ path_operand_of written.now) }
{
    if byte_at(written.as_bytes(), 0) == b'@' {
        let parts = parts(alloc, &written[1..])?;
        Ok(Operand::Ident { sign: true, parts })
    } else {
        let parts = parts(alloc, written)?;
        Ok(Operand::Ident { sign: false, parts })
    }
}

/// The parts between dots.
fn parts(alloc: Global, path: &str) -> Result<Seq<Part>, AllocError>
    ensures { IfOk result (λ found. found ≡ parts_of path.now) }
{
    let mut found = Vec::new(alloc);
    for written in path.split('.') {
        let next = part(alloc, written)?;
        found.push(next)?;
    }
    Ok(Seq::from_vec(found))
}

/// A name, and what follows its first `:`.
fn part(alloc: Global, written: &str) -> Result<Part, AllocError>
    ensures { IfOk result (λ found. found ≡ part_of written.now) }
{
    match written.split_once(':') {
        Some((name, suffix)) => {
            let name = Text::from_str(alloc, name)?;
            let suffix = Text::from_str(alloc, suffix)?;
            Ok(Part {
                name,
                suffix: Some(suffix),
            })
        }
        None => {
            let name = Text::from_str(alloc, written)?;
            Ok(Part { name, suffix: None })
        }
    }
}

/// What a text gives that stands between quotes. Each token's text does; any other slice is refused as for want of memory.
fn text_given(alloc: Global, written: &str) -> Result<Text, AllocError>
    ensures { IfOk result (λ text. text ≡ unescaped (slice_index written.now 0) (inner written.now)) }
{
    let quote = byte_at(written.as_bytes(), 0);
    let end = written.len().saturating_sub(1);
    match written.get(1..end) {
        Some(inside) => unescape(alloc, quote, inside),
        None => Err(AllocError),
    }
}

/// What stands between two quotes, with its escapes undone.
fn unescape(alloc: Global, quote: u8, inside: &str) -> Result<Text, AllocError>
    ensures { IfOk result (λ text. text ≡ unescaped quote inside.now) }
{
    if quote >= 128 {
        return Err(AllocError);
    }
    let mut out = String::new(alloc);
    let mut escaped = false;
    for c in inside.chars() {
        escaped = push_given(&mut out, quote as char, escaped, c)?;
    }
    closed(out, escaped)
}

/// The text, with a backslash that nothing follows.
fn closed(mut out: String, escaped: bool) -> Result<Text, AllocError>
    ensures { IfOk result (λ text. text ≡ string_bytes out ++ given 0 escaped []) }
{
    if escaped {
        out.push('\\')?;
    }
    Ok(Text::from_string(out))
}

/// Adds what a character gives, and tells whether the next one is escaped.
fn push_given(out: &mut String, quote: char, escaped: bool, c: char) -> Result<bool, AllocError>
    ensures next { IfOk result (λ next. next ≡ escapes escaped c) }
    ensures given { IfOk result (λ _. string_bytes out.new ≡ string_bytes out.old ++ given_by quote escaped c) }
{
    if !escaped && c == '\\' {
        return Ok(true);
    }
    if escaped && c != quote && c != '\\' {
        out.push('\\')?;
    }
    out.push(c)?;
    Ok(false)
}
