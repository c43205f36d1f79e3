// The printed form of a filter.
ghost use Rattle.std.specs.Prelude.{◌≡◌, ◌≤◌, ◌++◌, ◌∷◌, [], ℕ, List, IfOk, flat_map, length, encode_utf8};
ghost use Rattle.std.specs.String.{string_bytes};
ghost use Rattle.pocket_filter.specs.Filters.{IsFilter};
ghost use Rattle.pocket_filter.specs.Lexing.{op_text, test_text, part_text, dotted, parts_text, ident_text, quoted};
ghost use Rattle.pocket_filter.specs.Printed.{escape_byte, operand_lexeme, token_text, printed};
ghost use Rattle.pocket_filter.specs.Printing.{top_of, is_or as is_or_of, is_join as is_join_of, side};

use pocket_types::{Expr, Op, Operand, Part, Text};
use std::alloc::{AllocError, Global};

/// The printed form, however long it is.
///
/// One space stands around operators and joins, texts stand in `"`, and of the parentheses those alone that the tree needs.
pub fn print(alloc: Global, expr: &Expr) -> Result<Text, AllocError>
    ensures { IfOk result (λ text. text ≡ printed expr.now) }
{
    let mut out = String::new(alloc);
    print_expr(&mut out, expr)?;
    Ok(Text::from_string(out))
}

/// The law of printing and reading: where a tree is as `parse` gives them, and its printed form isn't too long, that form is
/// a filter within all limits, and its tree is this one. The text is that of `print`, borrowed.
pub fn printed_filter_is_read(expr: &Expr, text: &str)
    requires read { (source : List ℕ) × IsFilter source expr.now }
    requires text { text.now ≡ printed expr.now }
    requires short { length text.now ≤ 3500 }
    ensures { IsFilter text.now expr.now }
{}

#[cycle(print)]
fn print_expr(out: &mut String, expr: &Expr) -> Result<(), AllocError>
    ensures { IfOk result (λ _. string_bytes out.new ≡ string_bytes out.old ++ printed expr.now) }
{
    match expr {
        Expr::Test {
            left,
            any,
            op,
            right,
        } => print_test(out, left, *any, *op, right),
        Expr::And(left, right) => {
            let (left, right) = (left.get(), right.get());
            print_side(out, left, is_or(left))?;
            out.push_str(" && ")?;
            print_side(out, right, is_join(right))
        }
        Expr::Or(left, right) => {
            let (left, right) = (left.get(), right.get());
            print_expr(out, left)?;
            out.push_str(" || ")?;
            print_side(out, right, is_or(right))
        }
    }
}

/// One side of a join, perhaps between parentheses.
#[cycle(print)]
fn print_side(out: &mut String, expr: &Expr, grouped: bool) -> Result<(), AllocError>
    ensures { IfOk result (λ _. string_bytes out.new ≡ string_bytes out.old ++ side grouped (printed expr.now)) }
{
    if grouped {
        out.push('(')?;
        print_expr(out, expr)?;
        out.push(')')
    } else {
        print_expr(out, expr)
    }
}

fn is_or(expr: &Expr) -> bool
    ensures { result ≡ is_or_of (top_of expr.now) }
{
    matches!(expr, Expr::Or(..))
}

/// Whether an expression is more than a comparison.
fn is_join(expr: &Expr) -> bool
    ensures { result ≡ is_join_of (top_of expr.now) }
{
    !matches!(expr, Expr::Test { .. })
}

fn print_test(
    out: &mut String,
    left: &Operand,
    any: bool,
    op: Op,
    right: &Operand,
) -> Result<(), AllocError>
    ensures { IfOk result (λ _. string_bytes out.new
        ≡ string_bytes out.old ++ (token_text (operand_lexeme left.now) ++ ((32 ∷ test_text any op ++ 32 ∷ []) ++ token_text (operand_lexeme right.now)))) }
{
    print_operand(out, left)?;
    print_op(out, any, op)?;
    print_operand(out, right)
}

fn print_op(out: &mut String, any: bool, op: Op) -> Result<(), AllocError>
    ensures { IfOk result (λ _. string_bytes out.new ≡ string_bytes out.old ++ (32 ∷ test_text any op ++ 32 ∷ [])) }
{
    out.push(' ')?;
    if any {
        out.push('?')?;
    }
    out.push_str(op_str(op))?;
    out.push(' ')
}

fn op_str(op: Op) -> &'static str
    ensures { result.now ≡ op_text op }
{
    match op {
        Op::Eq => "=",
        Op::Ne => "!=",
        Op::Gt => ">",
        Op::Ge => ">=",
        Op::Lt => "<",
        Op::Le => "<=",
        Op::Like => "~",
        Op::Unlike => "!~",
    }
}

fn print_operand(out: &mut String, operand: &Operand) -> Result<(), AllocError>
    ensures { IfOk result (λ _. string_bytes out.new ≡ string_bytes out.old ++ token_text (operand_lexeme operand.now)) }
{
    match operand {
        Operand::Ident { sign, parts } => print_ident(out, *sign, parts.as_slice()),
        Operand::Text(text) => print_text(out, text.as_str()),
        Operand::Num(n) => write!(out, "{n}"),
        Operand::Flag(true) => out.push_str("true"),
        Operand::Flag(false) => out.push_str("false"),
        Operand::Null => out.push_str("null"),
    }
}

fn print_ident(out: &mut String, sign: bool, parts: &[Part]) -> Result<(), AllocError>
    ensures { IfOk result (λ _. string_bytes out.new ≡ string_bytes out.old ++ ident_text sign parts.now) }
{
    if sign {
        out.push('@')?;
    }
    match parts.split_first() {
        Some((first, others)) => {
            print_part(out, first)?;
            print_dotted(out, others)
        }
        None => Ok(()),
    }
}

/// Parts, each after a dot.
fn print_dotted(out: &mut String, parts: &[Part]) -> Result<(), AllocError>
    ensures { IfOk result (λ _. string_bytes out.new ≡ string_bytes out.old ++ dotted parts.now) }
{
    for part in parts {
        out.push('.')?;
        print_part(out, part)?;
    }
    Ok(())
}

fn print_part(out: &mut String, part: &Part) -> Result<(), AllocError>
    ensures { IfOk result (λ _. string_bytes out.new ≡ string_bytes out.old ++ part_text part.now) }
{
    out.push_str(part.name.as_str())?;
    match &part.suffix {
        Some(suffix) => {
            out.push(':')?;
            out.push_str(suffix.as_str())
        }
        None => Ok(()),
    }
}

/// A text between quotes.
fn print_text(out: &mut String, text: &str) -> Result<(), AllocError>
    ensures { IfOk result (λ _. string_bytes out.new ≡ string_bytes out.old ++ quoted 34 (flat_map escape_byte text.now)) }
{
    out.push('"')?;
    for c in text.chars() {
        print_char(out, c)?;
    }
    out.push('"')
}

#[tactic(auto, using(crate::proofs::Printing::escape_low, crate::proofs::Printing::escape_high))]
fn print_char(out: &mut String, c: char) -> Result<(), AllocError>
    ensures { IfOk result (λ _. string_bytes out.new ≡ string_bytes out.old ++ flat_map escape_byte (encode_utf8 c)) }
{
    match c {
        '"' | '\\' => {
            out.push('\\')?;
            out.push(c)
        }
        _ => out.push(c),
    }
}
