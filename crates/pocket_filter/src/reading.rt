// From a text to its tree.
ghost use Rattle.std.specs.Prelude.{◌≡◌, ◌≢◌, ℕ, IfOk, IfErr, Result, List};
ghost use Rattle.std.specs.Str.{IsUtf8};
ghost use Rattle.pocket_types.specs.declared.expr.Expr.{Expr};
ghost use Rattle.pocket_types.specs.declared.faults.FilterFault.{FilterFault};
ghost use Rattle.pocket_filter.specs.Filters.{IsFilter, IsFault, IsVerdict, IsAnswer};
ghost use Rattle.pocket_filter.specs.Grammar.{IsOr};
ghost use Rattle.pocket_filter.specs.Parsed.{Gives, parsed};
ghost use Rattle.pocket_filter.specs.Tokens.{Lexeme};

use crate::lexer::tokens;
use crate::limits::{MAX_BYTES, MAX_COMPARISONS, count_comparisons, is_too_deep};
use crate::parser::tree_of;
use pocket_types::{Expr, FilterFault};
use std::alloc::Global;

/// The tree of a filter's text, or what is wrong with the text: of several things the first of this list. It is too long; a
/// byte, an open text or a number out of range, whichever stands first; its parentheses nest too deep; a token can't stand
/// where it does, or more has to follow; it has too many comparisons.
///
/// Time is linear in the text, and nothing recurses.
pub fn parse(alloc: Global, text: &str) -> Result<Expr, FilterFault>
    ensures ok { IfOk result (λ tree. IsFilter text.now tree) }
    ensures fault { IfErr result (λ fault. fault ≢ FilterFault.Memory → IsFault text.now fault) }

    // The answer is what the text is parsed to, unless memory runs out.
    ensures value { Gives result (parsed text.now) }

    // What the text is, is answered, unless memory runs out: a text is one filter or has one fault.
    ensures only { (verdict : Result Expr FilterFault) → IsVerdict text.now verdict → IsAnswer verdict result }
{
    read(alloc, text)
}

#[tactic(auto, unfolding(crate::specs::Parsed::parsed))]
fn read(alloc: Global, text: &str) -> Result<Expr, FilterFault>
    ensures { Gives result (parsed text.now) }
{
    if text.len() > MAX_BYTES {
        return Err(FilterFault::TooLong);
    }
    let tokens = tokens(alloc, text)?;
    if is_too_deep(&tokens) {
        return Err(FilterFault::TooDeep);
    }
    let tree = tree_of(alloc, &tokens, text.len() as u32)?;
    if count_comparisons(&tokens) > MAX_COMPARISONS {
        return Err(FilterFault::TooMany);
    }
    Ok(tree)
}

/// Each text has one verdict, that which it is parsed to: it is a filter with this tree, or has this fault.
pub fn each_text_has_one_verdict()
    ensures has { (text : List ℕ) → IsUtf8 text → IsVerdict text (parsed text) }
    ensures one { (text : List ℕ) (verdict : Result Expr FilterFault) → IsUtf8 text → IsVerdict text verdict → parsed text ≡ verdict }
{}

/// Trees are determined: tokens that are a filter are it with one tree alone.
pub fn trees_are_determined()
    ensures { (tokens : List Lexeme) (a b : Expr) → IsOr tokens a → IsOr tokens b → a ≡ b }
{}
