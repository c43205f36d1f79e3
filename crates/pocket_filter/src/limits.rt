// The limits of a filter.
ghost use Rattle.std.specs.Prelude.{◌≡◌, [], ◌∷◌, ◌<◌, ◌+◌, ◌^◌, map, count_by};
ghost use Rattle.pocket_filter.specs.Faults.{lexemes, open_after, is_test};
ghost use Rattle.pocket_filter.specs.Parsed.{goes_too_deep};
ghost use Rattle.pocket_filter.specs.Tokens.{lexeme_of, placed};

use crate::tokens::{Token, TokenKind};

pub const MAX_BYTES: usize = 3500;

const MAX_OPEN: u32 = 16;

pub const MAX_COMPARISONS: usize = 100;

/// How many parentheses are open after a token, from how many are before it. An unmatched `)` closes nothing.
fn open_parentheses(depth: u32, kind: TokenKind<'_>) -> u32
    requires { depth + 1 < 2 ^ 32 }
    ensures { result ≡ open_after depth (lexeme_of kind.entry ∷ []) }
{
    match kind {
        TokenKind::Open => depth + 1,
        TokenKind::Close => depth.saturating_sub(1),
        _ => depth,
    }
}

/// Whether more than 16 parentheses are open at once.
pub fn is_too_deep(tokens: &[Token<'_>]) -> bool
    ensures { result ≡ goes_too_deep 0 (lexemes (map placed tokens.now)) }
{
    let mut depth = 0;
    for token in tokens {
        depth = open_parentheses(depth, token.kind);
        if depth > MAX_OPEN {
            return true;
        }
    }
    false
}

fn is_comparison(token: &Token<'_>) -> bool
    ensures { result ≡ is_test (lexeme_of token.now.kind) }
{
    matches!(token.kind, TokenKind::Test { .. })
}

/// How many operators stand among the tokens: one for each comparison.
pub fn count_comparisons(tokens: &[Token<'_>]) -> usize
    ensures { result ≡ count_by (λ t. is_test (lexeme_of t.kind)) tokens.now }
{
    tokens.iter().filter(|token| is_comparison(token)).count()
}
