// Tokens to a tree, one step a token. The groups that are open stand on a stack in memory: nothing recurses.
ghost use Rattle.std.specs.Prelude.{◌≡◌, [], ◌∷◌, IfOk, map, reverse};
ghost use Rattle.pocket_types.specs.Chains.{or_refuse};
ghost use Rattle.pocket_types.specs.declared.faults.FilterFault.{FilterFault};
ghost use Rattle.pocket_filter.specs.Tokens.{lexeme_of, placed};
ghost use Rattle.pocket_filter.specs.Parsed.{Gives, GivesAs, tree_from};
ghost use Rattle.pocket_filter.specs.Parsing.{state_of, start, with_and, with_or, with_unit, feed, feed_unit, feed_op, feed_right, feed_join, feed_close, finish};

use crate::operands::operand_of;
use crate::tokens::{Token, TokenKind};
use pocket_types::{Boxed, Expr, FilterFault, Op, Operand};
use std::alloc::{AllocError, Global};

/// What stands in a group left of the unit that comes next: what `||` joins it to, and what `&&` joins it to.
#[derive(Drop)]
struct Group {
    or: Option<Boxed<Expr>>,
    and: Option<Boxed<Expr>>,
}

/// What may come next.
#[derive(Drop)]
enum Want {
    /// An opening parenthesis or an operand.
    Unit,
    /// The operator of a comparison.
    Op { left: Operand },
    /// Its right operand.
    Right { left: Operand, any: bool, op: Op },
    /// A join, a closing parenthesis or the end.
    Join { tree: Boxed<Expr> },
}

/// A parser between two tokens.
#[derive(Drop)]
struct Parser {
    /// The groups around this one, the innermost last.
    outer: Vec<Group>,
    group: Group,
    want: Want,
}

fn and_joined(
    alloc: Global,
    left: Option<Boxed<Expr>>,
    unit: Boxed<Expr>,
) -> Result<Boxed<Expr>, AllocError>
    ensures { IfOk result (λ tree. tree ≡ with_and left unit) }
{
    match left {
        None => Ok(unit),
        Some(left) => Boxed::new(alloc, Expr::And(left, unit)),
    }
}

fn or_joined(
    alloc: Global,
    left: Option<Boxed<Expr>>,
    tree: Boxed<Expr>,
) -> Result<Boxed<Expr>, AllocError>
    ensures { IfOk result (λ joined. joined ≡ with_or left tree) }
{
    match left {
        None => Ok(tree),
        Some(left) => Boxed::new(alloc, Expr::Or(left, tree)),
    }
}

impl Parser {
    fn new(alloc: Global) -> Parser
        ensures { state_of result ≡ start }
    {
        Parser {
            outer: Vec::new(alloc),
            group: Group {
                or: None,
                and: None,
            },
            want: Want::Unit,
        }
    }

    /// The parser once a unit was read.
    fn with_unit(
        alloc: Global,
        outer: Vec<Group>,
        group: Group,
        unit: Boxed<Expr>,
    ) -> Result<Parser, AllocError>
        ensures { IfOk result (λ next. state_of next ≡ with_unit (reverse outer.items) group unit) }
    {
        let Group { or, and } = group;
        let tree = and_joined(alloc, and, unit)?;
        Ok(Parser {
            outer,
            group: Group { or, and: None },
            want: Want::Join { tree },
        })
    }

    fn after_unit(
        alloc: Global,
        mut outer: Vec<Group>,
        group: Group,
        token: &Token<'_>,
    ) -> Result<Parser, FilterFault>
        ensures { GivesAs state_of result (or_refuse (feed_unit (reverse outer.items) group (lexeme_of token.now.kind)) (FilterFault.Unexpected token.now.at)) }
    {
        if let TokenKind::Open = token.kind {
            outer.push(group)?;
            return Ok(Parser {
                outer,
                group: Group {
                    or: None,
                    and: None,
                },
                want: Want::Unit,
            });
        }
        match operand_of(alloc, token.kind)? {
            Some(left) => Ok(Parser {
                outer,
                group,
                want: Want::Op { left },
            }),
            None => Err(FilterFault::Unexpected(token.at)),
        }
    }

    fn after_op(
        outer: Vec<Group>,
        group: Group,
        left: Operand,
        token: &Token<'_>,
    ) -> Result<Parser, FilterFault>
        ensures { GivesAs state_of result (or_refuse (feed_op (reverse outer.items) group left (lexeme_of token.now.kind)) (FilterFault.Unexpected token.now.at)) }
    {
        match token.kind {
            TokenKind::Test { any, op } => Ok(Parser {
                outer,
                group,
                want: Want::Right { left, any, op },
            }),
            _ => Err(FilterFault::Unexpected(token.at)),
        }
    }

    fn after_right(
        alloc: Global,
        outer: Vec<Group>,
        group: Group,
        left: Operand,
        any: bool,
        op: Op,
        token: &Token<'_>,
    ) -> Result<Parser, FilterFault>
        ensures { GivesAs state_of result (or_refuse (feed_right (reverse outer.items) group left any op (lexeme_of token.now.kind)) (FilterFault.Unexpected token.now.at)) }
    {
        match operand_of(alloc, token.kind)? {
            Some(right) => {
                let test = Expr::Test {
                    left,
                    any,
                    op,
                    right,
                };
                let unit = Boxed::new(alloc, test)?;
                Ok(Parser::with_unit(alloc, outer, group, unit)?)
            }
            None => Err(FilterFault::Unexpected(token.at)),
        }
    }

    /// The parser once the innermost group was closed, which holds a whole tree.
    fn after_close(
        alloc: Global,
        mut outer: Vec<Group>,
        tree: Boxed<Expr>,
        at: u32,
    ) -> Result<Parser, FilterFault>
        ensures { GivesAs state_of result (or_refuse (feed_close (reverse outer.items) tree) (FilterFault.Unexpected at)) }
    {
        match outer.pop() {
            Some(group) => Ok(Parser::with_unit(alloc, outer, group, tree)?),
            None => Err(FilterFault::Unexpected(at)),
        }
    }

    fn after_join(
        alloc: Global,
        outer: Vec<Group>,
        group: Group,
        tree: Boxed<Expr>,
        token: &Token<'_>,
    ) -> Result<Parser, FilterFault>
        ensures { GivesAs state_of result (or_refuse (feed_join (reverse outer.items) group tree (lexeme_of token.now.kind)) (FilterFault.Unexpected token.now.at)) }
    {
        let Group { or, and: _ } = group;
        match token.kind {
            TokenKind::And => Ok(Parser {
                outer,
                group: Group {
                    or,
                    and: Some(tree),
                },
                want: Want::Unit,
            }),
            TokenKind::Or => {
                let tree = or_joined(alloc, or, tree)?;
                Ok(Parser {
                    outer,
                    group: Group {
                        or: Some(tree),
                        and: None,
                    },
                    want: Want::Unit,
                })
            }
            TokenKind::Close => {
                let tree = or_joined(alloc, or, tree)?;
                Parser::after_close(alloc, outer, tree, token.at)
            }
            _ => Err(FilterFault::Unexpected(token.at)),
        }
    }

    /// The parser after a token.
    #[tactic(auto, unfolding(crate::specs::Parsing::feed))]
    fn after(self, alloc: Global, token: &Token<'_>) -> Result<Parser, FilterFault>
        ensures { GivesAs state_of result (or_refuse (feed (state_of self) (lexeme_of token.now.kind)) (FilterFault.Unexpected token.now.at)) }
    {
        let Parser { outer, group, want } = self;
        match want {
            Want::Unit => Parser::after_unit(alloc, outer, group, token),
            Want::Op { left } => Parser::after_op(outer, group, left, token),
            Want::Right { left, any, op } => Parser::after_right(
                alloc, outer, group, left, any, op, token,
            ),
            Want::Join { tree } => Parser::after_join(alloc, outer, group, tree, token),
        }
    }

    /// The tree, where the tokens end.
    #[tactic(auto, unfolding(crate::specs::Parsing::finish))]
    fn finish(self, alloc: Global, end: u32) -> Result<Expr, FilterFault>
        ensures { Gives result (or_refuse (finish (state_of self)) (FilterFault.Unexpected end)) }
    {
        let Parser { outer, group, want } = self;
        match want {
            Want::Join { tree } => if outer.is_empty() {
                Ok(or_joined(alloc, group.or, tree)?.into_inner())
            } else {
                Err(FilterFault::Unexpected(end))
            },
            _ => Err(FilterFault::Unexpected(end)),
        }
    }
}

/// The tree of the tokens of a text that ends at a place.
pub fn tree_of(alloc: Global, tokens: &[Token<'_>], end: u32) -> Result<Expr, FilterFault>
    ensures { Gives result (tree_from start end (map placed tokens.now)) }
{
    let mut parser = Parser::new(alloc);
    for token in tokens {
        parser = parser.after(alloc, token)?;
    }
    parser.finish(alloc, end)
}
