use crate::boxed::Boxed;
use crate::seq::Seq;
use crate::text::Text;

/// How a comparison compares.
#[derive(Clone, Copy, PartialEq, Eq)]
pub enum Op {
    Eq,
    Ne,
    Gt,
    Ge,
    Lt,
    Le,
    /// `~`: the left text matches the right pattern.
    Like,
    /// `!~`
    Unlike,
}

/// A part of a path, as it is written: a name, and perhaps a suffix after `:`.
#[derive(Drop)]
pub struct Part {
    pub name: Text,
    pub suffix: Option<Text>,
}

/// One side of a comparison, as it is written.
#[derive(Drop)]
pub enum Operand {
    /// A path. With `sign` it begins with `@`.
    Ident { sign: bool, parts: Seq<Part> },
    Text(Text),
    Num(i64),
    Flag(bool),
    Null,
}

/// A filter as it is written, its names not yet looked up.
#[cycle(expr)]
#[derive(Drop)]
pub enum Expr {
    /// A comparison. With `any` its operator has a `?`.
    Test {
        left: Operand,
        any: bool,
        op: Op,
        right: Operand,
    },
    And(Boxed<Expr>, Boxed<Expr>),
    Or(Boxed<Expr>, Boxed<Expr>),
}
