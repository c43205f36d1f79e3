use pocket_types::Op;

/// What a token is. An ident and a text are the slice of the source as it is written, quotes and escapes included.
#[derive(Clone, Copy)]
pub enum TokenKind<'t> {
    Open,
    Close,
    And,
    Or,
    /// An operator, with `any` after a `?`.
    Test { any: bool, op: Op },
    Ident(&'t str),
    Text(&'t str),
    Number(i64),
}

/// A token and its place, a byte of the text.
#[derive(Clone, Copy)]
pub struct Token<'t> {
    pub at: u32,
    pub kind: TokenKind<'t>,
}
