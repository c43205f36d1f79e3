use crate::exact::Faithful;
use crate::text::Text;

/// What a cell, a literal or a part of a request is worth in a comparison.
#[derive(Clone, Drop)]
pub enum Value {
    Nothing,
    Num(i64),
    Flag(bool),
    Text(Text),
}

impl Faithful for Value {
    ghost use Rattle.std.proofs.Common.{rules};

    ghost clone_is_same = { Prim.search rules };
}
