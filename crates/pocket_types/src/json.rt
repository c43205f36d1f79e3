use crate::seq::Seq;
use crate::text::Text;

/// Every number is below this in size, so that it stands exactly in a double.
pub const NUMBER_END: u64 = 9_007_199_254_740_992;

/// A JSON tree. Numbers are whole. Where a tree is read from bytes or made by a call, the keys of each map rise strictly.
#[cycle(json)]
#[derive(Drop)]
pub enum Jv {
    Null,
    Flag(bool),
    Num(i64),
    Text(Text),
    List(Seq<Jv>),
    Map(Seq<Member>),
}

/// A key of a map, with its value.
#[cycle(json)]
#[derive(Drop)]
pub struct Member {
    pub key: Text,
    pub value: Jv,
}
