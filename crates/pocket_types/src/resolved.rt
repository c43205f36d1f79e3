use crate::boxed::Boxed;
use crate::exact::Faithful;
use crate::expr::Op;
use crate::names::Name;
use crate::seq::Seq;
use crate::text::Text;
use crate::values::Value;

/// Where a path begins.
#[derive(Clone, Drop)]
pub enum Root {
    /// The record that the filter is asked of.
    Home,
    /// The caller's record.
    Auth,
    /// The fields that were sent.
    Body,
    /// All records of a collection, with the alias, which is empty where none is written.
    Look(Name, Text),
}

/// One step of a path.
#[derive(Clone, Drop)]
pub enum Step {
    /// To the records that a relation field holds.
    Forward(Name),
    /// To the records of a collection whose relation field holds this one.
    Back(Name, Name),
    /// To the items of a select or relation field.
    Item(Name),
}

/// A root with steps.
#[derive(Drop)]
pub struct Prefix {
    pub root: Root,
    pub steps: Seq<Step>,
}

/// What is taken of a field, a header or a part of the query.
#[derive(Clone, Copy)]
pub enum Modifier {
    Plain,
    Length,
    Lower,
    Isset,
}

/// A value that follows from the moment of the request.
#[derive(Clone, Copy, Debug)]
pub enum Macro {
    Now,
    Second,
    Minute,
    Hour,
    Day,
    Month,
    Year,
    Weekday,
    Yesterday,
    Tomorrow,
    TodayStart,
    TodayEnd,
    MonthStart,
    MonthEnd,
    YearStart,
    YearEnd,
}

/// One side of a comparison, its names looked up. A field may also be `id`, `created`, `updated` or `collectionName`.
#[derive(Drop)]
pub enum Leaf {
    Fixed(Value),
    Of {
        prefix: Prefix,
        field: Name,
        modifier: Modifier,
    },
    /// The text of the item at a prefix.
    ItemOf(Prefix),
    Context,
    Method,
    Header(Text, Modifier),
    Query(Text, Modifier),
    Body(Name, Modifier),
    Macro(Macro),
}

/// A filter whose names are looked up.
#[cycle(resolved)]
#[derive(Drop)]
pub enum Resolved {
    /// A comparison. With `any` one choice of related records that makes it true is enough.
    Test {
        left: Leaf,
        any: bool,
        op: Op,
        right: Leaf,
    },
    And(Boxed<Resolved>, Boxed<Resolved>),
    Or(Boxed<Resolved>, Boxed<Resolved>),
}

impl Faithful for Root {
    ghost use Rattle.std.proofs.Common.{rules};

    ghost clone_is_same = { Prim.search rules };
}

impl Faithful for Step {
    ghost use Rattle.std.proofs.Common.{rules};

    ghost clone_is_same = { Prim.search rules };
}
