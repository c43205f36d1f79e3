use crate::ids::Id;
use crate::json::Jv;
use crate::moments::Moment;
use crate::names::Name;
use crate::seq::Seq;
use crate::text::Text;

/// What a record holds in one field.
#[derive(Drop)]
pub enum Cell {
    Text(Text),
    Num(i64),
    Flag(bool),
    Date(Option<Moment>),
    /// The items of a select, in the held order.
    Picks(Seq<Text>),
    Json(Jv),
    /// The ids of a relation, in the held order.
    Refs(Seq<Id>),
}

/// The type of a field, with its options.
#[derive(Drop)]
pub enum Kind {
    /// Bounds are in characters.
    Text {
        min: u32,
        max: u32,
    },
    Number {
        min: Option<i64>,
        max: Option<i64>,
    },
    Flag,
    Date {
        min: Option<Moment>,
        max: Option<Moment>,
    },
    /// One or, where `most` is over 1, several of the values.
    Select {
        values: Seq<Text>,
        most: u32,
    },
    /// The bound is in bytes of the compact text.
    Json {
        max: u32,
    },
    /// One or, where `most` is over 1, several records of the target.
    /// With `cascade` a record goes when all that it refers to are deleted.
    Relation {
        target: Name,
        most: u32,
        cascade: bool,
    },
}

/// A field of a collection.
#[derive(Drop)]
pub struct Field {
    pub name: Name,
    pub kind: Kind,
    pub required: bool,
    pub hidden: bool,
    pub unique: bool,
}

/// Who may do a thing: nobody but the administrator, anyone, or those for whom a filter holds.
#[derive(Drop)]
pub enum Rule {
    Locked,
    Free,
    Filter(Text),
}

/// A collection: its name, its fields in order, and its five rules. Records of an auth collection can be callers.
#[derive(Drop)]
pub struct Collection {
    pub name: Name,
    pub is_auth: bool,
    pub fields: Seq<Field>,
    pub list_rule: Rule,
    pub view_rule: Rule,
    pub create_rule: Rule,
    pub update_rule: Rule,
    pub delete_rule: Rule,
}

/// A record, with one cell per field of its collection, in their order.
#[derive(Drop)]
pub struct Rec {
    pub id: Id,
    pub created: Moment,
    pub updated: Moment,
    pub cells: Seq<Cell>,
}
