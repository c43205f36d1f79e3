use crate::ids::Id;
use crate::names::Name;
use crate::records::{Collection, Rec};
use crate::seq::Seq;

/// What stands at a collection's name afterwards. None where the collection goes.
#[derive(Drop)]
pub struct ShelfChange {
    pub name: Name,
    pub after: Option<Collection>,
}

/// What stands at a record's id afterwards. None where the record goes.
#[derive(Drop)]
pub struct RecChange {
    pub collection: Name,
    pub id: Id,
    pub after: Option<Rec>,
}

/// Collections and records that are put or cut, all at once.
#[derive(Drop)]
pub struct Delta {
    pub shelves: Seq<ShelfChange>,
    pub recs: Seq<RecChange>,
}
