ghost use Rattle.std.specs.Prelude.{◌≡◌};

use crate::ids::Id;
use crate::names::Name;
use crate::records::{Collection, Rec};
use crate::seq::Seq;

/// A collection with its records, rising by id.
#[derive(Drop)]
pub struct Shelf {
    pub collection: Collection,
    pub recs: Seq<Rec>,
}

/// All collections with their records, rising by name.
#[derive(Drop)]
pub struct World {
    pub shelves: Seq<Shelf>,
}

/// A collection with its records, lent by whoever keeps them.
#[derive(Clone, Copy, Drop)]
pub struct LentShelf<'w> {
    pub collection: &'w Collection,
    pub recs: &'w [Rec],
}

impl World {
    ghost use Rattle.std.specs.Option.{option_copied};
    ghost use Rattle.pocket_types.specs.World.{shelf_named};

    /// The shelf of a collection. None exactly where there is no such collection.
    pub fn shelf(&self, name: &Name) -> Option<&Shelf>
        ensures { option_copied result ≡ shelf_named name.now self.now.shelves }
    {
        self.shelves
            .iter()
            .find(|shelf| shelf.collection.name == *name)
    }
}

impl Shelf {
    ghost use Rattle.std.specs.Option.{option_copied};
    ghost use Rattle.pocket_types.specs.World.{rec_of};

    /// The record of an id. None exactly where there is no such record.
    pub fn rec(&self, id: Id) -> Option<&Rec>
        ensures { option_copied result ≡ rec_of id self.now.recs }
    {
        self.recs.iter().find(|rec| rec.id == id)
    }
}
