// A world taken apart.
ghost use Rattle.std.specs.Prelude.{◌≡◌, IfOk};
ghost use Rattle.pocket_tables.specs.Parts.{ArePartsOf};

use crate::drawers::Drawer;
use pocket_types::{Collection, Shelf, World};
use std::alloc::{AllocError, Global};

/// The collections of a world, and a drawer for the records of each.
pub(crate) fn parts_of(
    alloc: Global,
    world: World,
) -> Result<(Vec<Collection>, Vec<Drawer>), AllocError>
    ensures { IfOk result (λ parts. ArePartsOf parts.0.items parts.1.items world.shelves) }
{
    let mut collections = Vec::new(alloc);
    let mut drawers = Vec::new(alloc);
    for shelf in world.shelves.into_vec() {
        let Shelf { collection, recs } = shelf;
        let name = collection.name.clone()?;
        collections.push(collection)?;
        drawers.push(Drawer {
            name,
            recs: recs.into_vec(),
        })?;
    }
    Ok((collections, drawers))
}
