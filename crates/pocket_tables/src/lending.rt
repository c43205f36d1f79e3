// A world lent shelf by shelf.
ghost use Rattle.std.specs.Prelude.{◌≡◌, IfOk};
ghost use Rattle.pocket_types.specs.Order.{Rises};
ghost use Rattle.pocket_types.specs.World.{lent_world};
ghost use Rattle.pocket_tables.specs.Drawers.{drawer_name};
ghost use Rattle.pocket_tables.specs.Inside.{world_of};

use crate::drawers::Drawer;
use crate::finding::recs_under;
use pocket_types::{Collection, LentShelf};
use std::alloc::{AllocError, Global};

/// Each collection with the records of its name.
pub(crate) fn lent_shelves<'w>(
    alloc: Global,
    collections: &'w [Collection],
    drawers: &'w [Drawer],
) -> Result<Vec<LentShelf<'w>>, AllocError>
    requires { Rises drawer_name drawers.now }
    ensures { IfOk result (λ shelves. lent_world shelves.items ≡ world_of collections.now drawers.now) }
{
    let mut shelves = Vec::new(alloc);
    for collection in collections {
        let recs = recs_under(drawers, &collection.name);
        shelves.push(LentShelf { collection, recs })?;
    }
    Ok(shelves)
}
