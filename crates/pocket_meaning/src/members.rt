ghost use Rattle.std.specs.Prelude.{◌≡◌, IfOk};
ghost use Rattle.pocket_types.specs.World.{lent_world};

use pocket_types::{Ask, Collection, LentShelf, Name, Prefix, Rec, World};
use std::alloc::{AllocError, Global};

/// What a path leads to, lent by the world or the request.
#[derive(Clone, Copy, Drop)]
pub enum Member<'w> {
    Nobody,
    Record(&'w Collection, &'w Rec),
    Item(&'w str),
    Sent,
}

/// A prefix with what it has chosen.
#[derive(Clone, Copy, Drop)]
pub struct Chosen<'p, 'w> {
    pub prefix: &'p Prefix,
    pub member: Member<'w>,
}

/// What a filter is judged in: the shelves of a world, a request, and the record with the name of its collection.
#[derive(Clone, Copy, Drop)]
pub struct Scene<'s, 'w> {
    pub shelves: &'s [LentShelf<'w>],
    pub ask: &'w Ask,
    pub home: &'w Name,
    pub rec: &'w Rec,
}

/// The shelves of a world, lent.
pub fn lent_shelves<'w>(alloc: Global, world: &'w World) -> Result<Vec<LentShelf<'w>>, AllocError>
    ensures { IfOk result (λ v. lent_world v.items ≡ world.now) }
{
    let mut shelves = Vec::new(alloc);
    for shelf in world.shelves.as_slice() {
        shelves.push(LentShelf {
            collection: &shelf.collection,
            recs: shelf.recs.as_slice(),
        })?;
    }
    Ok(shelves)
}
