// Places for what a delta puts.
ghost use Rattle.std.specs.Prelude.{◌≡◌, ◌+◌, ◌≤◌, length, OnOk, vec_capacity};
ghost use Rattle.pocket_types.specs.Order.{Rises};
ghost use Rattle.pocket_tables.specs.Deltas.{rec_changes, shelf_changes};
ghost use Rattle.pocket_tables.specs.Drawers.{AreNoSmaller, HasDrawer, HasRecPlaces, HaveDrawers, drawer_name};
ghost use Rattle.pocket_tables.specs.Keyed.{places_wanted};

use crate::drawers::Drawer;
use crate::finding::place_of_drawer;
use pocket_types::{Collection, Delta, Name, RecChange, ShelfChange};
use std::alloc::{AllocError, Global};

/// How many collections are put.
fn shelves_put(changes: &[ShelfChange]) -> usize
    ensures { result ≡ places_wanted (shelf_changes changes.now) }
{
    let mut count = 0;
    for change in changes {
        if change.after.is_some() {
            count += 1;
        }
    }
    count
}

/// How many records of a name are put.
fn recs_put(changes: &[RecChange], name: &Name) -> usize
    ensures { result ≡ places_wanted (rec_changes changes.now name.now) }
{
    let mut count = 0;
    for change in changes {
        if change.collection == *name && change.after.is_some() {
            count += 1;
        }
    }
    count
}

/// Adds an empty drawer for a name that has none.
fn add_drawer(alloc: Global, drawers: &mut Vec<Drawer>, name: &Name) -> Result<(), AllocError>
    requires { Rises drawer_name drawers.old.items }
    ensures kept { AreNoSmaller drawers.old.items drawers.new.items }
    ensures there { OnOk result (HasDrawer drawers.new.items name.now) }
{
    if let Err(at) = place_of_drawer(drawers.as_slice(), name) {
        let name = name.clone()?;
        let recs = Vec::new(alloc);
        drawers.insert(at, Drawer { name, recs })?;
    }
    Ok(())
}

/// Adds a drawer for each name under which a record is put.
fn add_drawers(
    alloc: Global,
    drawers: &mut Vec<Drawer>,
    changes: &[RecChange],
) -> Result<(), AllocError>
    requires { Rises drawer_name drawers.old.items }
    ensures kept { AreNoSmaller drawers.old.items drawers.new.items }
    ensures there { OnOk result (HaveDrawers drawers.new.items changes.now) }
{
    for change in changes {
        if change.after.is_some() {
            add_drawer(alloc, drawers, &change.collection)?;
        }
    }
    Ok(())
}

/// Makes room in each drawer for the records that are put under its name.
fn make_room(drawers: &mut [Drawer], changes: &[RecChange]) -> Result<(), AllocError>
    requires rising { Rises drawer_name drawers.old }
    requires there { HaveDrawers drawers.old changes.now }
    ensures kept { AreNoSmaller drawers.old drawers.new }
    ensures room { OnOk result (HasRecPlaces drawers.new changes.now) }
{
    for i in 0..drawers.len() {
        let wanted = recs_put(changes, &drawers[i].name);
        drawers[i].recs.reserve(wanted)?;
    }
    Ok(())
}

/// Prepares a place for each record that is put.
fn reserve_recs(
    alloc: Global,
    drawers: &mut Vec<Drawer>,
    changes: &[RecChange],
) -> Result<(), AllocError>
    requires { Rises drawer_name drawers.old.items }
    ensures kept { AreNoSmaller drawers.old.items drawers.new.items }
    ensures room { OnOk result (HasRecPlaces drawers.new.items changes.now) }
{
    add_drawers(alloc, drawers, changes)?;
    make_room(drawers.as_mut_slice(), changes)
}

/// Prepares a place for each collection and each record that is put.
pub(crate) fn reserve_all(
    alloc: Global,
    collections: &mut Vec<Collection>,
    drawers: &mut Vec<Drawer>,
    delta: &Delta,
) -> Result<(), AllocError>
    requires { Rises drawer_name drawers.old.items }
    ensures collections { collections.new.items ≡ collections.old.items }
    ensures capacity { vec_capacity collections.old ≤ vec_capacity collections.new }
    ensures kept { AreNoSmaller drawers.old.items drawers.new.items }
    ensures shelf_room { OnOk result (length collections.new.items + places_wanted (shelf_changes delta.now.shelves) ≤ vec_capacity collections.new) }
    ensures rec_room { OnOk result (HasRecPlaces drawers.new.items delta.now.recs) }
{
    collections.reserve(shelves_put(delta.shelves.as_slice()))?;
    reserve_recs(alloc, drawers, delta.recs.as_slice())
}
