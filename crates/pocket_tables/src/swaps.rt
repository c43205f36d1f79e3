// All changes of a delta, each made in place: what stood there takes the place of what is put, so that the delta becomes its inverse.
ghost use Rattle.std.specs.Prelude.{◌≡◌, ◌+◌, ◌≤◌, ℕ, List, map, length, All, IfSome, vec_capacity};
ghost use Rattle.pocket_types.specs.Order.{Rises};
ghost use Rattle.pocket_types.specs.World.{rec_of};
ghost use Rattle.pocket_tables.specs.Deltas.{rec_back, rec_changes, shelf_back, shelf_changes};
ghost use Rattle.pocket_tables.specs.Drawers.{AreRising, HasRecPlaces, drawer_name, recs_in, room_of};
ghost use Rattle.pocket_tables.specs.Keyed.{AtDistinctKeys, find_key, places_taken, places_wanted, put_all, put_at};
ghost use Rattle.pocket_tables.specs.Kept.{places_at};
ghost use Rattle.pocket_tables.specs.Swaps.{AreSwapped, CanSwap, IsSwapped};
ghost use Rattle.pocket_tables.specs.Worlds.{id_of, name_of};

use crate::changes::{change_collection, change_rec};
use crate::drawers::Drawer;
use crate::finding::place_of_drawer;
use pocket_types::{Collection, Delta, RecChange, Seq, ShelfChange};

fn swap_shelf(collections: &mut Vec<Collection>, change: &mut ShelfChange)
    requires rises { Rises name_of collections.old.items }
    requires room { length collections.old.items + places_taken change.old.after ≤ vec_capacity collections.old }
    ensures items { collections.new.items ≡ put_at name_of change.old.name change.old.after collections.old.items }
    ensures change { change.new ≡ record change.old { after = find_key name_of change.old.name collections.old.items } }
    ensures capacity { vec_capacity collections.new ≡ vec_capacity collections.old }
{
    let after = change.after.take();
    change.after = change_collection(collections, &change.name, after);
}

fn swap_shelves(collections: &mut Vec<Collection>, changes: &mut [ShelfChange])
    requires rises { Rises name_of collections.old.items }
    requires distinct { AtDistinctKeys (shelf_changes changes.old) }
    requires named { All (λ c. IfSome c.after (λ k. k.name ≡ c.name)) changes.old }
    requires room { length collections.old.items + places_wanted (shelf_changes changes.old) ≤ vec_capacity collections.old }
    ensures items { collections.new.items ≡ put_all name_of (shelf_changes changes.old) collections.old.items }
    ensures changes { changes.new ≡ map (shelf_back (λ name. find_key name_of name collections.old.items)) changes.old }
    ensures capacity { vec_capacity collections.new ≡ vec_capacity collections.old }
{
    for change in changes.iter_mut() {
        swap_shelf(collections, change);
    }
}

fn swap_rec(drawers: &mut [Drawer], change: &mut RecChange)
    requires rising { AreRising drawers.old }
    requires room { length (recs_in drawers.old change.old.collection) + places_taken change.old.after ≤ places_at (map room_of drawers.old) change.old.collection }
    ensures swapped { IsSwapped drawers.old drawers.new change.old }
    ensures change { change.new ≡ record change.old { after = rec_of change.old.id (recs_in drawers.old change.old.collection) } }
{
    let after = change.after.take();
    if let Ok(at) = place_of_drawer(drawers, &change.collection) {
        change.after = change_rec(&mut drawers[at].recs, change.id, after);
    }
}

fn swap_recs(drawers: &mut [Drawer], changes: &mut [RecChange])
    requires rising { AreRising drawers.old }
    requires distinct { (name : List ℕ) → AtDistinctKeys (rec_changes changes.old name) }
    requires numbered { All (λ c. IfSome c.after (λ r. r.id ≡ c.id)) changes.old }
    requires room { HasRecPlaces drawers.old changes.old }
    ensures recs { (name : List ℕ) → recs_in drawers.new name ≡ put_all id_of (rec_changes changes.old name) (recs_in drawers.old name) }
    ensures rooms { map room_of drawers.new ≡ map room_of drawers.old }
    ensures names { Rises drawer_name drawers.new }
    ensures changes { changes.new ≡ map (rec_back (λ name id. rec_of id (recs_in drawers.old name))) changes.old }
{
    for change in changes.iter_mut() {
        swap_rec(drawers, change);
    }
}

/// Makes all changes of a delta, and gives the delta that undoes them.
pub(crate) fn swap_all(
    collections: &mut Vec<Collection>,
    drawers: &mut Vec<Drawer>,
    delta: Delta,
) -> Delta
    requires { CanSwap collections.old.items drawers.old.items (vec_capacity collections.old) delta }
    ensures swapped { AreSwapped collections.old.items collections.new.items drawers.old.items drawers.new.items delta result }
    ensures capacity { vec_capacity collections.new ≡ vec_capacity collections.old }
{
    let Delta { shelves, recs } = delta;
    let mut shelves = shelves.into_vec();
    let mut recs = recs.into_vec();
    swap_shelves(collections, shelves.as_mut_slice());
    swap_recs(drawers.as_mut_slice(), recs.as_mut_slice());
    Delta {
        shelves: Seq::from_vec(shelves),
        recs: Seq::from_vec(recs),
    }
}
