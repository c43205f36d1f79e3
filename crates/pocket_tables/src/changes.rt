// One item put or cut at its key, and what stood there given back.
ghost use Rattle.std.specs.Prelude.{◌≡◌, ◌+◌, ◌≤◌, length, vec_capacity};
ghost use Rattle.std.specs.List.Sorted.{IsSearchInRange};
ghost use Rattle.pocket_types.specs.Order.{Rises};
ghost use Rattle.pocket_types.specs.World.{rec_of};
ghost use Rattle.pocket_tables.specs.Keyed.{find_key, places_taken, put_at};
ghost use Rattle.pocket_tables.specs.Places.{item_at, with_item_at};
ghost use Rattle.pocket_tables.specs.Worlds.{id_of, name_of};

use crate::finding::{place_of_collection, place_of_rec};
use pocket_types::{Collection, Id, Name, Rec};
use std::mem;

/// Puts an item where a search led, or cuts the one that stands there. Gives what stood there. There is room.
fn change_item<T: Drop>(
    items: &mut Vec<T>,
    place: Result<usize, usize>,
    after: Option<T>,
) -> Option<T>
    requires within { IsSearchInRange place (length items.old.items) }
    requires room { length items.old.items + places_taken after ≤ vec_capacity items.old }
    ensures items { items.new.items ≡ with_item_at items.old.items place after }
    ensures before { result ≡ item_at items.old.items place }
    ensures capacity { vec_capacity items.new ≡ vec_capacity items.old }
{
    match (place, after) {
        (Ok(at), Some(item)) => Some(mem::replace(&mut items[at], item)),
        (Ok(at), None) => Some(items.remove(at)),
        (Err(at), Some(item)) => {
            // it takes no memory, as there is room
            let _inserted = items.insert(at, item);
            None
        }
        (Err(_), None) => None,
    }
}

/// Puts a collection at a name, or cuts the one that stands there. Gives what stood there.
pub(crate) fn change_collection(
    collections: &mut Vec<Collection>,
    name: &Name,
    after: Option<Collection>,
) -> Option<Collection>
    requires rises { Rises name_of collections.old.items }
    requires room { length collections.old.items + places_taken after ≤ vec_capacity collections.old }
    ensures items { collections.new.items ≡ put_at name_of name.now after collections.old.items }
    ensures before { result ≡ find_key name_of name.now collections.old.items }
    ensures capacity { vec_capacity collections.new ≡ vec_capacity collections.old }
{
    let place = place_of_collection(collections.as_slice(), name);
    change_item(collections, place, after)
}

/// Puts a record at an id, or cuts the one that stands there. Gives what stood there.
pub(crate) fn change_rec(recs: &mut Vec<Rec>, id: Id, after: Option<Rec>) -> Option<Rec>
    requires rises { Rises id_of recs.old.items }
    requires room { length recs.old.items + places_taken after ≤ vec_capacity recs.old }
    ensures items { recs.new.items ≡ put_at id_of id after recs.old.items }
    ensures before { result ≡ rec_of id recs.old.items }
    ensures capacity { vec_capacity recs.new ≡ vec_capacity recs.old }
{
    let place = place_of_rec(recs.as_slice(), id);
    change_item(recs, place, after)
}
