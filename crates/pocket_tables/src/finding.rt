// Where names and ids stand, by binary search.
ghost use Rattle.std.specs.Prelude.{◌≡◌};
ghost use Rattle.std.specs.Option.{option_copied};
ghost use Rattle.pocket_types.specs.Order.{Rises};
ghost use Rattle.pocket_tables.specs.Drawers.{drawer_name, recs_in};
ghost use Rattle.pocket_tables.specs.Keyed.{find_key};
ghost use Rattle.pocket_tables.specs.Places.{IsPlaceOf};
ghost use Rattle.pocket_tables.specs.Worlds.{id_of, name_of};

use crate::drawers::Drawer;
use pocket_types::{Collection, Id, Name, Rec};

/// Where a collection's name stands, or belongs.
pub(crate) fn place_of_collection(collections: &[Collection], name: &Name) -> Result<usize, usize>
    requires { Rises name_of collections.now }
    ensures { IsPlaceOf name_of name.now collections.now result }
{
    collections.binary_search_by(|collection| collection.name.cmp(name))
}

/// Where a drawer's name stands, or belongs.
pub(crate) fn place_of_drawer(drawers: &[Drawer], name: &Name) -> Result<usize, usize>
    requires { Rises drawer_name drawers.now }
    ensures { IsPlaceOf drawer_name name.now drawers.now result }
{
    drawers.binary_search_by(|drawer| drawer.name.cmp(name))
}

/// Where a record's id stands, or belongs.
pub(crate) fn place_of_rec(recs: &[Rec], id: Id) -> Result<usize, usize>
    requires { Rises id_of recs.now }
    ensures { IsPlaceOf id_of id recs.now result }
{
    recs.binary_search_by(|rec| rec.id.cmp(&id))
}

/// The collection of a name.
pub(crate) fn collection_under<'a>(
    collections: &'a [Collection],
    name: &Name,
) -> Option<&'a Collection>
    requires { Rises name_of collections.now }
    ensures { option_copied result ≡ find_key name_of name.now collections.now }
{
    match place_of_collection(collections, name) {
        Ok(at) => collections.get(at),
        Err(_) => None,
    }
}

/// The records of a name.
pub(crate) fn recs_under<'a>(drawers: &'a [Drawer], name: &Name) -> &'a [Rec]
    requires { Rises drawer_name drawers.now }
    ensures { result.now ≡ recs_in drawers.now name.now }
{
    match place_of_drawer(drawers, name) {
        Ok(at) => drawers[at].recs.as_slice(),
        Err(_) => &[],
    }
}
