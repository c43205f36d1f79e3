// Where a path stands, and what it is resolved against.
ghost use Rattle.std.specs.Prelude.{◌≡◌};
ghost use Rattle.std.specs.Option.{option_copied};
ghost use Rattle.pocket_resolve.specs.Paths as paths;
ghost use Rattle.pocket_resolve.specs.Seen.{place_of};

use crate::fields::{caller_field, collection_named, field_named};
use crate::names::is_built_in;
use pocket_types::{Collection, Field, Kind, Name};

/// What one side of a comparison is resolved against.
#[derive(Clone, Copy)]
pub struct Setting<'a> {
    pub collections: &'a [Collection],
    /// The collection of the records that the filter is asked of.
    pub home: &'a Name,
    /// Whether the filter is a client's who isn't the administrator.
    pub guarded: bool,
    /// The number of the operand, counted from 0 from the left.
    pub operand: u32,
    /// Whether the operator has a `?`.
    pub any: bool,
}

/// Where a path stands.
#[derive(Clone, Copy)]
pub enum Place<'a> {
    /// At a record of a collection.
    Of(&'a Collection),
    /// At the caller's record, in whichever auth collection.
    Caller,
    /// At a record of a collection that isn't there.
    Nowhere,
}

/// The place of a collection's records.
pub fn place_named<'a>(collections: &'a [Collection], name: &str) -> Place<'a>
    ensures { place_of result ≡ paths.place_named collections.now name.now }
{
    match collection_named(collections, name) {
        Some(collection) => Place::Of(collection),
        None => Place::Nowhere,
    }
}

/// Whether a name is one that every record of a place has.
pub fn has_built_in(place: Place<'_>, name: &str) -> bool
    ensures { result ≡ paths.has_built_in (place_of place.entry) name.now }
{
    match place {
        Place::Nowhere => false,
        _ => is_built_in(name),
    }
}

/// A field of the records of a place.
pub fn field_at<'a>(
    collections: &'a [Collection],
    place: Place<'a>,
    name: &str,
) -> Option<&'a Field>
    ensures { option_copied result ≡ paths.field_at collections.now (place_of place.entry) name.now }
{
    match place {
        Place::Of(collection) => field_named(collection, name),
        Place::Caller => caller_field(collections, name),
        Place::Nowhere => None,
    }
}

fn is_auth_named(collections: &[Collection], name: &Name) -> bool
    ensures { result ≡ paths.may_stand_in collections.now paths.Caller name.now }
{
    collections.iter().any(|collection| collection.is_auth && collection.name == *name)
}

/// Whether records of a place may stand in a collection.
fn may_be_in(collections: &[Collection], place: Place<'_>, name: &Name) -> bool
    ensures { result ≡ paths.may_stand_in collections.now (place_of place.entry) name.now }
{
    match place {
        Place::Of(collection) => collection.name == *name,
        Place::Caller => is_auth_named(collections, name),
        Place::Nowhere => false,
    }
}

/// Whether a field is a relation to records of a place.
pub fn is_relation_to(collections: &[Collection], place: Place<'_>, kind: &Kind) -> bool
    ensures { result ≡ paths.leads_to collections.now (place_of place.entry) kind.now }
{
    match kind.target() {
        Some(name) => may_be_in(collections, place, name),
        None => false,
    }
}
