// Reads among the records of one collection, which rise by id.
ghost use Rattle.std.specs.Prelude.{◌≡◌, filter, find};
ghost use Rattle.std.specs.Option.{option_copied};
ghost use Rattle.pocket_types.specs.Order.{Rises};
ghost use Rattle.pocket_types.specs.World.{rec_of};
ghost use Rattle.pocket_tables.specs.Reads.{IsSingle, first_above, has_value, holds_id, is_above};
ghost use Rattle.pocket_tables.specs.Worlds.{id_of};

use crate::fields::holds;
use crate::finding::place_of_rec;
use crate::values::equals_at;
use pocket_types::{Collection, Id, Name, Rec, Value};

/// The record of an id.
pub(crate) fn rec_among(recs: &[Rec], id: Id) -> Option<&Rec>
    requires { Rises id_of recs.now }
    ensures { option_copied result ≡ rec_of id recs.now }
{
    match place_of_rec(recs, id) {
        Ok(at) => recs.get(at),
        Err(_) => None,
    }
}

/// The records above an id.
fn recs_above(recs: &[Rec], after: Option<Id>) -> &[Rec]
    requires { Rises id_of recs.now }
    ensures { result.now ≡ filter (is_above after) recs.now }
{
    match after {
        None => recs,
        Some(id) => match place_of_rec(recs, id) {
            Ok(at) => &recs[at + 1..],
            Err(at) => &recs[at..],
        },
    }
}

/// The first record above an id.
pub(crate) fn next_above(recs: &[Rec], after: Option<Id>) -> Option<&Rec>
    requires { Rises id_of recs.now }
    ensures { option_copied result ≡ first_above after recs.now }
{
    recs_above(recs, after).first()
}

/// The first record whose field holds an id.
fn first_referrer<'a>(
    collection: &Collection,
    recs: &'a [Rec],
    field: &Name,
    target: Id,
) -> Option<&'a Rec>
    ensures { option_copied result ≡ find (holds_id collection.now field.now target) recs.now }
{
    recs.iter()
        .find(|rec| holds(collection, field, target, rec))
}

/// The first record above an id whose field holds another id.
pub(crate) fn next_referrer<'a>(
    collection: &Collection,
    recs: &'a [Rec],
    field: &Name,
    target: Id,
    after: Option<Id>,
) -> Option<&'a Rec>
    requires { Rises id_of recs.now }
    ensures { option_copied result ≡ first_above after (filter (holds_id collection.now field.now target) recs.now) }
{
    first_referrer(collection, recs_above(recs, after), field, target)
}

/// The first record whose field compares equal to a value.
fn first_match<'a>(
    collection: &Collection,
    recs: &'a [Rec],
    field: &Name,
    value: &Value,
) -> Option<&'a Rec>
    requires { IsSingle collection.now field.now }
    ensures { option_copied result ≡ find (has_value collection.now field.now value.now) recs.now }
{
    recs.iter()
        .find(|rec| equals_at(collection, field, value, rec))
}

/// The first record above an id whose field compares equal to a value.
pub(crate) fn next_match<'a>(
    collection: &Collection,
    recs: &'a [Rec],
    field: &Name,
    value: &Value,
    after: Option<Id>,
) -> Option<&'a Rec>
    requires rises { Rises id_of recs.now }
    requires single { IsSingle collection.now field.now }
    ensures { option_copied result ≡ first_above after (filter (has_value collection.now field.now value.now) recs.now) }
{
    first_match(collection, recs_above(recs, after), field, value)
}
