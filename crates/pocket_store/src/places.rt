// Where keys stand among rows, and names among collections.
ghost use Rattle.std.specs.Prelude.{◌≡◌, ◌≢◌, All, IfOk, MatchBool, MatchOption};
ghost use Rattle.pocket_types.specs.Order.{Rises};
ghost use Rattle.pocket_keeper.specs.Rows.{IsRising};
ghost use Rattle.pocket_keeper.specs.Texts.{collection_key, rec_key};
ghost use Rattle.pocket_store.specs.Stores.{HasKey};
ghost use Rattle.pocket_store.specs.Reading.{IsPlaceOf};

use pocket_keeper::{KeptRow, collection_key, rec_key};
use pocket_types::{Collection, Text};
use std::alloc::{AllocError, Global};

/// Whether a row of the key stands among the rows.
fn has_key(rows: &[KeptRow], key: &Text) -> bool
    requires { IsRising rows.now }
    ensures { MatchBool result (HasKey rows.now key.now) (¬ HasKey rows.now key.now) }
{
    match rows.binary_search_by(|row| row.key.cmp(key)) {
        Ok(_) => true,
        Err(_) => false,
    }
}

/// Where the collection of a name stands.
pub(crate) fn place_of(collections: &[Collection], name: &str) -> Option<usize>
    requires { Rises (λ c. c.name) collections.now }
    ensures { MatchOption result (All (λ c. c.name ≢ name.now) collections.now) (IsPlaceOf collections.now name.now) }
{
    match collections.binary_search_by(|collection| collection.name.as_str().cmp(name)) {
        Ok(at) => Some(at),
        Err(_) => None,
    }
}

/// Whether the collection of a name has a row.
pub(crate) fn has_collection(
    alloc: Global,
    rows: &[KeptRow],
    name: &str,
) -> Result<bool, AllocError>
    requires { IsRising rows.now }
    ensures { IfOk result (λ there. MatchBool there (HasKey rows.now (collection_key name.now)) (¬ HasKey rows.now (collection_key name.now))) }
{
    let key = collection_key(alloc, name)?;
    Ok(has_key(rows, &key))
}

/// Whether the record of a collection and an id has a row.
pub(crate) fn has_rec(
    alloc: Global,
    rows: &[KeptRow],
    name: &str,
    id: &str,
) -> Result<bool, AllocError>
    requires { IsRising rows.now }
    ensures { IfOk result (λ there. MatchBool there (HasKey rows.now (rec_key name.now id.now)) (¬ HasKey rows.now (rec_key name.now id.now))) }
{
    let key = rec_key(alloc, name, id)?;
    Ok(has_key(rows, &key))
}
