// Fields of records.
ghost use Rattle.std.specs.Prelude.{◌≡◌, ◌&&◌, MatchBool};
ghost use Rattle.std.specs.List.{list_any};
ghost use Rattle.std.specs.Str.{bytes_eq};
ghost use Rattle.pocket_types.specs.Kinds.{is_multiple};
ghost use Rattle.pocket_tables.specs.Reads.{IsSingle, holds_id};

use pocket_ops::{field_of, ids_in};
use pocket_types::{Collection, Field, Id, Name, Rec};

/// Whether a field is of this name and may hold several items.
fn is_several(field: &Field, name: &Name) -> bool
    ensures { result ≡ (bytes_eq field.now.name name.now && is_multiple field.now.kind) }
{
    let named = field.name == *name;
    let several = field.kind.is_multiple();
    named && several
}

/// Whether no field of this name may hold several items, so that records can be looked for by its value.
pub fn is_single(collection: &Collection, name: &Name) -> bool
    ensures { MatchBool result (IsSingle collection.now name.now) (¬ IsSingle collection.now name.now) }
{
    !collection
        .fields
        .iter()
        .any(|field| is_several(field, name))
}

fn is_among(ids: &[Id], id: Id) -> bool
    ensures { result ≡ list_any (λ held. bytes_eq held id) ids.now }
{
    ids.iter().any(|held| *held == id)
}

/// Whether a record's field holds an id.
pub(crate) fn holds(collection: &Collection, field: &Name, id: Id, rec: &Rec) -> bool
    ensures { result ≡ holds_id collection.now field.now id rec.now }
{
    match field_of(collection, rec, field) {
        Some((_, cell)) => is_among(ids_in(cell), id),
        None => false,
    }
}
