// Collections and fields: which there are, and of what kind a field is.
ghost use Rattle.std.specs.Prelude.{◌≡◌, true, filter_map};
ghost use Rattle.std.specs.List.{list_all};
ghost use Rattle.std.specs.Option.{option_map_or};
ghost use Rattle.std.specs.Option.{option_copied};
ghost use Rattle.pocket_types.specs.Kinds.{is_multiple, target_of};
ghost use Rattle.pocket_resolve.specs.Fields as fields;

use pocket_types::{Collection, Field, Kind};

/// The collection of a name.
pub fn collection_named<'a>(collections: &'a [Collection], name: &str) -> Option<&'a Collection>
    ensures { option_copied result ≡ fields.collection_named collections.now name.now }
{
    collections
        .iter()
        .find(|collection| collection.name.as_str() == name)
}

/// The field of a name.
pub fn field_named<'a>(collection: &'a Collection, name: &str) -> Option<&'a Field>
    ensures { option_copied result ≡ fields.field_named collection.now name.now }
{
    collection
        .fields
        .as_slice()
        .iter()
        .find(|field| field.name.as_str() == name)
}

/// Whether `:lower` stands on a field.
pub fn has_letters(kind: &Kind) -> bool
    ensures { result ≡ fields.has_letters kind.now }
{
    match kind {
        Kind::Text { .. } => true,
        Kind::Select { most, .. } => *most <= 1,
        _ => false,
    }
}

fn are_of_one_type(a: &Kind, b: &Kind) -> bool
    ensures { result ≡ fields.same_type a.now b.now }
{
    matches!(
        (a, b),
        (Kind::Text { .. }, Kind::Text { .. })
            | (Kind::Number { .. }, Kind::Number { .. })
            | (Kind::Flag, Kind::Flag)
            | (Kind::Date { .. }, Kind::Date { .. })
            | (Kind::Select { .. }, Kind::Select { .. })
            | (Kind::Json { .. }, Kind::Json { .. })
            | (Kind::Relation { .. }, Kind::Relation { .. })
    )
}

fn lead_to_one_target(a: &Kind, b: &Kind) -> bool
    ensures { result ≡ fields.same_target (target_of a.now) (target_of b.now) }
{
    match (a.target(), b.target()) {
        (Some(a), Some(b)) => a == b,
        (None, None) => true,
        _ => false,
    }
}

fn are_alike_multiple(a: &Kind, b: &Kind) -> bool
    ensures { result ≡ fields.same_answer (is_multiple a.now) (is_multiple b.now) }
{
    a.is_multiple() == b.is_multiple()
}

/// Whether two fields have the same type, target and multiplicity.
fn is_like(a: &Kind, b: &Kind) -> bool
    ensures { result ≡ fields.is_like a.now b.now }
{
    let types = are_of_one_type(a, b);
    let multiple = are_alike_multiple(a, b);
    let targets = lead_to_one_target(a, b);
    types && multiple && targets
}

/// The field of a name, where the collection is an auth collection.
fn auth_field<'a>(collection: &'a Collection, name: &str) -> Option<&'a Field>
    ensures { option_copied result ≡ fields.auth_field name.now collection.now }
{
    if collection.is_auth {
        field_named(collection, name)
    } else {
        None
    }
}

/// Whether a collection holds a field alike, or holds none that a caller may have.
fn holds_alike(kind: &Kind, collection: &Collection, name: &str) -> bool
    ensures { result ≡ option_map_or (λ g. fields.is_like kind.now g.kind) (fields.auth_field name.now collection.now) true }
{
    match auth_field(collection, name) {
        Some(field) => is_like(kind, &field.kind),
        None => true,
    }
}

/// Whether all auth collections that have a field hold it alike.
fn all_hold_alike(kind: &Kind, collections: &[Collection], name: &str) -> bool
    ensures { result ≡ list_all (λ c. option_map_or (λ g. fields.is_like kind.now g.kind) (fields.auth_field name.now c) true) collections.now }
{
    collections
        .iter()
        .all(|collection| holds_alike(kind, collection, name))
}

/// The field of a name in the first auth collection that has it.
fn first_auth_field<'a>(collections: &'a [Collection], name: &str) -> Option<&'a Field>
    ensures { option_copied result ≡ fields.first (filter_map (fields.auth_field name.now) collections.now) }
{
    for collection in collections {
        if let Some(field) = auth_field(collection, name) {
            return Some(field);
        }
    }
    None
}

/// A field of the caller's record: one that every auth collection that has it holds alike.
#[tactic(auto, using(crate::proofs::FieldLemmas::all_given), unfolding(crate::specs::Fields::caller_field))]
pub fn caller_field<'a>(collections: &'a [Collection], name: &str) -> Option<&'a Field>
    ensures { option_copied result ≡ fields.caller_field collections.now name.now }
{
    match first_auth_field(collections, name) {
        Some(field) => {
            if all_hold_alike(&field.kind, collections, name) {
                Some(field)
            } else {
                None
            }
        }
        None => None,
    }
}
