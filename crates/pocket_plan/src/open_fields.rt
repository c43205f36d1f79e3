// Fields that aren't hidden.
ghost use Rattle.std.specs.Prelude.{◌≡◌, ◌&&◌, find, option_map, zip};
ghost use Rattle.std.specs.Option.{option_copied};
ghost use Rattle.std.specs.Str.{bytes_eq};
ghost use Rattle.pocket_plan.specs.Cutting.{is_open};
ghost use Rattle.pocket_plan.specs.Guarding.{open_field_at, open_points_to};

use pocket_meaning::does_refer;
use pocket_types::{Cell, Collection, Field, Id, Name, Rec};

/// The first field of a name that isn't hidden, with its cell.
fn open_field_among<'a>(
    fields: &'a [Field],
    cells: &'a [Cell],
    name: &Name,
) -> Option<(&'a Field, &'a Cell)>
    ensures { option_map (λ x. (x.0.now, x.1.now)) result ≡ find (λ x. is_open x.0 && bytes_eq x.0.name name.now) (zip fields.now cells.now) }
{
    match fields {
        [] => None,
        [field, fields @ ..] => match cells {
            [] => None,
            [cell, cells @ ..] => {
                if !field.hidden && field.name == *name {
                    Some((field, cell))
                } else {
                    open_field_among(fields, cells, name)
                }
            }
        },
    }
}

/// A field of a record that isn't hidden, with its cell.
pub fn open_field_of<'a>(
    collection: &'a Collection,
    rec: &'a Rec,
    name: &Name,
) -> Option<(&'a Field, &'a Cell)>
    ensures { option_map (λ x. (x.0.now, x.1.now)) result ≡ open_field_at collection.now rec.now name.now }
{
    open_field_among(collection.fields.as_slice(), rec.cells.as_slice(), name)
}

/// The field of a name that isn't hidden.
pub fn open_field_named<'a>(fields: &'a [Field], name: &Name) -> Option<&'a Field>
    ensures { option_copied result ≡ find (λ x. is_open x && bytes_eq x.name name.now) fields.now }
{
    fields
        .iter()
        .find(|field| !field.hidden && field.name == *name)
}

/// Whether a record's field that isn't hidden refers to the record of a collection and an id.
pub fn does_point_openly(
    collection: &Collection,
    rec: &Rec,
    field: &Name,
    name: &Name,
    id: Id,
) -> bool
    ensures { result ≡ open_points_to collection.now field.now name.now id rec.now }
{
    match open_field_of(collection, rec, field) {
        Some((field, cell)) => does_refer(field, cell, name, id),
        None => false,
    }
}
