// The fields of records, and the ids that their cells hold.
ghost use Rattle.std.specs.Prelude.{◌≡◌, zip, find, option_map};
ghost use Rattle.std.specs.Str.{bytes_eq};
ghost use Rattle.pocket_ops.specs.Fields.{field_at, ids_of};

use pocket_types::{Cell, Collection, Field, Id, Name, Rec};

/// The first field of a name, with its cell.
fn field_among<'a>(
    fields: &'a [Field],
    cells: &'a [Cell],
    name: &Name,
) -> Option<(&'a Field, &'a Cell)>
    ensures { option_map (λ x. (x.0.now, x.1.now)) result ≡ find (λ x. bytes_eq x.0.name name.now) (zip fields.now cells.now) }
{
    match fields {
        [] => None,
        [field, fields @ ..] => match cells {
            [] => None,
            [cell, cells @ ..] => {
                if field.name == *name {
                    Some((field, cell))
                } else {
                    field_among(fields, cells, name)
                }
            }
        },
    }
}

/// A field of a record, with its cell.
pub fn field_of<'a>(
    collection: &'a Collection,
    rec: &'a Rec,
    name: &Name,
) -> Option<(&'a Field, &'a Cell)>
    ensures { option_map (λ x. (x.0.now, x.1.now)) result ≡ field_at collection.now rec.now name.now }
{
    field_among(collection.fields.as_slice(), rec.cells.as_slice(), name)
}

/// The ids that a cell holds.
pub fn ids_in(cell: &Cell) -> &[Id]
    ensures { result.now ≡ ids_of cell.now }
{
    match cell {
        Cell::Refs(ids) => ids.as_slice(),
        _ => &[],
    }
}
