// What holds of every typed filter. Each law is a function without a body.
ghost use Rattle.pocket_standing.specs.Laws.{PrefixesStand, TypedSidesFind};

/// A prefix that stands at a place has chosen nobody or a record of that place, in every choice.
pub fn prefixes_stand_at_their_places()
    ensures { PrefixesStand }
{}

/// Each side of a typed filter finds what it asks for, in every choice: nobody, or a record with the field and a cell that fits it,
/// of a kind that suits the modifier. Only the caller's own collection may lack the field, where auth collections differ. What was
/// sent is for the field of the home collection that the filter names.
pub fn typed_filters_find_their_fields()
    ensures { TypedSidesFind }
{}
