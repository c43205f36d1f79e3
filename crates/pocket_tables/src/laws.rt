// What follows from the definitions. Each law is a function without a body.
ghost use Rattle.pocket_tables.specs.Laws.{CollectionChangesFit, DeltasAreMadeAtOnce, FirstIsLeast, FittingCellsHaveShape, InversesUndo, LookUpsDecide, RecordChangesFit, ShelvesAreFound, SoundShelvesAreTabled};

/// After a delta each look-up gives what the delta says, and where it says nothing what it gave before.
pub fn deltas_are_made_at_once()
    ensures { DeltasAreMadeAtOnce }
{}

/// The inverse of a delta that fits a world fits the world after it, and leads back.
pub fn inverses_undo()
    ensures { InversesUndo }
{}

/// A delta that changes records alone fits, where they have the shape of their collections.
pub fn record_changes_fit()
    ensures { RecordChangesFit }
{}

/// A delta that puts or cuts one collection fits, where its records may stay as they are or where each of them is changed too.
pub fn collection_changes_fit()
    ensures { CollectionChangesFit }
{}

/// Worlds in tables in which each look-up gives the same are one.
pub fn look_ups_decide()
    ensures { LookUpsDecide }
{}

/// Each shelf of a world in tables is the one that is found by its name.
pub fn shelves_are_found()
    ensures { ShelvesAreFound }
{}

/// What fits in a sound record has the shape that tables ask for.
pub fn fitting_cells_have_shape()
    ensures { FittingCellsHaveShape }
{}

/// Sound collections with sound records can be put into tables, where both stand in order.
pub fn sound_shelves_are_tabled()
    ensures { SoundShelvesAreTabled }
{}

/// Of records that rise by id, the first above an id is the one with the least id above it.
pub fn first_is_least()
    ensures { FirstIsLeast }
{}
