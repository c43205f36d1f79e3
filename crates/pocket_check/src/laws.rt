// What follows from the definitions. Each law is a function without a body of its own.
ghost use Rattle.pocket_check.specs.Laws.{FaultlessCellsFit, FaultlessRelationsLeadWithin, OldCellsMakeNoFault, SentCellsHaveShape, ZeroCellsFit};

/// Cells that were never set fit their fields.
pub fn zero_cells_fit()
    ensures { ZeroCellsFit }
{}

/// What a body sends has the shape of its collection's fields.
pub fn sent_cells_have_shape()
    ensures { SentCellsHaveShape }
{}

/// Where nothing is wrong with a record that a body made, its cells fit.
pub fn faultless_cells_fit()
    ensures { FaultlessCellsFit }
{}

/// The relations of a record with nothing wrong lead to records.
pub fn faultless_relations_lead_within()
    ensures { FaultlessRelationsLeadWithin }
{}

/// Which fault an update's body has, if any, doesn't depend on the cells that the record has.
pub fn old_cells_make_no_fault()
    ensures { OldCellsMakeNoFault }
{}
