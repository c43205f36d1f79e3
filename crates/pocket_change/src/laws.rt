// What follows from the definitions. Each law is a function without a body of its own.
ghost use Rattle.pocket_change.specs.Puts.{CreatedMayBePut, UpdatedMayBePut};

use pocket_check::laws::{
    faultless_cells_fit, faultless_relations_lead_within, sent_cells_have_shape, zero_cells_fit,
};
use pocket_tables::laws::{deltas_are_made_at_once, record_changes_fit, shelves_are_found};

/// What is created may be put: it is sound, its relations lead to records, and no limit is passed with it.
pub fn created_records_may_be_put()
    ensures { CreatedMayBePut }
{
    record_changes_fit();
    deltas_are_made_at_once();
    shelves_are_found();
    zero_cells_fit();
    sent_cells_have_shape();
    faultless_cells_fit();
    faultless_relations_lead_within();
}

/// What is updated may be put too.
pub fn updated_records_may_be_put()
    ensures { UpdatedMayBePut }
{
    record_changes_fit();
    deltas_are_made_at_once();
    shelves_are_found();
    sent_cells_have_shape();
    faultless_cells_fit();
    faultless_relations_lead_within();
}
