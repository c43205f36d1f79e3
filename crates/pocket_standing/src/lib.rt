//! No typed filter is stuck: what a resolved filter asks of a record is there. Laws alone, and no program calls them.
//!
//! Resolution types a filter by collections alone (`pocket_resolve`), and its meaning chooses among records
//! (`pocket_meaning`). Here the two meet: in a world whose records fit their collections (`specs/Scenes`) a path has
//! chosen nobody or a record of the collection where it leads, and there its field stands with a cell that fits it and
//! suits the modifier (`specs/Finding`). So whoever computes a typed filter meets no record that lacks a field or has a
//! cell of another kind there.
//!
//! A prefix stands at a place by its steps (`StandsAt` of `pocket_resolve`); what it has chosen is found by induction
//! over the steps, each of which is one part of the law `paths_lead_to_records`. The caller stands for the records of
//! all auth collections, whose fields of a name are alike or no filter names them; so there the record's own collection
//! may lack the field, and then the value is `Nothing`.
#![tactic(auto)]

pub mod laws;
