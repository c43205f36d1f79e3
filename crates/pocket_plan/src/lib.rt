//! Plans of filters, and guards, which show a filter less than the whole world.
//!
//! A `Plan` keeps its filter. `Plan::test` judges it in the tables' lent shelves, or in what a guard leaves of them
//! (`specs/Truth`). A guard has a view for each collection, which admits all of its records, none, or those of which a
//! filter holds. Read `specs/Cutting` first, which says what a guard leaves of a world for a request (`guarded_world`):
//!
//! - each shelf keeps the records that its view admits; a view's filter is asked in the whole world, for the same
//!   request;
//! - each collection loses its hidden fields, and each record their cells;
//! - the ids that a kept record holds stay in its cells, also where the record of an id is gone.
//!
//! The record that is judged is Home there, without its hidden fields, whether the guard admits it or not: a list
//! admits its records by a rule of its own. Where Bob may view a task but not its project, `project =
//! "proj00000000one"` is true of it, since the id stays, and so is `project.title = ""`: the step leads to nobody,
//! whose title is nothing.
//!
//! No world is copied or cut for this. `Guarded` implements `Sees`, by which `pocket_meaning` judges filters: it goes
//! through the shelves of the whole world where a path leads, and asks of each record that it comes to whether the view
//! admits it. Views are asked without a guard, so that one guard never asks another, and nothing is kept from one
//! record to the next. That the answer is the meaning in the cut world is proved in three steps: `specs/Guarding` says
//! which lists and values `Guarded` gives, in whole records; `proofs/Opening` shows of each list that without hidden
//! fields it is the list of the cut world; and `holds_under` calls the law that carries truth over.
//!
//! No read is counted here yet, since shelves are lent; the clause on steps says that the count never falls.
#![tactic(auto)]

mod admitted;
mod copies;
mod guard;
mod guarded;
mod open_fields;
mod plan;

pub use guard::{Guard, View, ViewTest};
pub use open_fields::{does_point_openly, open_field_of};
pub use plan::{Plan, compile};
