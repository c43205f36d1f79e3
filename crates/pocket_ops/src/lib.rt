//! What values are worth: how two of them compare, when a text is like a pattern, the value of a cell, dates and
//! macros; the fields of records; and the JSON trees of cells, fields, collections and records, with the length of a
//! record's row text.
//!
//! Comparison (`specs/Comparison`) is one order between values of one kind, and each operator a test of it. Likeness is
//! a relation between the pieces of a pattern and a text (`specs/Likeness`). The code goes once over the text and keeps
//! one place to go back to, behind the last run of bytes: where a later run begins, growing an earlier one can't help,
//! since what an earlier run would reach, the later one reaches too (`goes_into` in `proofs/Searches`).
//! `specs/Searching` says what a match on its way comes to. Neither takes memory: numbers become digits in a buffer of
//! `itoa`.
//!
//! Dates stand on the calendar of the kit's `jiff_core`. `specs/Calendar` counts the days of a date from it, and finds
//! the date of a day by counting the years and months that have begun. `specs/Dates` has the texts: how a moment is
//! printed, and which texts are dates, each with its moment. `specs/DateReading` says the same as a function that reads
//! each field at its place; the reader is proved to be that function, and the function to agree with the texts.
//! `specs/Macros` is the table of macros.
//!
//! `specs/Cells` has the values of cells, `specs/Trees` the JSON trees, and `specs/Lengths` the lengths of texts by
//! their pieces. A record's members are put into a map ordered by the bytes of their keys; a field's and a collection's
//! members are written in that order.
#![tactic(auto)]

mod calendar;
mod cell_trees;
mod cells;
mod collection_trees;
mod comparison;
mod copies;
mod date_reading;
mod date_texts;
mod fields;
mod items;
pub mod laws;
mod lengths;
mod likeness;
mod macros;
mod rec_trees;
mod row_lengths;
mod trees;

pub use cells::{cell_value, count_value, item_count, lowered_value};
pub use collection_trees::collection_jv;
pub use comparison::compare;
pub use copies::copied_tree;
pub use date_reading::date_read;
pub use date_texts::date_text;
pub use fields::{field_of, ids_in};
pub use items::Item;
pub use likeness::like;
pub use macros::macro_value;
pub use rec_trees::{kept_jv, put_member, rec_jv, shown_members};
pub use row_lengths::{has_own_names, row_len};
pub use trees::{map_jv, push_member};
