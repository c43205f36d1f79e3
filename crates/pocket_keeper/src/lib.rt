//! The rows that stand for a state, how they are printed and how their keys are read, and the keepers that hold them.
//!
//! `Committer` makes the cuts of a commit first and then its puts; `Keeper` gives all rows back besides.
//! `specs/Keeping` says what a keeper holds after a commit, and what a call of it may answer; `MemoryKeeper` commits in
//! place. `specs/Texts` has the rows: a collection's is `c/` and its name with its JSON, a record's `r/`, its
//! collection's name, `/` and its id with its dates and all cells, a token's `t/` and its text with
//! `{"collection":text,"id":text,"until":date}`. They are printed for any collection, record and token; `pocket_rows`
//! reads them back.
#![tactic(auto)]

mod keeper;
mod keys;
mod memory;
mod rows;
mod sorted;
mod texts;
mod tokens;

pub use keeper::{Committer, Keeper};
pub use keys::{id_in_rec_key, split_rec_key};
pub use memory::MemoryKeeper;
pub use rows::{KeepFault, KeptRow};
pub use texts::{collection_key, rec_key, row_of_collection, row_of_rec, row_of_token};
pub use tokens::Token;
