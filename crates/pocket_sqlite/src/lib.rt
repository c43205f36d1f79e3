//! The keeper over a database file, through the kit's `sqlite`.
//!
//! A file has the one table `kept`, whose rows are the kept rows as they stand. A commit is one transaction, its
//! deletions first; a statement that is refused is rolled back, counted, and answered as a failure. A load reads the
//! rows in the order of their keys, and fails where a value is no text or a key isn't above the one before it.
//!
//! The keeper tells nothing of its rows, so what the machine promises of told rows says nothing of a file. What its
//! statements leave of the database, over the kit's `sqlite`, is proved: `specs/Writing` and `specs/Reading`.
#![tactic(auto)]

mod keeper;
mod opening;
mod table;

pub use keeper::SqliteKeeper;
pub use opening::OpenFault;
