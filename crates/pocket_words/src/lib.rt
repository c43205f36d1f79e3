//! The words of the command line: which are good, and the command that they give.
//!
//! `specs/Words` says which command words are: `specs/Scan` reads the options word by word, each once and each with its
//! value, and `specs/Forms` has the forms of tokens, files and numbers. `read_words` judges the words by that scan, and
//! takes the values of `pipe` and `serve` from `clap`, told of each command as one of its own (`specs/Told`). That clap
//! refuses no words that are judged good, and finds the scan's values in them, is proved by induction over the words
//! (`proofs/ClapLemmas`, `ClapReads`). What clap takes beyond the scan is refused.
#![tactic(auto)]

mod command;
mod forms;
mod parsing;
mod reading;
mod scan;

pub use command::{Command, WordFault};
pub use reading::read_words;
