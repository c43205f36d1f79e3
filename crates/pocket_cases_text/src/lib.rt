//! What the programs share that try the libraries from texts: the cases of a file, what they are given, words and rows
//! that are read from them, and what is printed of the cases that differ.
//!
//! A case is a line of a file in `data/`: a call, its arguments, and behind `=>` what has to come.
//!
//!     like "50% off" ~ "\% O" => true
//!     json [1,-0] => refused
//!     holds guest tasks/task00000000001: tags ?= "bug" => true
//!
//! Lines that are indented by two blanks belong to the case above them. `given NAME TEXT` gives a text to the cases
//! below it: the rows of a world, the collections among which names are looked up, the method of a request; each file
//! says what its calls are given. A name in angle brackets stands for a given text, a character (`<TAB>`, `<U+2028>`),
//! a byte (`<xFF>`) or a text so many times (`<40*ab>`). A program prints how many cases of each file there are and how
//! many differ, and each that differs with what came. Its stored run is all its files with none differing, so one proof
//! serves all cases of a program, and a new case is a line. Expected values come from a definition of the format, a
//! standard or by hand, and never from what the program printed.
#![tactic(auto)]

mod cases;
mod files;
mod given;
mod rows;
mod trouble;
mod words;

pub use cases::head_of;
pub use files::{Calls, try_files};
pub use given::{Given, numbered};
pub use rows::{keeper_of_lines, push_row, row_of_line, rows_of_lines, world_of_lines};
pub use trouble::Trouble;
pub use words::{caller_of, in_both_ways, method_of, name_of, told_flag, value_of};
