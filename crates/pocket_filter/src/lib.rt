//! The filter language: texts read to expressions, and expressions printed.
//!
//! The lexer cuts a text into tokens, which are slices of it. The parser takes one token after another and keeps the
//! groups that are open on a stack in memory, so that nothing recurses and the time is linear.
//!
//! The definitions are apart from both; read them in this order. `specs/Lexing` says which bytes spell a token, and
//! what a reading of a text is: separators, and between them the longest token at each place, up to the end or the
//! first fault. `specs/Grammar` is the grammar, a relation between tokens and trees. `specs/Faults` says what it means
//! that a token can't stand, by the grammar alone, and `specs/Filters` which texts are filters and in which order
//! faults count. `specs/Fronts` and `specs/Parsed` compute the same: what stands at the front of a text, its tokens,
//! its tree, and so its verdict, `parsed`. The code is shown to give this value, and the value to be the one verdict of
//! the definitions.
//!
//! The scans are tied to these in `proofs/Texts`, `Numbers`, `Idents`, `Marks` and `Separators`, one for each kind of
//! first byte. `proofs/TreesRead` shows that the parser reads every tree of the grammar, and one alone, and
//! `proofs/Holding` that what it holds are trees of the tokens read, which can always be completed to a filter. `print`
//! writes the canonical text by recursion over the tree. Its definition (`specs/Printed`) goes by way of tokens, so
//! that the law of printing and reading falls into three parts: those tokens are in the grammar with the tree; no list
//! of tokens with this tree nests less deep; and the bytes fall into those tokens.
#![tactic(auto)]

mod lexer;
mod limits;
mod operands;
mod parser;
mod printer;
mod reading;
mod tokens;

pub use lexer::stray_marks_are_bad_bytes;
pub use printer::{print, printed_filter_is_read};
pub use reading::{each_text_has_one_verdict, parse, trees_are_determined};
