//! Kept rows read back: the collection, the record or the token whose row has exactly these bytes.
//!
//! The contract is 'the one that has this row, or none has' (`specs/RowReading`), of collections, records (`Sound` of
//! pocket_types) and tokens (`specs/SoundTokens`) that may be kept at all. A row's text is read as a JSON tree and
//! decoded, and what was decoded is printed again and compared byte for byte: no second grammar stands beside the
//! printer. So decoding may be lax; what it must do is find what the printer wrote, whatever that was. It follows that
//! a row is injective: two sound records, collections or tokens never share one (`proofs/OnceLemmas`).
//!
//! `members` reads the text and finds what stands under a key; `items` reads the items of selects and relations,
//! `cells` a cell of each kind, `fields` and `kinds` a field with the options of its type, `rules` the five rules;
//! `recs`, `collections` and `tokens` put them together, print, and compare.
#![tactic(auto)]

mod cells;
mod collections;
mod fields;
mod items;
mod kinds;
mod members;
mod recs;
mod rules;
mod scalars;
mod tokens;

pub use collections::collection_of_row;
pub use items::{ids_of, texts_of};
pub use members::{members_in, value_under};
pub use recs::rec_of_row;
pub use scalars::{date_of_text, text_of};
pub use tokens::token_of_row;
