//! The values that every other crate speaks of, in their final form: names, ids, moments and texts; JSON trees with
//! their compact text (`Jv::print`); kinds of fields, cells, collections, records and worlds with their look-ups;
//! callers and what a rule sees of a request (`Ask`); filters as they are written (`Expr`) and with their names looked
//! up (`Resolved`), with the faults of both; deltas; and a counter of steps. Contracts see a `Text` as its bytes, a
//! `Seq` as its list and a `Boxed` as its value. All other crates wait for this one.
//!
//! `specs/` in this order: `Names` has the forms of names, ids and moments, `Json` the compact text of a tree, `World`
//! the look-ups, `Paths` which prefixes a path begins with, and `Inductions` what holds of every filter, one layer at a
//! time. What must hold of things to be sound stands here too, for all crates above: of fields, collections and records
//! each by itself (`Sound`), of JSON trees (`Profile`), and of what relations lead to in a world (`Within`); rules and
//! limits are `pocket_store`'s. `Causes` says what a call tells of an object outside that counts its faults.
#![tactic(auto)]

mod boxed;
mod deltas;
mod exact;
mod expr;
mod failed;
mod faults;
mod ids;
mod json;
mod kinds;
mod moments;
mod names;
mod paths;
mod print;
mod records;
mod requests;
mod resolved;
mod seq;
mod steps;
mod text;
mod values;
mod world;

pub use boxed::Boxed;
pub use deltas::{Delta, RecChange, ShelfChange};
pub use exact::{Exact, Faithful, copied, copied_items, is_same};
pub use expr::{Expr, Op, Operand, Part};
pub use failed::Failed;
pub use faults::{Code, FieldFault, FilterFault, Limit, ResolveFault, RuleFault};
pub use ids::Id;
pub use json::{Jv, Member, NUMBER_END};
pub use moments::{FIRST_MILLIS, LAST_MILLIS, Moment};
pub use names::{Name, NameFault};
pub use records::{Cell, Collection, Field, Kind, Rec, Rule};
pub use requests::{Action, Ask, Caller, Context, Method, Pair, Sent};
pub use resolved::{Leaf, Macro, Modifier, Prefix, Resolved, Root, Step};
pub use seq::Seq;
pub use steps::Steps;
pub use text::Text;
pub use values::Value;
pub use world::{LentShelf, Shelf, World};
