//! What a filter means of a record, for a request in a world, and a plain way to compute it. Read `specs/Related`,
//! `Values`, `Sights`, `Choices` and `Meaning` in this order, about 300 lines.
//!
//! Paths lead to members. A path begins at a root: the record itself, the caller's record, the sent fields, or a
//! collection that is looked up, with its alias. Each step leads from one member to a list: over a relation to the
//! records that it holds and that exist, in the held order; back to the records whose relation holds this one; or to
//! the items of a select or relation. The list is empty where the member is nobody, where its collection lacks the
//! field, where a back relation's field isn't a relation to this collection, and, for the caller, where nobody known
//! asks or the record is gone.
//!
//! A choice gives each path one member of its list, seen from what the shorter path before it has chosen, or nobody
//! exactly where that list is empty. A field of nobody is nothing, with any modifier, and nothing compares as the empty
//! text. Any-match comparisons share one choice: a filter holds where some choice over the paths of all its comparisons
//! with `?` makes it true. A plain comparison has to be true under every choice of its own two sides, whatever the
//! others do.
//!
//! A project has the members Ann of team red and Cyd of team blue. When Ann asks, `members.id ?= @request.auth.id &&
//! members.team ?= "blue"` is false, since both conditions ask of one member; with `owner.team ?= "blue"` as the second
//! the paths differ, and each has a member of its own. `tasks_via_assignee.title ?= ""` is true of a person without
//! tasks: an empty list is no refusal, it is one choice, of nobody.
//!
//! Truth sees a world only through a `Sight`: the request, the sent fields, the list of each root and of each step from
//! each member, and the value of each field of a member. So whoever computes truth in another way has to show only that
//! it sees the same lists and values. The trait `Sees` tells what is seen, each part by an equation with a `Sight`; a
//! `Scene` sees a whole world, as lent shelves, so that tables lend theirs without a copy; and `is_true_in` judges in
//! either. The laws carry truth over: choices may be made in any order that has parents first (`any_order_serves`), the
//! list of choices and a relation on all paths at once (`specs/Choosing`) agree, and a world that is cut for a caller
//! may be judged over the members of the whole one, by a map that carries each member over (`truth_is_carried_over`).
//! The record that is judged comes from outside the world; in a cut one it has to be the record as the map cuts it.
//!
//! `holds_slow` goes through the choices one member after the other, in borrowed prefixes and members, and makes each
//! value anew. It is slow on purpose: its contract is the definition itself, and every plan is compared with it.
#![tactic(auto)]

mod choices;
pub mod laws;
mod meaning;
mod members;
mod prefixes;
mod related;
mod sees;
mod values;

pub use choices::member_chosen;
pub use meaning::{holds_slow, is_true_in};
pub use members::{Chosen, Member, Scene, lent_shelves};
pub use prefixes::{prefixes_of_any, prefixes_of_test};
pub use related::{add_items, does_refer, members_of_root, members_of_step, sent_of, shelf_in};
pub use sees::Sees;
pub use values::{member_value_of, value_of_field, value_under};
