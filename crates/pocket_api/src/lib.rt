//! What stands between bytes and the machine: the work that a request calls for, and the bytes of a reply.
//!
//! `specs/Works` says which work a request is, one function of the request and its draw, over the routes of
//! `specs/Routes` and the queries of `specs/Queries`; `specs/Asks` says what rules see of a work. `specs/Refusals` has
//! each cause of a reply with its status and what it tells the caller, and `specs/Replies` the bytes.
//!
//! The types have all that later calls need: a call that the machine doesn't answer yet is read all the same, so that
//! each later call changes the machine alone. A body stands in a work as a `Body`, which contracts see as its tree;
//! that the tree is of the profile is its invariant.
#![tactic(auto)]

mod body;
mod call;
mod calls;
mod details;
mod fault_words;
mod framing;
mod headers;
pub mod laws;
mod made;
mod query;
mod refusals;
mod reply;
mod routes;
mod why;
mod work;
mod works;

pub use body::Body;
pub use call::{Call, ListQuery, Shown, Target};
pub use details::data_of;
pub use framing::{REPLY_507, REPLY_507_CLOSE, fixed_bytes, no_memory_reply, reply_bytes};
pub use refusals::{item_jv, refusal_jv, reply_jv, status_of};
pub use reply::{Reply, ReplyBody};
pub use why::Why;
pub use work::{Draw, Work};
pub use works::work_of;
