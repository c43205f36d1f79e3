// Replies of each kind.
ghost use Rattle.std.specs.Prelude.{◌≡◌, ◌≢◌, IfOk};
ghost use Rattle.pocket_types.specs.Json.{printed};
ghost use Rattle.pocket_wire.specs.Phrases.{IsReplyStatus};
ghost use Rattle.pocket_api.specs.Refusals.{IsDone, IsNoMemory, IsRefused, IsShown, because, fixed_body, not_admin, refusal_body};
ghost use Rattle.pocket_api.specs.declared.why.Why.TheVariants as why;

use crate::details::data_of;
use crate::refusals::{refusal_jv, status_of};
use crate::reply::{Reply, ReplyBody};
use crate::why::Why;
use pocket_types::{Caller, Jv, Seq, Text};
use std::alloc::{AllocError, Global};

/// The compact text of a tree.
fn printed(alloc: Global, tree: Jv) -> Result<Text, AllocError>
    ensures { IfOk result (λ text. text ≡ printed tree) }
{
    let text = tree.print(alloc);
    drop(tree);
    text
}

/// The body that a reply with this status carries, where its text is fixed.
fn fixed_body(status: u16) -> Option<ReplyBody>
    ensures { result ≡ fixed_body status }
{
    match status {
        500 => Some(ReplyBody::NotKept),
        507 => Some(ReplyBody::NoMemory),
        _ => None,
    }
}

/// What a reply that refuses carries.
fn refusal_body(alloc: Global, status: u16, detail: Jv) -> Result<ReplyBody, AllocError>
    ensures { IfOk result (λ body. body ≡ refusal_body status detail) }
{
    if let Some(body) = fixed_body(status) {
        drop(detail);
        return Ok(body);
    }
    let tree = refusal_jv(alloc, status, detail)?;
    Ok(ReplyBody::Made(printed(alloc, tree)?))
}

impl Reply {
    /// The reply that says that a call is done, and shows nothing.
    pub fn done(at: u64) -> Reply
        ensures { IsDone at result }
    {
        Reply {
            status: 204,
            body: ReplyBody::Empty,
            at,
            why: Why::Done,
        }
    }

    /// The reply that shows JSON.
    pub fn shown(text: Text, at: u64) -> Reply
        ensures { IsShown text at result }
    {
        Reply {
            status: 200,
            body: ReplyBody::Made(text),
            at,
            why: Why::Done,
        }
    }

    /// The reply that there is no memory, which takes none.
    pub fn no_memory(at: u64) -> Reply
        ensures { IsNoMemory at result }
    {
        Reply {
            status: 507,
            body: ReplyBody::NoMemory,
            at,
            why: Why::Memory,
        }
    }

    /// The reply that the store failed, which takes no memory.
    pub fn not_kept(at: u64) -> Reply
        ensures { IsRefused (because why.KeeperFault) at result }
    {
        Reply {
            status: 500,
            body: ReplyBody::NotKept,
            at,
            why: Why::KeeperFault,
        }
    }

    /// The reply that refuses for this cause with this status, and tells this beside its message.
    pub fn refusal(
        alloc: Global,
        why: Why,
        status: u16,
        detail: Jv,
        at: u64,
    ) -> Result<Reply, AllocError>
        requires phrase { IsReplyStatus status }
        requires content { status ≢ 204 }
        ensures { IfOk result (IsRefused (record { why = why; status = status; detail = detail }) at) }
    {
        let body = refusal_body(alloc, status, detail)?;
        Ok(Reply {
            status,
            body,
            at,
            why,
        })
    }

    /// The reply that refuses for this cause.
    pub fn refused(alloc: Global, why: Why, at: u64) -> Result<Reply, AllocError>
        ensures { IfOk result (IsRefused (because why) at) }
    {
        let status = status_of(&why);
        let detail = data_of(alloc, &why)?;
        Reply::refusal(alloc, why, status, detail, at)
    }

    /// The reply to a caller who isn't the administrator, where only the administrator may call.
    pub fn not_admin(alloc: Global, caller: &Caller, at: u64) -> Result<Reply, AllocError>
        ensures { IfOk result (IsRefused (not_admin caller.now) at) }
    {
        let status = match caller {
            Caller::Guest => 401,
            Caller::Member(_, _) | Caller::Admin => 403,
        };
        Reply::refusal(alloc, Why::NotAdmin, status, Jv::Map(Seq::new(alloc)), at)
    }
}
