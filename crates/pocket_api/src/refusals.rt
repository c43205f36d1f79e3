// The statuses and the bodies of refusals.
ghost use Rattle.std.specs.Prelude.{◌≡◌, ◌++◌, ◌∷◌, [], IfOk};
ghost use Rattle.pocket_types.specs.Maps.{map_jv};
ghost use Rattle.pocket_api.specs.Refusals.{false_rule, item_jv, message_of, path_status, refusal_jv, reply_jv, status_of, text_jv};

use crate::details::push_member;
use crate::why::Why;
use pocket_types::{Action, Jv, ResolveFault, Seq, Text};
use std::alloc::{AllocError, Global};

fn false_rule_status(action: Action) -> u16
    ensures { result ≡ (false_rule action).0 }
{
    match action {
        Action::Create => 400,
        Action::List | Action::View | Action::Update | Action::Delete => 404,
    }
}

fn path_status(fault: &ResolveFault) -> u16
    ensures { result ≡ path_status fault.now }
{
    match fault {
        ResolveFault::SuperuserOnly(_) => 403,
        _ => 400,
    }
}

/// The status of a cause; where only the administrator may call, that for a member.
pub fn status_of(why: &Why) -> u16
    ensures { result ≡ status_of why.now }
{
    match why {
        Why::Done => 200,
        Why::NoRoute | Why::NoCollection | Why::NoRecord | Why::NoClient => 404,
        Why::NotAdmin | Why::Locked(_, _) | Why::OtherCaller => 403,
        Why::RuleFalse(_, action) => false_rule_status(*action),
        Why::BadPath(fault) => path_status(fault),
        Why::BadFilter(_)
        | Why::BadSort(_)
        | Why::BadBody
        | Why::BadValue(_)
        | Why::Invalid(_)
        | Why::IdTaken
        | Why::Required(_, _, _)
        | Why::Limit(_)
        | Why::Item(_)
        | Why::Shape(_)
        | Why::NameTaken
        | Why::BrokenRule(_, _, _)
        | Why::Referenced(_, _)
        | Why::TooManyTopics
        | Why::BadTopic(_) => 400,
        Why::KeeperFault => 500,
        Why::HistoryFull(_, _) => 503,
        Why::Memory => 507,
    }
}

fn message_of(status: u16) -> &'static str
    ensures { result.now ≡ message_of status }
{
    match status {
        400 => "Bad request.",
        401 => "Unauthorized.",
        403 => "Forbidden.",
        404 => "Not found.",
        500 => "Storage failed.",
        503 => "History is full.",
        507 => "Out of memory.",
        _ => "",
    }
}

/// A word as a tree.
fn word_jv(alloc: Global, word: &str) -> Result<Jv, AllocError>
    ensures { IfOk result (λ tree. tree ≡ text_jv word.now) }
{
    Ok(Jv::Text(Text::from_str(alloc, word)?))
}

/// The body of a refusal with this status that tells this beside its message.
pub fn refusal_jv(alloc: Global, status: u16, detail: Jv) -> Result<Jv, AllocError>
    ensures { IfOk result (λ tree. tree ≡ refusal_jv status detail) }
{
    let mut members = Vec::new(alloc);
    push_member(&mut members, alloc, "data", detail)?;
    push_member(
        &mut members,
        alloc,
        "message",
        word_jv(alloc, message_of(status))?,
    )?;
    push_member(&mut members, alloc, "status", Jv::Num(i64::from(status)))?;
    Ok(Jv::Map(Seq::from_vec(members)))
}

/// A reply inside a list of replies, with its status and the tree of its body.
pub fn reply_jv(alloc: Global, status: u16, body: Jv) -> Result<Jv, AllocError>
    ensures { IfOk result (λ tree. tree ≡ reply_jv status body) }
{
    let mut members = Vec::new(alloc);
    push_member(&mut members, alloc, "body", body)?;
    push_member(&mut members, alloc, "status", Jv::Num(i64::from(status)))?;
    Ok(Jv::Map(Seq::from_vec(members)))
}

/// What a batch tells of the refusal of its item with this number: that refusal's status and what it tells.
pub fn item_jv(alloc: Global, index: u32, status: u16, detail: Jv) -> Result<Jv, AllocError>
    ensures { IfOk result (λ tree. tree ≡ item_jv index status detail) }
{
    let reply = reply_jv(alloc, status, refusal_jv(alloc, status, detail)?)?;
    let mut members = Vec::new(alloc);
    push_member(&mut members, alloc, "index", Jv::Num(i64::from(index)))?;
    push_member(&mut members, alloc, "reply", reply)?;
    Ok(Jv::Map(Seq::from_vec(members)))
}
