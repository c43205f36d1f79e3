// The bytes of replies.
ghost use Rattle.std.specs.Prelude.{◌≡◌, ◌++◌, IfOk, MatchOption, false, true};
ghost use Rattle.std.specs.String.{string_bytes};
ghost use Rattle.pocket_wire.specs.Phrases.{status_line};
ghost use Rattle.pocket_api.specs.Replies.{body_headers, body_text, close_header, is_fixed, no_memory_bytes, not_kept_bytes, reply_bytes};

use crate::reply::{Reply, ReplyBody};
use pocket_types::Seq;
use pocket_wire::status_phrase;
use std::alloc::{AllocError, Global};

/// The reply for want of memory, which takes none.
pub const REPLY_507: &[u8] =
    b"HTTP/1.1 507 Insufficient Storage\r\nContent-Type: application/json\r\nContent-Length: 51\r\n\r\n{\"data\":{},\"message\":\"Out of memory.\",\"status\":507}";

/// The same as a connection's last reply.
pub const REPLY_507_CLOSE: &[u8] =
    b"HTTP/1.1 507 Insufficient Storage\r\nContent-Type: application/json\r\nContent-Length: 51\r\nConnection: close\r\n\r\n{\"data\":{},\"message\":\"Out of memory.\",\"status\":507}";

/// The reply where the store failed, which takes no memory.
const REPLY_500: &[u8] =
    b"HTTP/1.1 500 Internal Server Error\r\nContent-Type: application/json\r\nContent-Length: 52\r\n\r\n{\"data\":{},\"message\":\"Storage failed.\",\"status\":500}";

/// The same as a connection's last reply.
const REPLY_500_CLOSE: &[u8] =
    b"HTTP/1.1 500 Internal Server Error\r\nContent-Type: application/json\r\nContent-Length: 52\r\nConnection: close\r\n\r\n{\"data\":{},\"message\":\"Storage failed.\",\"status\":500}";

const NO_MEMORY: &str = "{\"data\":{},\"message\":\"Out of memory.\",\"status\":507}";

const NOT_KEPT: &str = "{\"data\":{},\"message\":\"Storage failed.\",\"status\":500}";

/// The fixed reply for want of memory; with `close` it says that the connection ends with it.
pub fn no_memory_reply(close: bool) -> &'static [u8]
    ensures { result.now ≡ no_memory_bytes close }
{
    if close { REPLY_507_CLOSE } else { REPLY_507 }
}

/// The fixed reply where the store failed.
fn not_kept_reply(close: bool) -> &'static [u8]
    ensures { result.now ≡ not_kept_bytes close }
{
    if close { REPLY_500_CLOSE } else { REPLY_500 }
}

/// The bytes of a reply whose text is fixed, for want of memory or where the store failed. They are the same that
/// `reply_bytes` makes, and take no memory.
pub fn fixed_bytes(reply: &Reply, close: bool) -> Option<&'static [u8]>
    ensures { MatchOption result (is_fixed reply.now.body ≡ false) (λ bytes. (is_fixed reply.now.body ≡ true) × (bytes.now ≡ reply_bytes reply.now close)) }
{
    match reply.body {
        ReplyBody::NoMemory => Some(no_memory_reply(close)),
        ReplyBody::NotKept => Some(not_kept_reply(close)),
        ReplyBody::Empty | ReplyBody::Made(_) => None,
    }
}

fn body_text(body: &ReplyBody) -> &str
    ensures { result.now ≡ body_text body.now }
{
    match body {
        ReplyBody::Empty => "",
        ReplyBody::NoMemory => NO_MEMORY,
        ReplyBody::NotKept => NOT_KEPT,
        ReplyBody::Made(text) => text.as_str(),
    }
}

/// The first line, with its end.
fn first_line(alloc: Global, status: u16) -> Result<String, AllocError>
    ensures { IfOk result (λ line. string_bytes line ≡ status_line status) }
{
    let phrase = status_phrase(status);
    let line = format!(in alloc; "HTTP/1.1 {status} {phrase}\r\n")?;
    Ok(line)
}

/// The headers that say what the body is; a 204 has none.
fn push_body_headers(out: &mut String, status: u16, size: usize) -> Result<(), AllocError>
    ensures { IfOk result (λ _. string_bytes out.new ≡ string_bytes out.old ++ body_headers status size) }
{
    if status == 204 {
        return Ok(());
    }
    out.push_str("Content-Type: application/json\r\nContent-Length: ")?;
    write!(out, "{size}")?;
    out.push_str("\r\n")?;
    Ok(())
}

fn push_close_header(out: &mut String, close: bool) -> Result<(), AllocError>
    ensures { IfOk result (λ _. string_bytes out.new ≡ string_bytes out.old ++ close_header close) }
{
    if close {
        out.push_str("Connection: close\r\n")
    } else {
        Ok(())
    }
}

/// The bytes of a reply; with `close` it says that the connection ends with it. Those of a reply whose text is
/// fixed take no memory by `fixed_bytes`.
pub fn reply_bytes(alloc: Global, reply: &Reply, close: bool) -> Result<Seq<u8>, AllocError>
    ensures { IfOk result (λ bytes. bytes ≡ reply_bytes reply.now close) }
{
    let text = body_text(&reply.body);
    let status = reply.status;
    let mut out = first_line(alloc, status)?;
    push_body_headers(&mut out, status, text.len())?;
    push_close_header(&mut out, close)?;
    out.push_str("\r\n")?;
    out.push_str(text)?;
    Ok(Seq::from_vec(out.into_bytes()))
}
