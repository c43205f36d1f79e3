ghost use Rattle.std.specs.Prelude.{◌≡◌, ◌≤◌, ◌<◌, ◌++◌, ◌+◌, ℕ, List, IsErrOf, IfOk, OnOk, length, take, drop, slice_range};
ghost use Rattle.std.specs.Io.KnownBytes.{Consumes};
ghost use Rattle.pocket_types.specs.Causes.{Rose, StaysUntold};
ghost use Rattle.pocket_wire.specs.Blocks.{IsUnfinished, after_empty_line};
ghost use Rattle.pocket_wire.specs.Reading.{HasReplyStatus, IsRead};
ghost use Rattle.pocket_wire.specs.Reads.{ReadsWhile};
ghost use Rattle.pocket_wire.specs.Requests.{IsDecided};
ghost use Rattle.pocket_wire.specs.Searches.{IsFound};
ghost use Rattle.pocket_wire.specs.Steps.{IsAdded, IsBlockFound, IsFilled, IsHeadOf, IsPiece, IsWithBody};

use crate::block::{Found, START, find_block, skip_empty_line};
use crate::head::{Head, HeadParts, read_head};
use crate::request::{Inbox, Next, Request, WireFault};
use crate::source::Source;
use pocket_types::Seq;
use std::alloc::{AllocError, Global};
use std::mem;

/// Adds a piece of the source's bytes, and answers how many these are: none at the end of the input.
fn read_piece<S: Source>(bytes: &mut Vec<u8>, source: &mut S) -> Result<usize, WireFault>
    ensures piece { (got : List ℕ) × Consumes (S.left source.old) (S.left source.new) got
        × IsPiece bytes.old.items got bytes.new.items (S.left source.new) result
        × S.gives source.old got source.new }
    ensures fault { IsErrOf result WireFault.SourceFault → Rose (S.faults source.old) (S.faults source.new) }
    ensures count { S.faults source.old ≤ S.faults source.new }
    ensures untold { StaysUntold (S.left source.old) (S.left source.new) }
    ensures apart { S.untouched source.new ≡ S.untouched source.old }
{
    let mut piece = [0; 4096];
    let count = match source.read(&mut piece) {
        Ok(count) => count,
        Err(_) => return Err(WireFault::SourceFault),
    };
    if bytes.extend_from_slice(&piece[..count]).is_err() {
        return Err(WireFault::Memory);
    }
    Ok(count)
}

/// Reads until the bytes say where the block of a head ends, or that it is too long. None: the input ended before.
fn read_block<S: Source>(bytes: &mut Vec<u8>, source: &mut S) -> Result<Option<Found>, WireFault>
    ensures block { (got : List ℕ) × Consumes (S.left source.old) (S.left source.new) got
        × IsAdded bytes.old.items got bytes.new.items result × IsBlockFound (bytes.old.items ++ got) (S.left source.new) result
        × ReadsWhile S.gives IsUnfinished bytes.old.items got source.old source.new }
    ensures still { ¬ (IsUnfinished bytes.old.items) → (source.new ≡ source.old) × (bytes.new.items ≡ bytes.old.items) }
    ensures fault { IsErrOf result WireFault.SourceFault → Rose (S.faults source.old) (S.faults source.new) }
    ensures count { S.faults source.old ≤ S.faults source.new }
    ensures untold { StaysUntold (S.left source.old) (S.left source.new) }
    ensures apart { S.untouched source.new ≡ S.untouched source.old }
{
    let mut search = START;
    'fill: loop {
        let found = find_block(bytes, &mut search);
        if found.is_some() {
            return Ok(found);
        }
        if read_piece(bytes, source)? == 0 {
            return Ok(None);
        }
    }
}

/// Reads until there are so many bytes. False: the input ended before.
fn read_until<S: Source>(
    bytes: &mut Vec<u8>,
    size: usize,
    source: &mut S,
) -> Result<bool, WireFault>
    ensures filled { (got : List ℕ) × Consumes (S.left source.old) (S.left source.new) got
        × IsAdded bytes.old.items got bytes.new.items result × IsFilled size (bytes.old.items ++ got) (S.left source.new) result
        × ReadsWhile S.gives (λ bytes. length bytes < size) bytes.old.items got source.old source.new }
    ensures still { size ≤ length bytes.old.items → (source.new ≡ source.old) × (bytes.new.items ≡ bytes.old.items) }
    ensures fault { IsErrOf result WireFault.SourceFault → Rose (S.faults source.old) (S.faults source.new) }
    ensures count { S.faults source.old ≤ S.faults source.new }
    ensures untold { StaysUntold (S.left source.old) (S.left source.new) }
    ensures apart { S.untouched source.new ≡ S.untouched source.old }
{
    'fill: while bytes.len() < size {
        if read_piece(bytes, source)? == 0 {
            return Ok(false);
        }
    }
    Ok(true)
}

/// Takes the bytes of a request off, so many, and gives its body, which begins at a place. What stands behind goes into new memory, so
/// that a large body's isn't kept as long as the connection.
fn take_body(
    alloc: Global,
    bytes: &mut Vec<u8>,
    start: usize,
    size: usize,
) -> Result<Vec<u8>, AllocError>
    requires order { start ≤ size }
    requires within { size ≤ length bytes.old.items }
    ensures body { IfOk result (λ body. body.items ≡ slice_range bytes.old.items start size) }
    ensures rest { OnOk result (bytes.new.items ≡ drop size bytes.old.items) }
{
    let body = Vec::from_slice(alloc, &bytes[start..size])?;
    let rest = Vec::from_slice(alloc, &bytes[size..])?;
    *bytes = rest;
    Ok(body)
}

/// The request of a head with this body, which has so many bytes in all.
fn request_of(parts: HeadParts, body: Vec<u8>, cost: usize) -> Request
    ensures { IsWithBody parts body.items cost result }
{
    let HeadParts {
        method,
        target,
        headers,
        close,
        length: _,
    } = parts;
    Request {
        method,
        target,
        headers,
        body: Seq::from_vec(body),
        close,
        cost: cost as u64,
    }
}

/// Says what comes next behind a block whose head asks for a request: the body begins there.
fn read_body<S: Source>(
    alloc: Global,
    bytes: &mut Vec<u8>,
    start: usize,
    parts: HeadParts,
    source: &mut S,
) -> Result<Next, WireFault>
    requires found { IsFound bytes.old.items (Found.Block start) }
    requires asked { IsHeadOf (after_empty_line (take start bytes.old.items)) (Head.Asks parts) }
    ensures next { (got : List ℕ) × Consumes (S.left source.old) (S.left source.new) got
        × IsRead (bytes.old.items ++ got) (S.left source.new) bytes.new.items result
        × ReadsWhile S.gives (λ bytes. ¬ (IsDecided bytes)) bytes.old.items got source.old source.new }
    ensures still { IsDecided bytes.old.items → source.new ≡ source.old }
    ensures status { HasReplyStatus result }
    ensures fault { IsErrOf result WireFault.SourceFault → Rose (S.faults source.old) (S.faults source.new) }
    ensures count { S.faults source.old ≤ S.faults source.new }
    ensures untold { StaysUntold (S.left source.old) (S.left source.new) }
    ensures apart { S.untouched source.new ≡ S.untouched source.old }
{
    let size = start + parts.length;
    if !read_until(bytes, size, source)? {
        return Ok(Next::Truncated);
    }
    let body = take_body(alloc, bytes, start, size)?;
    Ok(Next::Request(request_of(parts, body, size)))
}

/// Says what comes next where these bytes begin with a block that ends there.
fn read_from_block<S: Source>(
    alloc: Global,
    bytes: &mut Vec<u8>,
    end: usize,
    source: &mut S,
) -> Result<Next, WireFault>
    requires { IsFound bytes.old.items (Found.Block end) }
    ensures next { (got : List ℕ) × Consumes (S.left source.old) (S.left source.new) got
        × IsRead (bytes.old.items ++ got) (S.left source.new) bytes.new.items result
        × ReadsWhile S.gives (λ bytes. ¬ (IsDecided bytes)) bytes.old.items got source.old source.new }
    ensures still { IsDecided bytes.old.items → source.new ≡ source.old }
    ensures status { HasReplyStatus result }
    ensures fault { IsErrOf result WireFault.SourceFault → Rose (S.faults source.old) (S.faults source.new) }
    ensures count { S.faults source.old ≤ S.faults source.new }
    ensures untold { StaysUntold (S.left source.old) (S.left source.new) }
    ensures apart { S.untouched source.new ≡ S.untouched source.old }
{
    match read_head(alloc, skip_empty_line(&bytes[..end]))? {
        Head::Refused(status) => Ok(Next::Refused(status)),
        Head::Asks(parts) => read_body(alloc, bytes, end, parts, source),
    }
}

/// Says what comes next, in bytes that were read and those that the source gives, and leaves what stands behind it.
fn read_next<S: Source>(
    alloc: Global,
    bytes: &mut Vec<u8>,
    source: &mut S,
) -> Result<Next, WireFault>
    ensures next { (got : List ℕ) × Consumes (S.left source.old) (S.left source.new) got
        × IsRead (bytes.old.items ++ got) (S.left source.new) bytes.new.items result
        × ReadsWhile S.gives (λ bytes. ¬ (IsDecided bytes)) bytes.old.items got source.old source.new }
    ensures still { IsDecided bytes.old.items → source.new ≡ source.old }
    ensures status { HasReplyStatus result }
    ensures fault { IsErrOf result WireFault.SourceFault → Rose (S.faults source.old) (S.faults source.new) }
    ensures count { S.faults source.old ≤ S.faults source.new }
    ensures untold { StaysUntold (S.left source.old) (S.left source.new) }
    ensures apart { S.untouched source.new ≡ S.untouched source.old }
{
    match read_block(bytes, source)? {
        Some(Found::Block(end)) => read_from_block(alloc, bytes, end, source),
        Some(Found::TooLong) => Ok(Next::Refused(431)),
        None if bytes.is_empty() => Ok(Next::End),
        None => Ok(Next::Truncated),
    }
}

/// Says what comes next on a connection, in the bytes of the inbox and those that the source gives, and leaves what stands
/// behind it. It reads piece by piece, and only while the bytes so far don't decide: where they do it waits for no more of
/// them. A fault of the source loses no byte; after want of memory the connection can't go on.
pub fn next_request<S: Source>(
    alloc: Global,
    inbox: &mut Inbox,
    source: &mut S,
) -> Result<Next, WireFault>
    ensures next { (got : List ℕ) × Consumes (S.left source.old) (S.left source.new) got
        × IsRead (inbox.old.left ++ got) (S.left source.new) inbox.new.left result
        × ReadsWhile S.gives (λ bytes. ¬ (IsDecided bytes)) inbox.old.left got source.old source.new }
    ensures still { IsDecided inbox.old.left → source.new ≡ source.old }
    ensures status { HasReplyStatus result }
    ensures fault { IsErrOf result WireFault.SourceFault → Rose (S.faults source.old) (S.faults source.new) }
    ensures count { S.faults source.old ≤ S.faults source.new }
    ensures untold { StaysUntold (S.left source.old) (S.left source.new) }
    ensures apart { S.untouched source.new ≡ S.untouched source.old }
{
    let mut bytes = mem::replace(&mut inbox.left, Seq::new(alloc)).into_vec();
    let next = read_next(alloc, &mut bytes, source);
    inbox.left = Seq::from_vec(bytes);
    next
}
