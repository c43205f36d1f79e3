// Calls over requests: the bytes of heads and bodies, and the phrases of statuses.
use crate::calls::push_pairs;
use pocket_cases_text::{Trouble, in_both_ways};
use pocket_types::Seq;
use pocket_wire::{Inbox, MemorySource, Next, Request, WireFault, next_request, status_phrase};
use std::alloc::{AllocError, Global};

/// A request in words.
fn told_request(alloc: Global, request: &Request) -> Result<String, AllocError> {
    let method = request.method;
    let target = request.target.as_str();
    let mut text = format!(in alloc;
        "{method:?} {target} {} {} {}",
        request.body.len(),
        request.close,
        request.cost
    )?;
    push_pairs(&mut text, '|', request.headers.as_slice())?;
    Ok(text)
}

/// An answer of `next_request` in words.
fn told(alloc: Global, answer: Result<Next, WireFault>) -> Result<String, AllocError> {
    match answer {
        Ok(Next::Request(request)) => told_request(alloc, &request),
        Ok(Next::End) => String::from_str(alloc, "end"),
        Ok(Next::Truncated) => String::from_str(alloc, "truncated"),
        Ok(Next::Refused(status)) => format!(in alloc; "refused {status}"),
        Err(fault) => format!(in alloc; "{fault}"),
    }
}

/// Bytes in pieces of at most so many.
fn source_of(alloc: Global, bytes: &[u8], piece: usize) -> Result<MemorySource, AllocError> {
    let bytes = Seq::from_vec(bytes.to_vec(alloc)?);
    Ok(MemorySource::new(bytes, piece.max(1), Vec::new(alloc)))
}

/// Whether another request may follow.
fn goes_on(answer: &Result<Next, WireFault>) -> bool {
    match answer {
        Ok(Next::Request(request)) => !request.close,
        _ => false,
    }
}

/// What comes from a source one after the other, up to the end, a refusal or a request that asks for the close.
fn told_from(alloc: Global, mut source: MemorySource) -> Result<String, AllocError> {
    let mut inbox = Inbox::new(alloc);
    let mut text = String::new(alloc);
    for _ in 0..1_000 {
        let answer = next_request(alloc, &mut inbox, &mut source);
        let more = goes_on(&answer);
        text.push_str(told(alloc, answer)?.as_str())?;
        if !more {
            return Ok(text);
        }
        text.push_str("; ")?;
    }
    Ok(text)
}

/// What these bytes are, in pieces of at most so many.
fn told_in(alloc: Global, bytes: &[u8], piece: usize) -> Result<String, Trouble> {
    Ok(told_from(alloc, source_of(alloc, bytes, piece)?)?)
}

/// What these bytes are, in pieces of any size.
pub fn request(alloc: Global, bytes: &[u8]) -> Result<String, Trouble> {
    let outcome = told_in(alloc, bytes, 1)?;
    let outcome = in_both_ways(alloc, outcome, told_in(alloc, bytes, 7), "in pieces of 7")?;
    in_both_ways(
        alloc,
        outcome,
        told_in(alloc, bytes, 100_000),
        "in one piece",
    )
}

/// The phrase of a status, empty where it has none.
pub fn phrase(alloc: Global, text: &str) -> Result<String, Trouble> {
    let status = text.parse::<u16>().ok().ok_or("no status")?;
    Ok(String::from_str(alloc, status_phrase(status))?)
}
