// Calls that requests make, in words.
use pocket_api::{Body, Call, Draw, ListQuery, Shown, Target, Work, work_of};
use pocket_cases_text::{Given, Trouble, method_of};
use pocket_ops::date_read;
use pocket_types::{Moment, Pair, Seq, Text};
use pocket_wire::Request;
use std::alloc::{AllocError, Global};

// ---- requests

/// The header of a line: its name, `: ` and its value.
fn header_of_line(alloc: Global, line: &str) -> Result<Pair, AllocError> {
    let (name, value) = line.split_once(": ").unwrap_or((line, ""));
    Ok(Pair {
        name: Text::from_str(alloc, name)?,
        value: Text::from_str(alloc, value)?,
    })
}

fn headers_of_lines(alloc: Global, lines: &str) -> Result<Seq<Pair>, AllocError> {
    let mut headers = Seq::new(alloc);
    for line in lines.lines() {
        headers.push(header_of_line(alloc, line)?)?;
    }
    Ok(headers)
}

/// A request of a head, which is `METHOD TARGET` with headers in the lines below, and of a body.
fn request_of(alloc: Global, head: &str, body: Vec<u8>) -> Result<Request, Trouble> {
    let (first, lines) = head.split_once('\n').unwrap_or((head, ""));
    let (method, target) = first.split_once(' ').ok_or("no method")?;
    let target = Text::from_str(alloc, target)?;
    let headers = headers_of_lines(alloc, lines)?;
    Ok(Request {
        method: method_of(method),
        target,
        headers,
        body: Seq::from_vec(body),
        close: false,
        cost: 99,
    })
}

// ---- words

fn push_bracketed(out: &mut String, text: &Text) -> Result<(), AllocError> {
    out.push_str(" [")?;
    out.push_str(text.as_str())?;
    out.push(']')
}

/// Adds a text with its name, where there is one.
fn push_named(out: &mut String, name: &str, text: &Option<Text>) -> Result<(), AllocError> {
    let Some(text) = text else {
        return Ok(());
    };
    out.push(' ')?;
    out.push_str(name)?;
    push_bracketed(out, text)
}

fn push_target(out: &mut String, target: &Target) -> Result<(), AllocError> {
    push_bracketed(out, &target.collection)?;
    push_bracketed(out, &target.id)
}

/// Adds the compact text of a body, or that it is bad.
fn push_body(out: &mut String, alloc: Global, body: &Option<Body>) -> Result<(), AllocError> {
    let Some(body) = body else {
        return out.push_str(" bad");
    };
    let text = body.tree().print(alloc)?;
    out.push(' ')?;
    out.push_str(text.as_str())
}

fn push_shown(out: &mut String, shown: &Shown) -> Result<(), AllocError> {
    push_named(out, "expand", &shown.expand)?;
    push_named(out, "fields", &shown.fields)
}

fn push_list(out: &mut String, query: &ListQuery) -> Result<(), AllocError> {
    write!(out, " page {} of {}", query.page, query.per_page)?;
    push_named(out, "sort", &query.sort)?;
    push_named(out, "filter", &query.filter)?;
    push_named(out, "expand", &query.expand)?;
    push_named(out, "fields", &query.fields)?;
    out.push_str(if query.skip_total { " no totals" } else { "" })
}

/// The words for a call that is one of records or of a batch, after its name.
fn push_record_call(out: &mut String, alloc: Global, call: &Call) -> Result<(), AllocError> {
    match call {
        Call::List { collection, query } => {
            push_bracketed(out, collection)?;
            push_list(out, query)
        }
        Call::View { target, shown } => {
            push_target(out, target)?;
            push_shown(out, shown)
        }
        Call::Create {
            collection,
            body,
            shown,
        } => {
            push_bracketed(out, collection)?;
            push_body(out, alloc, body)?;
            push_shown(out, shown)
        }
        Call::Update {
            target,
            body,
            shown,
        } => {
            push_target(out, target)?;
            push_body(out, alloc, body)?;
            push_shown(out, shown)
        }
        Call::Remove { target } => push_target(out, target),
        Call::Impersonate { target, body } => {
            push_target(out, target)?;
            push_body(out, alloc, body)
        }
        _ => Ok(()),
    }
}

/// The words for a call, after its name.
fn push_call(out: &mut String, alloc: Global, call: &Call) -> Result<(), AllocError> {
    match call {
        Call::CollectionNew { body } | Call::Batch { body } | Call::LiveSet { body } => {
            push_body(out, alloc, body)
        }
        Call::CollectionGet { place } | Call::CollectionDrop { place } => {
            push_bracketed(out, place)
        }
        Call::CollectionSet { place, body } => {
            push_bracketed(out, place)?;
            push_body(out, alloc, body)
        }
        Call::LivePoll { client, after } => {
            push_bracketed(out, client)?;
            write!(out, " after {after}")
        }
        Call::LiveClose { client } => push_bracketed(out, client),
        _ => push_record_call(out, alloc, call),
    }
}

fn call_name(call: &Call) -> &'static str {
    match call {
        Call::NoRoute => "no route",
        Call::Collections => "collections",
        Call::CollectionNew { .. } => "collection new",
        Call::CollectionGet { .. } => "collection get",
        Call::CollectionSet { .. } => "collection set",
        Call::CollectionDrop { .. } => "collection drop",
        Call::List { .. } => "list",
        Call::View { .. } => "view",
        Call::Create { .. } => "create",
        Call::Update { .. } => "update",
        Call::Remove { .. } => "remove",
        Call::Impersonate { .. } => "impersonate",
        Call::Batch { .. } => "batch",
        Call::LiveOpen => "live open",
        Call::LiveSet { .. } => "live set",
        Call::LivePoll { .. } => "live poll",
        Call::LiveClose { .. } => "live close",
    }
}

/// Adds pairs, each behind a mark.
pub fn push_pairs(out: &mut String, mark: char, pairs: &[Pair]) -> Result<(), AllocError> {
    for pair in pairs {
        out.push(mark)?;
        out.push_str(pair.name.as_str())?;
        out.push('=')?;
        out.push_str(pair.value.as_str())?;
    }
    Ok(())
}

/// Adds a blank and the pairs, where there are any.
fn push_all_pairs(out: &mut String, mark: char, pairs: &[Pair]) -> Result<(), AllocError> {
    if pairs.is_empty() {
        return Ok(());
    }
    out.push(' ')?;
    push_pairs(out, mark, pairs)
}

/// Whether a work has the request's method and cost, and this draw.
fn is_of(work: &Work, request: &Request, draw: Draw) -> bool {
    let method = work.method as u8 == request.method as u8;
    let moment = work.draw.moment == draw.moment;
    method && moment && work.draw.words == draw.words && work.cost == request.cost
}

fn told_work(alloc: Global, work: &Work) -> Result<String, AllocError> {
    let mut out = String::from_str(alloc, call_name(&work.call))?;
    push_call(&mut out, alloc, &work.call)?;
    push_named(&mut out, "token", &work.token)?;
    push_all_pairs(&mut out, '|', work.headers.as_slice())?;
    push_all_pairs(&mut out, '?', work.query.as_slice())?;
    Ok(out)
}

/// The draw of a case: this moment, and the words 6 and 7.
fn drawn_at(moment: Moment) -> Draw {
    Draw {
        moment,
        words: [6, 7],
    }
}

/// What is told of a work where it is one of a request, drawn at this moment.
fn told_if_of(
    alloc: Global,
    work: &Work,
    request: &Request,
    moment: Moment,
) -> Result<String, Trouble> {
    if is_of(work, request, drawn_at(moment)) {
        Ok(told_work(alloc, work)?)
    } else {
        Err(Trouble::Case("another method, draw or cost"))
    }
}

/// What is told of the work of a request that is drawn at this moment.
fn told_at(alloc: Global, request: &Request, moment: Moment) -> Result<String, Trouble> {
    match work_of(alloc, request, drawn_at(moment)) {
        Ok(work) => {
            let told = told_if_of(alloc, &work, request, moment);
            drop(work);
            told
        }
        Err(_) => Err(Trouble::Memory),
    }
}

/// What is told of the work of a request, with the moment 2024-05-01 10:00.
fn told_for(alloc: Global, request: &Request) -> Result<String, Trouble> {
    let moment = date_read("2024-05-01 10:00").ok_or("no moment")?;
    told_at(alloc, request, moment)
}

/// What a request calls for. Its body stands behind `|` in the last line.
pub fn call(alloc: Global, given: &Given, text: &str) -> Result<String, Trouble> {
    let (head, body) = text.split_once("\n|").unwrap_or((text, ""));
    let head = given.text_of(alloc, head)?;
    let body = given.bytes_of(alloc, body)?;
    told_for(alloc, &request_of(alloc, head.as_str(), body)?)
}
