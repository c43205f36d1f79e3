ghost use Rattle.std.specs.Prelude.{◌≡◌, ◌≤◌, ◌<◌, ◌+◌, ◌*◌, ℕ, List, [], length, map, min, count_by, All, IsTrue, IsUtf8, IfOk, IfSome, IfNone, MatchOption, codes, option_to_list, Option, None, Some, find, option_copied, if◌then◌else◌};
ghost use Rattle.std.specs.List.{list_any, list_all, starts_with};
ghost use Rattle.std.specs.Char.{digit_value, is_ascii_digit, to_ascii_lowercase};
ghost use Rattle.std.specs.Str.Parse.{digits_value};
ghost use Rattle.httparse.specs.Grammar.{RequestHead};
ghost use Rattle.httparse.specs.Spans.{IsHeaderWithin, IsRequestAt, IsRequestWithin, IsWithin, header_bytes, span_bytes};
ghost use Rattle.pocket_wire.specs.Blocks.{is_line_feed};
ghost use Rattle.pocket_wire.specs.Heads.{IsHead, asks_close, body_length, header_of, headers_of, is_field, is_header, is_named, is_number, method_of, refusal, values_of};
ghost use Rattle.pocket_wire.specs.Steps.{IsAsked, IsFirstNamed, IsHeadOf, IsJudged, IsVerdict, IsVerdictBy, clipped};

use httparse::Status;
use httparse::spans::{EMPTY_HEADER_SPAN, HeaderSpan, RequestSpans, parse_request};
use pocket_types::{Method, Pair, Seq, Text};
use std::alloc::{AllocError, Global};
use std::str;

/// The most bytes of a body.
const BODY_BYTES: usize = 1_048_576;

/// What a head asks for: all of a request but its body, of which the length is known.
#[derive(Drop)]
pub(crate) struct HeadParts {
    pub(crate) method: Method,
    pub(crate) target: Text,
    pub(crate) headers: Seq<Pair>,
    pub(crate) close: bool,
    /// The number of bytes of the body.
    pub(crate) length: usize,
}

/// What the lines of a head come to.
#[derive(Drop)]
pub(crate) enum Head {
    /// They are refused with this status.
    Refused(u16),
    /// They ask for a request.
    Asks(HeadParts),
}

/// Where the parts of the head are that all of these lines are.
fn head_spans(lines: &[u8], fields: &mut [HeaderSpan; 64]) -> Option<RequestSpans>
    requires { count_by is_line_feed lines.now ≤ 66 }
    ensures found { IfSome result (λ spans. (h : RequestHead) × IsHead lines.now h × IsRequestAt lines.now fields.new spans h) }
    ensures within { IfSome result (IsRequestWithin lines.now fields.new) }
    ensures none { IfNone result ((h : RequestHead) → ¬ (IsHead lines.now h)) }
{
    match parse_request(lines, fields) {
        Ok(Status::Complete(head)) if head.len == lines.len() => Some(head),
        _ => None,
    }
}

/// Whether a name is this word, which is in small letters, in any case of letters.
fn is_word(name: &[u8], word: &[u8]) -> bool
    requires { map to_ascii_lowercase word.now ≡ word.now }
    ensures { result ≡ is_named word.now name.now }
{
    name.eq_ignore_ascii_case(word)
}

/// The place of the first field of this name, which is written in small letters.
fn place_of(lines: &[u8], fields: &[HeaderSpan], name: &[u8]) -> Option<usize>
    requires fields { All (IsHeaderWithin (length lines.now)) fields.now }
    requires small { map to_ascii_lowercase name.now ≡ name.now }
    ensures { MatchOption result (values_of name.now (map (header_bytes lines.now) fields.now) ≡ []) (IsFirstNamed name.now lines.now fields.now) }
{
    for i in 0..fields.len() {
        if is_word(fields[i].name.of(lines), name) {
            return Some(i);
        }
    }
    None
}

/// The number of one digit more. Those over the limit of a body are one.
fn push_digit(number: usize, digit: u8) -> usize
    requires number { number ≤ 1_048_577 }
    requires digit { IsTrue (is_ascii_digit digit) }
    ensures { result ≡ min (number * 10 + digit_value digit) 1_048_577 }
{
    (number * 10 + (digit - b'0') as usize).min(BODY_BYTES + 1)
}

/// The number that digits write. Those over the limit of a body are one.
fn number_of(digits: &[u8]) -> usize
    requires { IsTrue (list_all is_ascii_digit digits.now) }
    ensures { result ≡ min (digits_value 10 digits.now) 1_048_577 }
{
    let mut number = 0;
    for digit in digits {
        number = push_digit(number, *digit);
    }
    number
}

fn is_digit(byte: u8) -> bool
    ensures { result ≡ is_ascii_digit byte }
{
    byte.is_ascii_digit()
}

fn are_digits(bytes: &[u8]) -> bool
    ensures { result ≡ list_all is_ascii_digit bytes.now }
{
    bytes.iter().all(|byte| is_digit(*byte))
}

/// The number that a value writes, where it is one or more digits.
fn number(value: &[u8]) -> Option<usize>
    ensures { result ≡ clipped (if is_number value.now then Some (digits_value 10 value.now) else None) }
{
    if value.is_empty() {
        return None;
    }
    if are_digits(value) {
        Some(number_of(value))
    } else {
        None
    }
}

/// Whether there is a field of this name, which is written in small letters.
fn has_field(lines: &[u8], fields: &[HeaderSpan], name: &[u8]) -> bool
    requires fields { All (IsHeaderWithin (length lines.now)) fields.now }
    requires small { map to_ascii_lowercase name.now ≡ name.now }
    ensures { result ≡ list_any (is_field name.now) (map (header_bytes lines.now) fields.now) }
{
    match place_of(lines, fields, name) {
        Some(_) => true,
        None => false,
    }
}

/// The length of the body behind a head with these fields. None: they say it twice, or not as a number.
fn length_of_body(lines: &[u8], fields: &[HeaderSpan]) -> Option<usize>
    requires { All (IsHeaderWithin (length lines.now)) fields.now }
    ensures { result ≡ clipped (body_length (map (header_bytes lines.now) fields.now)) }
{
    let Some(at) = place_of(lines, fields, b"content-length") else {
        return Some(0);
    };
    match place_of(lines, &fields[at + 1..], b"content-length") {
        Some(_) => None,
        None => number(fields[at].value.of(lines)),
    }
}

/// The method of this name.
fn method_named(name: &[u8]) -> Option<Method>
    ensures { result ≡ method_of name.now }
{
    if name == http::Method::GET.as_str().as_bytes() {
        Some(Method::Get)
    } else if name == http::Method::POST.as_str().as_bytes() {
        Some(Method::Post)
    } else if name == http::Method::PATCH.as_str().as_bytes() {
        Some(Method::Patch)
    } else if name == http::Method::PUT.as_str().as_bytes() {
        Some(Method::Put)
    } else if name == http::Method::DELETE.as_str().as_bytes() {
        Some(Method::Delete)
    } else {
        None
    }
}

/// The method of a head and the length of its body, or the status that refuses it, by what these rest on.
fn verdict(
    is_path: bool,
    length: Option<usize>,
    is_coded: bool,
    method: Option<Method>,
) -> Result<(Method, usize), u16>
    ensures { (said : Option ℕ) → length ≡ clipped said → IsVerdictBy is_path said is_coded method result }
{
    let Some(length) = length else {
        return Err(400);
    };
    if !is_path {
        return Err(400);
    }
    let Some(method) = method else {
        return Err(501);
    };
    if is_coded {
        return Err(501);
    }
    if length > BODY_BYTES {
        return Err(413);
    }
    Ok((method, length))
}

/// The method of a head and the length of its body, or the status that refuses it.
fn judge(lines: &[u8], head: &RequestSpans, fields: &[HeaderSpan]) -> Result<(Method, usize), u16>
    requires fields { All (IsHeaderWithin (length lines.now)) fields.now }
    requires method { IsWithin (length lines.now) head.now.method }
    requires path { IsWithin (length lines.now) head.now.path }
    ensures { IsVerdict (span_bytes lines.now head.now.method) (span_bytes lines.now head.now.path)
        (map (header_bytes lines.now) fields.now) result }
{
    let is_path = head.path.of(lines).starts_with(b"/");
    let length = length_of_body(lines, fields);
    let is_coded = has_field(lines, fields, b"transfer-encoding");
    let method = method_named(head.method.of(lines));
    verdict(is_path, length, is_coded, method)
}

/// Whether a header is `Connection`.
fn is_connection(header: &Pair) -> bool
    ensures { result ≡ is_header (codes "connection") header.now }
{
    is_word(header.name.as_str().as_bytes(), b"connection")
}

/// The first header `Connection`.
fn connection(headers: &[Pair]) -> Option<&Pair>
    ensures { option_copied result ≡ find (is_header (codes "connection")) headers.now }
{
    headers.iter().find(|header| is_connection(header))
}

/// Whether the connection ends after the reply to a head of this version with these headers.
fn ends_connection(version: u8, headers: &[Pair]) -> bool
    ensures { result ≡ asks_close version headers.now }
{
    let close = match connection(headers) {
        Some(header) => is_word(header.value.as_str().as_bytes(), b"close"),
        None => false,
    };
    version == 0 || close
}

/// A copy of the text that these bytes are.
fn text_of(alloc: Global, bytes: &[u8]) -> Result<Text, AllocError>
    requires { IsUtf8 bytes.now }
    ensures { IfOk result (λ text. text ≡ bytes.now) }
{
    match str::from_utf8(bytes) {
        Ok(text) => Text::from_str(alloc, text),
        Err(_) => unreachable!(),
    }
}

/// The header of a field, where its value is UTF-8.
fn header(alloc: Global, lines: &[u8], field: &HeaderSpan) -> Result<Option<Pair>, AllocError>
    requires within { IsHeaderWithin (length lines.now) field.now }
    requires name { IsUtf8 (span_bytes lines.now field.now.name) }
    ensures { IfOk result (λ pair. option_to_list pair ≡ header_of (header_bytes lines.now field.now)) }
{
    let Ok(text) = str::from_utf8(field.value.of(lines)) else {
        return Ok(None);
    };
    let value = Text::from_str(alloc, text)?;
    let name = text_of(alloc, field.name.of(lines))?;
    Ok(Some(Pair { name, value }))
}

/// The headers of fields.
fn headers(alloc: Global, lines: &[u8], fields: &[HeaderSpan]) -> Result<Seq<Pair>, AllocError>
    requires within { All (IsHeaderWithin (length lines.now)) fields.now }
    requires names { All (λ field. IsUtf8 (span_bytes lines.now field.name)) fields.now }
    ensures { IfOk result (λ pairs. pairs ≡ headers_of (map (header_bytes lines.now) fields.now)) }
{
    let mut pairs = Seq::new(alloc);
    for field in fields {
        if let Some(pair) = header(alloc, lines, field)? {
            pairs.push(pair)?;
        }
    }
    Ok(pairs)
}

/// What a head asks for that isn't refused.
fn parts(
    alloc: Global,
    lines: &[u8],
    head: &RequestSpans,
    fields: &[HeaderSpan],
    method: Method,
    body_len: usize,
) -> Result<HeadParts, AllocError>
    requires fields { All (IsHeaderWithin (length lines.now)) fields.now }
    requires names { All (λ field. IsUtf8 (span_bytes lines.now field.name)) fields.now }
    requires path { IsWithin (length lines.now) head.now.path }
    requires text { IsUtf8 (span_bytes lines.now head.now.path) }
    requires good { refusal (span_bytes lines.now head.now.method) (span_bytes lines.now head.now.path) (map (header_bytes lines.now) fields.now) ≡ None }
    requires method { method_of (span_bytes lines.now head.now.method) ≡ Some method }
    requires length { body_length (map (header_bytes lines.now) fields.now) ≡ Some body_len }
    ensures { IfOk result (IsAsked (span_bytes lines.now head.now.method) (span_bytes lines.now head.now.path) head.now.version
        (map (header_bytes lines.now) fields.now)) }
{
    let target = text_of(alloc, head.path.of(lines))?;
    let headers = headers(alloc, lines, fields)?;
    let close = ends_connection(head.version, headers.as_slice());
    Ok(HeadParts {
        method,
        target,
        headers,
        close,
        length: body_len,
    })
}

/// What a head comes to.
fn judged(
    alloc: Global,
    lines: &[u8],
    head: &RequestSpans,
    fields: &[HeaderSpan],
) -> Result<Head, AllocError>
    requires fields { All (IsHeaderWithin (length lines.now)) fields.now }
    requires names { All (λ field. IsUtf8 (span_bytes lines.now field.name)) fields.now }
    requires method { IsWithin (length lines.now) head.now.method }
    requires path { IsWithin (length lines.now) head.now.path }
    requires text { IsUtf8 (span_bytes lines.now head.now.path) }
    ensures { IfOk result (IsJudged (span_bytes lines.now head.now.method) (span_bytes lines.now head.now.path) head.now.version
        (map (header_bytes lines.now) fields.now)) }
{
    match judge(lines, head, fields) {
        Ok((method, length)) => {
            let parts = parts(alloc, lines, head, fields, method, length)?;
            Ok(Head::Asks(parts))
        }
        Err(status) => Ok(Head::Refused(status)),
    }
}

/// What the lines of a head come to.
pub(crate) fn read_head(alloc: Global, lines: &[u8]) -> Result<Head, AllocError>
    requires { count_by is_line_feed lines.now ≤ 66 }
    ensures { IfOk result (IsHeadOf lines.now) }
{
    let mut fields = [EMPTY_HEADER_SPAN; 64];
    let Some(head) = head_spans(lines, &mut fields) else {
        return Ok(Head::Refused(400));
    };
    judged(alloc, lines, &head, &fields[..head.headers])
}
