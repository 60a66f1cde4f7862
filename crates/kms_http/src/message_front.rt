// What stands at the front of a stream.
ghost use Rattle.std.specs.Prelude.{◌≡◌, ◌≤◌, Ok, IfOk, length, take, drop, map, Some, None, All};
ghost use Rattle.std.specs.Str.{IsUtf8};
ghost use Rattle.httparse.specs.Spans.{IsHeaderWithin, IsRequestWithin, header_bytes, span_bytes};
ghost use Rattle.kms_http.specs.MessageFound.{IsFound, IsFoundAfter, head_at};
ghost use Rattle.kms_http.specs.HeadEnd.{head_len};
ghost use Rattle.kms_http.specs.HeadEnd as ends;
ghost use Rattle.kms_http.specs.Messages as spec;
ghost use Rattle.kms_http.specs.Quiet.{IsQuiet};

use crate::close::closes;
use crate::fields::Fields;
use crate::framing::framing;
use crate::head_end;
use crate::message::{Head, Message};
use crate::whole_head::{line_feeds, whole_head};
use httparse::spans::{EMPTY_HEADER_SPAN, HeaderSpan, RequestSpans};
use kms_world::{Bytes, NoMemory, Refusal, Text};
use std::alloc::Global;

/// What stands at the front of a stream; of a whole message also how many bytes it has.
#[derive(Drop)]
pub enum Found {
    Whole(Message, usize),
    Bad(Refusal),
    /// the begin of a head
    Headless,
    /// a head, and the begin of its body: so many bytes are wanted in all
    Part(usize),
}

fn text_of(alloc: Global, bytes: &[u8]) -> Result<Text, NoMemory>
    requires { IsUtf8 bytes.now }
    ensures { IfOk result (λ text. text ≡ bytes.now) }
{
    match str::from_utf8(bytes) {
        Ok(text) => Text::of(alloc, text),
        Err(_) => unreachable!(),
    }
}

fn copy_head(
    alloc: Global,
    bytes: &[u8],
    headers: &[HeaderSpan; 64],
    spans: RequestSpans,
) -> Result<Head, NoMemory>
    requires within { IsRequestWithin bytes.now headers.now spans }
    requires method { IsUtf8 (span_bytes bytes.now spans.method) }
    requires target { IsUtf8 (span_bytes bytes.now spans.path) }
    ensures { IfOk result (λ head. head ≡ head_at bytes.now headers.now spans) }
{
    let method = text_of(alloc, spans.method.of(bytes))?;
    let target = text_of(alloc, spans.path.of(bytes))?;
    let fields = Fields::of(alloc, bytes, &headers[..spans.headers])?;
    Ok(Head {
        method,
        target,
        fields,
    })
}

// A whole message, with a body of so many bytes.
fn whole(
    alloc: Global,
    head: Head,
    close: bool,
    rest: &[u8],
    at: usize,
    size: usize,
) -> Result<Found, NoMemory>
    requires fits { size ≤ length rest.now }
    requires limit { at ≤ ends.head_limit }
    ensures { IfOk result (λ f. IsFoundAfter f at (spec.with_size (Ok size) head close) rest.now) }
{
    let body = Bytes::of(alloc, &rest[..size])?;
    let message = Message { head, body, close };
    Ok(Found::Whole(message, at + size))
}

// What stands after a head of `at` bytes.
fn with_parts(
    alloc: Global,
    head: Head,
    minor: u8,
    rest: &[u8],
    at: usize,
) -> Result<Found, NoMemory>
    requires { at ≤ ends.head_limit }
    ensures { IfOk result (λ f. IsFoundAfter f at (spec.with_parts head minor) rest.now) }
{
    match framing(head.method.as_str().as_bytes(), &head.fields) {
        Err(refusal) => Ok(Found::Bad(refusal)),
        Ok(size) => {
            if rest.len() < size {
                return Ok(Found::Part(at + size));
            }
            let close = closes(minor, &head.fields);
            whole(alloc, head, close, rest, at, size)
        }
    }
}

fn with_head(alloc: Global, head: &[u8], rest: &[u8]) -> Result<Found, NoMemory>
    requires { length head.now ≤ ends.head_limit }
    ensures { IfOk result (λ f. IsFoundAfter f (length head.now) (spec.with_head head.now) rest.now) }
{
    if line_feeds(head) > 66 {
        return Ok(Found::Bad(Refusal::HeadTooLong));
    }
    let mut headers = [EMPTY_HEADER_SPAN; 64];
    match whole_head(head, &mut headers) {
        None => Ok(Found::Bad(Refusal::BadMessage)),
        Some(spans) => {
            let parts = copy_head(alloc, head, &headers, spans)?;
            with_parts(alloc, parts, spans.version, rest, head.len())
        }
    }
}

// What bytes are whose head has no end.
fn headless(bytes: &[u8]) -> Found
    requires { None ≡ head_len (take ends.head_limit bytes.now) }
    ensures { IsFound result bytes.now }
{
    if bytes.len() < head_end::HEAD_LIMIT {
        Found::Headless
    } else {
        Found::Bad(Refusal::HeadTooLong)
    }
}

/// What stands at the front of the bytes of a stream, where no empty line begins before this place.
pub fn read_front(alloc: Global, bytes: &[u8], from: usize) -> Result<Found, NoMemory>
    requires within { from ≤ length bytes.now }
    requires limit { from ≤ ends.head_limit }
    requires quiet { IsQuiet from bytes.now }
    ensures { IfOk result (λ f. IsFound f bytes.now) }
{
    match head_end::head_at(bytes, from) {
        None => Ok(headless(bytes)),
        Some(n) => {
            let (head, rest) = bytes.split_at(n);
            with_head(alloc, head, rest)
        }
    }
}
