// Printed replies.
ghost use Rattle.std.specs.Prelude.{◌≡◌, ◌<◌, ◌++◌, [], IfOk, OnOk, is_some, true};
ghost use Rattle.http.specs.StatusCode.{reason_phrase};
ghost use Rattle.kms_http.specs.Reply as spec;
ghost use Rattle.kms_http.specs.Lines.{field};

use crate::allow::put_allow;
use crate::date::date_text;
use http::StatusCode;
use itoa::Buffer;
use kms_world::{Allow, Bytes, Media2, NoMemory, Reply};
use std::alloc::Global;

fn put_field(out: &mut Bytes, name: &[u8], value: &[u8]) -> Result<(), NoMemory>
    ensures { OnOk result (out.new ≡ out.old ++ field name.now value.now) }
{
    out.push_all(name)?;
    out.push_all(b": ")?;
    out.push_all(value)?;
    out.push_all(b"\r\n")?;
    Ok(())
}

fn code_of(status: u16) -> StatusCode
    requires { is_some (reason_phrase status) ≡ true }
    ensures { result ≡ status }
{
    StatusCode::from_u16(status).unwrap()
}

#[tactic(auto, unfolding(crate::specs::Reply::reason_of))]
fn reason_of(code: StatusCode) -> &'static str
    ensures { result.now ≡ spec.reason_of code }
{
    match code.canonical_reason() {
        Some(reason) => reason,
        None => "",
    }
}

fn put_status(out: &mut Bytes, status: u16) -> Result<(), NoMemory>
    requires { is_some (reason_phrase status) ≡ true }
    ensures { OnOk result (out.new ≡ out.old ++ spec.status_line status) }
{
    let code = code_of(status);
    out.push_all(b"HTTP/1.1 ")?;
    out.push_all(code.as_str().as_bytes())?;
    out.push_all(b" ")?;
    out.push_all(reason_of(code).as_bytes())?;
    out.push_all(b"\r\n")?;
    Ok(())
}

fn media_text(media: Media2) -> &'static [u8]
    ensures { result.now ≡ spec.media_text media }
{
    match media {
        Media2::Json => b"application/json",
        Media2::TextPlain => b"text/plain",
        Media2::OctetStream => b"application/octet-stream",
    }
}

fn put_media(out: &mut Bytes, media: Option<Media2>) -> Result<(), NoMemory>
    ensures { OnOk result (out.new ≡ out.old ++ spec.media_field media) }
{
    if let Some(media) = media {
        put_field(out, b"Content-Type", media_text(media))?;
    }
    Ok(())
}

fn put_length(out: &mut Bytes, status: u16, size: usize) -> Result<(), NoMemory>
    ensures { OnOk result (out.new ≡ out.old ++ spec.length_field status size) }
{
    if status != 204 {
        let mut buffer = Buffer::new();
        put_field(out, b"Content-Length", buffer.format(size).as_bytes())?;
    }
    Ok(())
}

fn put_allowed(out: &mut Bytes, status: u16, allow: Option<Allow>) -> Result<(), NoMemory>
    ensures { OnOk result (out.new ≡ out.old ++ spec.allow_field status allow) }
{
    if status == 405 {
        out.push_all(b"Allow: ")?;
        if let Some(allow) = allow {
            put_allow(out, allow)?;
        }
        out.push_all(b"\r\n")?;
    }
    Ok(())
}

fn put_challenge(out: &mut Bytes, status: u16) -> Result<(), NoMemory>
    ensures { OnOk result (out.new ≡ out.old ++ spec.challenge_field status) }
{
    if status == 401 {
        put_field(out, b"WWW-Authenticate", b"Keystone")?;
    }
    Ok(())
}

fn put_close(out: &mut Bytes, close: bool) -> Result<(), NoMemory>
    ensures { OnOk result (out.new ≡ out.old ++ spec.close_field close) }
{
    if close {
        put_field(out, b"Connection", b"close")?;
    }
    Ok(())
}

// The head of a reply has fewer bytes, so that a reply takes its memory at once.
const HEAD_ROOM: usize = 320;

// No bytes, with memory for so many.
fn with_room(alloc: Global, room: usize) -> Result<Bytes, NoMemory>
    ensures { IfOk result (λ b. b ≡ []) }
{
    Ok(Bytes::from_vec(Vec::with_capacity(alloc, room)?))
}

/// The bytes of a reply, dated with this second since 1970, and saying that the line ends where `close` (RFC 9112
/// sections 2.1 and 4).
#[tactic(auto, using(std::proofs::lemmas::List::append_assoc), unfolding(crate::specs::Reply::printed))]
pub fn print(alloc: Global, reply: &Reply, moment: u64, close: bool) -> Result<Bytes, NoMemory>
    requires time { moment < 253402300800 }
    requires status { is_some (reason_phrase reply.now.status) ≡ true }
    ensures { IfOk result (λ b. b ≡ spec.printed reply.now moment close) }
{
    let body = reply.body.as_slice();
    let mut out = with_room(alloc, HEAD_ROOM + body.len())?;
    put_status(&mut out, reply.status)?;
    put_field(&mut out, b"Date", &date_text(moment))?;
    put_media(&mut out, reply.media)?;
    put_length(&mut out, reply.status, body.len())?;
    put_allowed(&mut out, reply.status, reply.allow)?;
    put_challenge(&mut out, reply.status)?;
    put_close(&mut out, close)?;
    out.push_all(b"\r\n")?;
    out.push_all(body)?;
    Ok(out)
}
