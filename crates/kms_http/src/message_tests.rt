ghost use Rattle.std.specs.Prelude.{◌<◌, ◌≤◌, length};

use crate::{MessageRead, MessageReader};
use kms_world::{NoMemory, Refusal};
use std::alloc::Global;
use std::test::Fail;

fn word(read: MessageRead) -> &'static str {
    match read {
        MessageRead::Message(message) => { if message.close { "close" } else { "message" } }
        MessageRead::More => "more",
        MessageRead::Bad(Refusal::BadMessage) => "bad message",
        MessageRead::Bad(Refusal::HeadTooLong) => "head too long",
        MessageRead::Bad(Refusal::BodyTooLong) => "body too long",
        MessageRead::Bad(Refusal::LengthRequired) => "length required",
        MessageRead::Bad(_) => "another refusal",
    }
}

// What a reader says first of these bytes.
fn first(alloc: Global, bytes: &[u8]) -> Result<&'static str, NoMemory>
    requires { length bytes.now < 100000 }
{
    let mut reader = MessageReader::new(alloc);
    reader.feed(bytes)?;
    Ok(word(reader.next()?))
}

#[test]
fn fronts(rt: HostRuntime) -> Result<(), Fail> {
    let table: [(&[u8], &str); 30] = [
        (b"GET /v1/secrets HTTP/1.1\r\n\r\n", "message"),
        (b"\r\n\nGET / HTTP/1.1\r\nA:b\r\n\r\n", "message"),
        (b"GET / HTTP/1.1\nA: b\nC: d\r\n\r\n", "message"),
        (b"GET / HTTP/1.1\r\n\nA: b\r\n\r\n", "bad message"),
        (b"GET / HTTP/1.1\n\n", "more"),
        (b"GET / HTTP/1.0\r\n\r\n", "close"),
        (b"GET / HTTP/1.2\r\n\r\n", "bad message"),
        (
            b"GET / HTTP/1.1\r\nConnection: keep-alive ,\tCLOSE \r\n\r\n",
            "close",
        ),
        (
            b"GET / HTTP/1.1\r\nConnection: closed, a close\r\n\r\n",
            "message",
        ),
        (
            b"GET / HTTP/1.1\r\nconnection: a\r\nCONNECTION: close\r\n\r\n",
            "close",
        ),
        (b"GET /\xff HTTP/1.1\r\n\r\n", "bad message"),
        (b"GET /\xc3\xa4 HTTP/1.1\r\n\r\n", "message"),
        (b"GET / HTTP/1.1\r\nA : b\r\n\r\n", "bad message"),
        (b"GET / HTTP/1.1\r\nA: b\r\n c\r\n\r\n", "bad message"),
        (b"GET / HTTP/1.1\r\nA: \0\r\n\r\n", "bad message"),
        (b"GET / HTTP/1.1\r\nA: \xff\r\n\r\n", "message"),
        (b"GET * HTTP/1.1\r\nHost: a\r\nHost: b\r\n\r\n", "message"),
        (b"POST / HTTP/1.1\r\n\r\n", "length required"),
        (b"DELETE / HTTP/1.1\r\n\r\n", "message"),
        (b"PATCH / HTTP/1.1\r\nContent-length: 2\r\n\r\n{", "more"),
        (
            b"PATCH / HTTP/1.1\r\nContent-length: 02\r\n\r\n{}",
            "message",
        ),
        (b"PUT / HTTP/1.1\r\nContent-Length: 65536\r\n\r\n", "more"),
        (
            b"PUT / HTTP/1.1\r\nContent-Length: 65537\r\n\r\n",
            "body too long",
        ),
        (
            b"PUT / HTTP/1.1\r\nContent-Length: 99999999999999999999999999999\r\n\r\n",
            "body too long",
        ),
        (
            b"PUT / HTTP/1.1\r\nContent-Length: +1\r\n\r\n",
            "bad message",
        ),
        (b"PUT / HTTP/1.1\r\nContent-Length:\r\n\r\n", "bad message"),
        (
            b"GET / HTTP/1.1\r\nContent-Length: 1\r\ncontent-length: 1\r\n\r\na",
            "bad message",
        ),
        (
            b"GET / HTTP/1.1\r\nContent-Length: x\r\nTransfer-Encoding: chunked\r\n\r\n",
            "length required",
        ),
        (b"HELLO\r\n\r\n", "bad message"),
        (b"", "more"),
    ];
    for (bytes, want) in table {
        if bytes.len() >= 100000 {
            continue;
        }
        assert_eq!(rt; first(rt.alloc(), bytes)?, want);
    }
    Ok(())
}

#[test]
fn limits(rt: HostRuntime) -> Result<(), Fail> {
    let alloc = rt.alloc();
    let many = vec![in alloc; b'A'; 16384]?;
    assert_eq!(rt; first(alloc, &many[..16383])?, "more");
    assert_eq!(rt; first(alloc, &many)?, "head too long");
    Ok(())
}

// What a reader says first of a head with so many fields.
fn first_of(alloc: Global, fields: usize) -> Result<&'static str, NoMemory> {
    let mut bytes = Vec::new(alloc);
    bytes.extend_from_slice(b"GET / HTTP/1.1\r\n")?;
    for _ in 0..fields {
        bytes.extend_from_slice(b"A: b\r\n")?;
    }
    bytes.extend_from_slice(b"\r\n")?;
    if bytes.len() < 100000 {
        first(alloc, &bytes)
    } else {
        Ok("long")
    }
}

#[test]
fn fields(rt: HostRuntime) -> Result<(), Fail> {
    let alloc = rt.alloc();
    assert_eq!(rt; first_of(alloc, 64)?, "message");
    assert_eq!(rt; first_of(alloc, 65)?, "head too long");
    Ok(())
}

#[test]
fn pieces(rt: HostRuntime) -> Result<(), Fail> {
    let alloc = rt.alloc();
    let bytes = b"PUT /a HTTP/1.1\r\nContent-Length: 3\r\n\r\nabcGET /b HTTP/1.1\r\n\r\nGE";
    let mut reader = MessageReader::new(alloc);
    let mut seen = 0;
    for b in bytes {
        if reader.passed() > 1000 || reader.held() > 1000 {
            break;
        }
        reader.feed(&[*b])?;
        if word(reader.next()?) == "message" {
            seen = u64::saturating_add(seen, 1);
        }
    }
    assert_eq!(rt; seen, 2);
    assert_eq!(rt; reader.held(), 2);
    Ok(())
}
