// Bytes in, bytes out: requests and replies from outside, and that a run succeeds where memory is ample.
mod init;
mod keys;
mod payloads;
mod reading;
mod status;
mod store;

use crate::row::{Row, ran};
use kms_host::{Count, MemoryHost, NoMemory};
use kms_serve::Status;
use std::alloc::{AllocError, Global};
use std::rt::HostRuntime;
use std::test::Fail;

const POST: &[u8] =
    b"POST /v1/secrets HTTP/1.1\r\nX-Project-Id: p1\r\nX-User-Id: u1\r\nX-Roles: creator\r\nContent-Type: application/json\r\nContent-Length: 12\r\n\r\n{\"name\":\"a\"}";

const CREATED: &[u8] =
    b"HTTP/1.1 201 Created\r\nDate: Sat, 26 Oct 1985 08:20:00 GMT\r\nContent-Type: application/json\r\nContent-Length: 73\r\n\r\n{\"secret_ref\":\"http://k/v1/secrets/01234567-89ab-8cde-8000-000000000000\"}";

const GET: &[u8] =
    b"GET /v1/secrets/01234567-89ab-8cde-8000-000000000000 HTTP/1.1\r\nX-Project-Id: p1\r\nX-User-Id: u1\r\nX-Roles: creator\r\n\r\n";

const SHOWN: &[u8] =
    b"HTTP/1.1 200 OK\r\nDate: Sat, 26 Oct 1985 08:20:00 GMT\r\nContent-Type: application/json\r\nContent-Length: 272\r\n\r\n{\"algorithm\":null,\"bit_length\":null,\"created\":\"1985-10-26T08:20:00\",\"creator_id\":\"u1\",\"expiration\":null,\"mode\":null,\"name\":\"a\",\"secret_ref\":\"http://k/v1/secrets/01234567-89ab-8cde-8000-000000000000\",\"secret_type\":\"opaque\",\"status\":\"ACTIVE\",\"updated\":\"1985-10-26T08:20:00\"}";

const GET_SECOND: &[u8] =
    b"GET /v1/secrets/01234567-89ab-8cde-8000-000000000001 HTTP/1.1\r\nX-Project-Id: p1\r\nX-User-Id: u1\r\nX-Roles: creator\r\n\r\n";

const ABSENT: &[u8] =
    b"HTTP/1.1 404 Not Found\r\nDate: Sat, 26 Oct 1985 08:20:00 GMT\r\nContent-Type: application/json\r\nContent-Length: 57\r\n\r\n{\"code\":404,\"description\":\"NoObject\",\"title\":\"Not Found\"}";

const WORDS: [&str; 7] = [
    "pipe",
    "--store",
    "s",
    "--keys",
    "k",
    "--endpoint",
    "http://k/v1",
];

const EMPTY: &[u8] = b"";

// The key file of 32 bytes, which count from 0.
const KEYS: &[u8] = b"AAECAwQFBgcICQoLDA0ODxAREhMUFRYXGBkaGxwdHh8=\n";

// A run of these words over a store whose file 0 is this.
fn over<'a>(words: &'a [&'a str], file: &'a [u8], line: &'a [u8], piece: usize) -> Row<'a> {
    Row {
        words,
        keys: Some(KEYS),
        file_0: file,
        file_1: EMPTY,
        line,
        piece,
        fault: None,
        passing: None,
    }
}

// A run that serves the store of this file 0.
fn serving<'a>(file: &'a [u8], line: &'a [u8], piece: usize) -> Row<'a> {
    over(&WORDS, file, line, piece)
}

fn joined(alloc: Global, parts: &[&[u8]]) -> Result<Vec<u8>, AllocError> {
    let mut whole = Vec::new(alloc);
    for part in parts {
        whole.extend_from_slice(*part)?;
    }
    Ok(whole)
}

// Whether this was sent, with no call that was out of memory.
fn sends(host: &MemoryHost, sent: &[u8]) -> bool {
    host.sent(0) == sent && host.wanted() == 0
}

// Whether a run over a fresh store, whose line brings these bytes in pieces, and fails at the given call where there is one,
// ends so, having sent this.
fn serves(
    alloc: Global,
    bytes: &[u8],
    piece: usize,
    fails: Option<u64>,
    status: Status,
    sent: &[u8],
) -> Result<bool, NoMemory> {
    let mut row = serving(&init::FRESH, bytes, piece);
    if let Some(nth) = fails {
        row.fault = Some((Count::Link, nth));
    }
    let (ended, host) = ran(alloc, row)?;
    Ok(ended == status && sends(&host, sent))
}

#[test]
fn secrets_are_made_and_shown(rt: HostRuntime) -> Result<(), Fail> {
    let alloc = rt.alloc();
    let requests = joined(alloc, &[GET, POST, GET, GET_SECOND])?;
    let replies = joined(alloc, &[ABSENT, CREATED, SHOWN, ABSENT])?;
    assert!(rt; serves(alloc, b"", 1, None, Status::Done, b"")?);
    assert!(rt; serves(alloc, POST, 200, None, Status::Done, CREATED)?);
    assert!(rt; serves(alloc, &requests, 1, None, Status::Done, &replies)?);
    assert!(rt; serves(alloc, &requests, 65536, None, Status::Done, &replies)?);
    Ok(())
}

#[test]
fn streams_end_inside_messages(rt: HostRuntime) -> Result<(), Fail> {
    let alloc = rt.alloc();
    let cut = joined(alloc, &[POST, &POST[..137]])?;
    assert!(rt; serves(alloc, b"HELLO", 2, None, Status::Rest(0), b"")?);
    assert!(rt; serves(alloc, &cut, 1, None, Status::Rest(144), CREATED)?);
    assert!(rt; serves(alloc, &cut, 100, None, Status::Rest(144), CREATED)?);
    Ok(())
}

#[test]
fn a_line_fails(rt: HostRuntime) -> Result<(), Fail> {
    let alloc = rt.alloc();
    let twice = joined(alloc, &[POST, POST])?;
    assert!(rt; serves(alloc, POST, 144, Some(1), Status::LinkFault, b"")?);
    assert!(rt; serves(alloc, POST, 144, Some(2), Status::LinkFault, b"")?);
    assert!(rt; serves(alloc, &twice, 144, Some(3), Status::LinkFault, CREATED)?);
    Ok(())
}

// Whether these words are not understood, and nothing is sent.
fn refuses<'a>(alloc: Global, words: &'a [&'a str]) -> Result<bool, NoMemory> {
    let (ended, host) = ran(alloc, over(words, &init::FRESH, POST, 144))?;
    Ok(ended == Status::Words && host.sent(0).is_empty())
}

#[test]
fn words_are_exact(rt: HostRuntime) -> Result<(), Fail> {
    let alloc = rt.alloc();
    let dash = ["pipe", "--store", "s", "--keys", "-k", "--endpoint", "e"];
    assert!(rt; refuses(alloc, &WORDS[..6])?);
    assert!(rt; refuses(alloc, &dash)?);
    Ok(())
}
