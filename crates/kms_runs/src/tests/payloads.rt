// Payloads: posted in one run and read in another, under the same master keys, under others, and where a draw fails.
use super::init::FRESH;
use super::{CREATED, EMPTY, KEYS, WORDS, joined, sends, serving};
use crate::row::{Row, ran};
use kms_host::{Bytes, Count, MemoryHost, NoMemory, Pick};
use kms_http::{FaultReply, fault_reply};
use kms_serve::Status;
use kms_world::{Id, Name};
use std::alloc::{AllocError, Global};
use std::rt::HostRuntime;
use std::test::Fail;

const POST_PAYLOAD: &[u8] =
    b"POST /v1/secrets HTTP/1.1\r\nX-Project-Id: p1\r\nX-User-Id: u1\r\nX-Roles: creator\r\nContent-Type: application/json\r\nContent-Length: 66\r\n\r\n{\"name\":\"a\",\"payload\":\"hello\",\"payload_content_type\":\"text/plain\"}";

const GET_PAYLOAD: &[u8] =
    b"GET /v1/secrets/01234567-89ab-8cde-8000-000000000000/payload HTTP/1.1\r\nX-Project-Id: p1\r\nX-User-Id: u1\r\nX-Roles: creator\r\n\r\n";

const HELLO: &[u8] =
    b"HTTP/1.1 200 OK\r\nDate: Sat, 26 Oct 1985 08:20:00 GMT\r\nContent-Type: text/plain\r\nContent-Length: 5\r\n\r\nhello";

// Another master key: 32 zeros.
const OTHER_KEYS: &[u8] = b"AAAAAAAAAAAAAAAAAAAAAAAAAAAAAAAAAAAAAAAAAAA=\n";

// Both, the other one first.
const BOTH_KEYS: &[u8] =
    b"AAAAAAAAAAAAAAAAAAAAAAAAAAAAAAAAAAAAAAAAAAA=\nAAECAwQFBgcICQoLDA0ODxAREhMUFRYXGBkaGxwdHh8=\n";

// A run under this key file, over this file 0, which asks for the payload.
fn asking<'a>(keys: &'a [u8], file: &'a [u8]) -> Row<'a> {
    Row {
        words: &WORDS,
        keys: Some(keys),
        file_0: file,
        file_1: EMPTY,
        line: GET_PAYLOAD,
        piece: 65536,
        fault: None,
        passing: None,
    }
}

// Whether a run ends so, and has sent this.
fn ends(alloc: Global, row: Row<'_>, status: Status, sent: &[u8]) -> bool {
    match ran(alloc, row) {
        Ok((ended, host)) => ended == status && sends(&host, sent),
        Err(NoMemory) => false,
    }
}

// File 0, as it is kept.
fn file_of(alloc: Global, host: &MemoryHost) -> Result<Bytes, NoMemory> {
    let files = host.image(Pick::Kept)?;
    Bytes::of(alloc, files[0].as_slice())
}

// File 0 of a store in which a payload was posted. `NoMemory` where it wasn't stored, too.
fn posted(alloc: Global) -> Result<Bytes, NoMemory> {
    match ran(alloc, serving(&FRESH, POST_PAYLOAD, 65536)) {
        Ok((ended, host)) => {
            if ended == Status::Done && sends(&host, CREATED) {
                file_of(alloc, &host)
            } else {
                Err(NoMemory)
            }
        }
        Err(NoMemory) => Err(NoMemory),
    }
}

#[test]
fn a_payload_is_read_in_another_run(rt: HostRuntime) -> Result<(), Fail> {
    let alloc = rt.alloc();
    let file = posted(alloc)?;
    assert!(rt; ends(alloc, asking(KEYS, file.as_slice()), Status::Done, HELLO));
    assert!(rt;
        ends(
            alloc,
            asking(BOTH_KEYS, file.as_slice()),
            Status::Done,
            HELLO
        )
    );
    Ok(())
}

// Whether a run over a payload under another master key names the project.
fn names_the_project(alloc: Global, file: &[u8]) -> bool {
    match Name::read(b"p1") {
        Some(project) => ends(
            alloc,
            asking(OTHER_KEYS, file),
            Status::UnknownMaster(project),
            EMPTY,
        ),
        None => false,
    }
}

// These bytes with another character at the end of the last token, before the fields and the commit mark behind it.
fn damaged(alloc: Global, file: &[u8]) -> Result<Vec<u8>, AllocError> {
    let mut bytes = file.to_vec(alloc)?;
    if let Some(last) = bytes.len().checked_sub(10) {
        bytes[last] = if bytes[last] == b'A' { b'B' } else { b'A' };
    }
    Ok(bytes)
}

#[test]
fn what_does_not_open_is_refused(rt: HostRuntime) -> Result<(), Fail> {
    let alloc = rt.alloc();
    let file = posted(alloc)?;
    assert!(rt; names_the_project(alloc, file.as_slice()));
    let bytes = damaged(alloc, file.as_slice())?;
    let secret = Status::DamagedPayload(Id(0x0123_4567_89ab_8cde_8000_0000_0000_0000));
    assert!(rt; ends(alloc, asking(KEYS, &bytes), secret, EMPTY));
    Ok(())
}

// Whether a payload that is posted where this draw fails is answered so, and the next one is stored.
fn fails(alloc: Global, nth: u64) -> Result<bool, NoMemory> {
    let requests = joined(alloc, &[POST_PAYLOAD, POST_PAYLOAD])?;
    let replies = joined(alloc, &[fault_reply(FaultReply::F2), CREATED])?;
    let mut row = serving(&FRESH, &requests, 65536);
    row.fault = Some((Count::Draw, nth));
    Ok(ends(alloc, row, Status::Done, &replies))
}

// The draws of a project's first payload: its key, the vector that this is wrapped with, and that of the payload's token.
#[test]
fn each_draw_fails(rt: HostRuntime) -> Result<(), Fail> {
    let alloc = rt.alloc();
    for nth in 1..4u64 {
        assert!(rt; fails(alloc, nth)?);
    }
    Ok(())
}
