// Serving over a store in memory: what is kept, what a stop leaves, and which stores are refused.
use super::init::{FRESH, leaves};
use super::{ABSENT, CREATED, EMPTY, GET, POST, SHOWN, serving};
use crate::row::ran;
use kms_host::{MemoryHost, NoMemory, Pick};
use kms_http::{FaultReply, fault_reply};
use kms_journal::Place;
use kms_serve::Status;
use std::alloc::Global;
use std::rt::HostRuntime;
use std::test::Fail;

// The fresh store with one secret: its commit mark is set, and after it stand the record's length, its number of steps,
// the step, which puts a secret, and the next commit mark.
static STORED: [u8; 112] = [
    0x01, 0x42, 0x4b, 0x4d, 0x53, 0x54, 0x4f, 0x52, 0x45, 0x01, 0x00, 0x00, 0x00, 0x00, 0x00, 0x00,
    0x00, 0x01, 0x00, 0x12, 0x34, 0x56, 0x78, 0x9a, 0xbc, 0xde, 0x00, 0x00, 0x00, 0x00, 0x00, 0x00,
    0x00, 0x00, 0x00, 0x00, 0x00, 0x00, 0x00, 0x00, 0x00, 0x00, 0x00, 0x00, 0x00, 0x00, 0x00, 0x00,
    0x00, 0x08, 0x00, 0x00, 0x00, 0x00, 0x00, 0x00, 0x00, 0x00, 0x01, 0x00, 0x00, 0x00, 0x30, 0x00,
    0x00, 0x00, 0x01, 0x00, 0x01, 0x05, 0x00, 0x00, 0x00, 0x00, 0x00, 0x00, 0x00, 0x00, 0x00, 0x02,
    0x70, 0x31, 0x00, 0x02, 0x75, 0x31, 0x00, 0x00, 0x00, 0x00, 0x1d, 0xc0, 0x9e, 0xb0, 0x00, 0x00,
    0x00, 0x00, 0x1d, 0xc0, 0x9e, 0xb0, 0x01, 0x00, 0x01, 0x61, 0x00, 0x00, 0x00, 0x05, 0x00, 0x00,
];

// The fresh store with a record after it that puts nothing that is known.
static DAMAGED: [u8; 71] = [
    0x01, 0x42, 0x4b, 0x4d, 0x53, 0x54, 0x4f, 0x52, 0x45, 0x01, 0x00, 0x00, 0x00, 0x00, 0x00, 0x00,
    0x00, 0x01, 0x00, 0x12, 0x34, 0x56, 0x78, 0x9a, 0xbc, 0xde, 0x00, 0x00, 0x00, 0x00, 0x00, 0x00,
    0x00, 0x00, 0x00, 0x00, 0x00, 0x00, 0x00, 0x00, 0x00, 0x00, 0x00, 0x00, 0x00, 0x00, 0x00, 0x00,
    0x00, 0x08, 0x00, 0x00, 0x00, 0x00, 0x00, 0x00, 0x00, 0x00, 0x01, 0x00, 0x00, 0x00, 0x07, 0x00,
    0x00, 0x00, 0x01, 0x00, 0x01, 0x10, 0x00,
];

// The calls of the store before the first request: naming it, and those that open it.
const OPENING: u64 = 10;

// Whether a run over a store whose file 0 is this ends so, having sent this and leaving that.
fn serves(
    alloc: Global,
    file: &[u8],
    requests: &[u8],
    status: Status,
    sent: &[u8],
    left: &[u8],
) -> Result<bool, NoMemory> {
    let (ended, host) = ran(alloc, serving(file, requests, 65536))?;
    Ok(ended == status && leaves(&host, sent, left))
}

#[test]
fn a_secret_is_kept(rt: HostRuntime) -> Result<(), Fail> {
    let alloc = rt.alloc();
    assert!(rt; serves(alloc, &FRESH, POST, Status::Done, CREATED, &STORED)?);
    assert!(rt; serves(alloc, &STORED, GET, Status::Done, SHOWN, &STORED)?);
    Ok(())
}

// Whether a run over a store whose file 0 is this is refused so, and leaves it.
fn refused(alloc: Global, file: &[u8], status: Status) -> Result<bool, NoMemory> {
    serves(alloc, file, GET, status, EMPTY, file)
}

#[test]
fn stores_are_refused(rt: HostRuntime) -> Result<(), Fail> {
    let alloc = rt.alloc();
    let at_first = Status::Damaged(Place::Body { file: 0, at: 0 });
    let at_record = Status::Damaged(Place::Body { file: 0, at: 58 });
    assert!(rt; refused(alloc, EMPTY, Status::NoStore)?);
    assert!(rt; refused(alloc, &FRESH[..58], at_first)?);
    assert!(rt; refused(alloc, &DAMAGED, at_record)?);
    Ok(())
}

// The answer of a run over what a stop leaves to the request for the secret: whether it is there.
fn is_found(alloc: Global, host: &MemoryHost, pick: Pick) -> Result<Option<bool>, NoMemory> {
    let image = host.image(pick)?;
    let mut row = serving(image[0].as_slice(), GET, 65536);
    row.file_1 = image[1].as_slice();
    let (ended, again) = ran(alloc, row)?;
    if ended != Status::Done {
        return Ok(None);
    }
    if again.sent(0) == SHOWN {
        return Ok(Some(true));
    }
    Ok(if again.sent(0) == ABSENT {
        Some(false)
    } else {
        None
    })
}

// A run that is to store a secret, where the store's calls fail after so many.
fn stopped(alloc: Global, passing: u64) -> Result<(Status, MemoryHost), NoMemory> {
    let mut row = serving(&FRESH, POST, 65536);
    row.passing = Some(passing);
    ran(alloc, row)
}

// Whether it sent no more than the fault of the store, and each image that is tried opens with the secret or without.
fn is_safe(alloc: Global, passing: u64) -> Result<bool, NoMemory> {
    let (ended, host) = stopped(alloc, passing)?;
    Ok(
        ended == Status::StoreFault
            && host.sent(0) == fault_reply(FaultReply::F1)
            && is_found(alloc, &host, Pick::Lost)?.is_some()
            && is_found(alloc, &host, Pick::Kept)?.is_some()
            && is_found(alloc, &host, Pick::Torn(1))?.is_some(),
    )
}

// Whether it sent nothing where the store's calls fail before it is opened.
fn is_silent(alloc: Global, passing: u64) -> Result<bool, NoMemory> {
    let (ended, host) = stopped(alloc, passing)?;
    Ok(ended == Status::StoreFault && host.sent(0).is_empty())
}

#[test]
fn a_stop_while_a_store_is_opened(rt: HostRuntime) -> Result<(), Fail> {
    let alloc = rt.alloc();
    for passing in 0..OPENING {
        assert!(rt; is_silent(alloc, passing)?);
    }
    Ok(())
}

#[test]
fn a_stop_while_a_secret_is_stored(rt: HostRuntime) -> Result<(), Fail> {
    let alloc = rt.alloc();
    for passing in OPENING..OPENING + 4 {
        assert!(rt; is_safe(alloc, passing)?);
    }
    let (ended, host) = stopped(alloc, OPENING + 4)?;
    assert!(rt; ended == Status::Done && host.sent(0) == CREATED);
    Ok(())
}
