// Making a store over a host in memory: what it leaves of the files, and what it answers.
use super::{CREATED, EMPTY, GET, POST, SHOWN, joined, over, sends, serving};
use crate::row::{made_and_served, ran};
use kms_host::{Count, MemoryHost, NoMemory, Pick};
use kms_serve::Status;
use std::alloc::Global;
use std::rt::HostRuntime;
use std::test::Fail;

// A fresh store with the first 60 bits of those that are drawn for its tag: first commit mark, letters, version, generation,
// tag, ids, steps, the snapshot's length, the snapshot, and the last commit mark.
pub static FRESH: [u8; 59] = [
    0x01, 0x42, 0x4b, 0x4d, 0x53, 0x54, 0x4f, 0x52, 0x45, 0x01, 0x00, 0x00, 0x00, 0x00, 0x00, 0x00,
    0x00, 0x01, 0x00, 0x12, 0x34, 0x56, 0x78, 0x9a, 0xbc, 0xde, 0x00, 0x00, 0x00, 0x00, 0x00, 0x00,
    0x00, 0x00, 0x00, 0x00, 0x00, 0x00, 0x00, 0x00, 0x00, 0x00, 0x00, 0x00, 0x00, 0x00, 0x00, 0x00,
    0x00, 0x08, 0x00, 0x00, 0x00, 0x00, 0x00, 0x00, 0x00, 0x00, 0x00,
];

const WORDS: [&str; 3] = ["init", "--store", "s"];

// Whether this is left of file 0 and nothing of file 1, and this was sent, with no call that was out of memory.
pub fn leaves(host: &MemoryHost, sent: &[u8], file: &[u8]) -> bool {
    match host.image(Pick::Kept) {
        Ok(image) => {
            image[0].as_slice() == file && image[1].as_slice().is_empty() && sends(host, sent)
        }
        Err(NoMemory) => false,
    }
}

// Whether making a store over this file 0 ends so, where the given call fails, and leaves this of it.
fn ends(
    alloc: Global,
    file: &[u8],
    fault: Option<(Count, u64)>,
    status: Status,
    left: &[u8],
) -> Result<bool, NoMemory> {
    let mut row = over(&WORDS, file, EMPTY, 1);
    row.fault = fault;
    let (ended, host) = ran(alloc, row)?;
    Ok(ended == status && leaves(&host, EMPTY, left))
}

#[test]
fn a_store_is_made_once(rt: HostRuntime) -> Result<(), Fail> {
    let alloc = rt.alloc();
    assert!(rt; ends(alloc, EMPTY, None, Status::Done, &FRESH)?);
    assert!(rt; ends(alloc, &FRESH, None, Status::StoreExists, &FRESH)?);
    Ok(())
}

// The calls of the store are: one that names it, eight that look for one, four that empty file 0, three writes and a sync,
// and a write and a sync.
#[test]
fn making_a_store_fails(rt: HostRuntime) -> Result<(), Fail> {
    let alloc = rt.alloc();
    let draw = Some((Count::Draw, 1));
    let naming = Some((Count::Store, 1));
    let last_sync = Some((Count::Store, 19));
    assert!(rt; ends(alloc, EMPTY, draw, Status::DrawFault, EMPTY)?);
    assert!(rt; ends(alloc, EMPTY, naming, Status::StoreFault, EMPTY)?);
    assert!(rt; ends(alloc, EMPTY, last_sync, Status::StoreFault, &FRESH)?);
    Ok(())
}

#[test]
fn a_store_is_served_where_it_was_made(rt: HostRuntime) -> Result<(), Fail> {
    let alloc = rt.alloc();
    let requests = joined(alloc, &[POST, GET])?;
    let replies = joined(alloc, &[CREATED, SHOWN])?;
    let (made, served, host) = made_and_served(alloc, serving(EMPTY, &requests, 65536))?;
    assert!(rt; made == Status::Done && served == Status::Done);
    assert!(rt; sends(&host, &replies));
    Ok(())
}
