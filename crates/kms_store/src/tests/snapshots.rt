// A snapshot that is given piece by piece.
use crate::snapshot::SnapshotWalk;
use crate::tests::changes::SNAPSHOT;
use crate::tests::loading::counts;
use crate::tests::{chain, snapshot};
use crate::{Tables, load};
use kms_host::{Bytes, NoMemory};
use kms_journal::Pieces;
use std::alloc::Global;
use std::rt::HostRuntime;
use std::test::Fail;

// Puts all pieces of a walk, through this room, after the others.
fn put_pieces(
    given: &mut Bytes,
    walk: &mut SnapshotWalk<'_>,
    room: &mut [u8],
) -> Result<(), NoMemory> {
    for _ in 0..walk.total() {
        let count = walk.piece(room);
        given.push_all(&room[..count])?;
    }
    Ok(())
}

// All bytes of the tables' snapshot, as they are given through this room.
fn given(alloc: Global, tables: &Tables, room: &mut [u8]) -> Result<Bytes, NoMemory> {
    let mut given = Bytes::of(alloc, &[])?;
    let put = match SnapshotWalk::of(tables, 9) {
        Some(mut walk) => put_pieces(&mut given, &mut walk, room),
        None => Err(NoMemory),
    };
    match put {
        Ok(()) => Ok(given),
        Err(NoMemory) => Err(NoMemory),
    }
}

// The walk says how long it is, of which steps and ids.
fn is_headed(tables: &Tables, size: u64) -> bool {
    match SnapshotWalk::of(tables, 9) {
        Some(walk) => walk.total() == size && walk.steps() == 9 && walk.ids() == tables.ids(),
        None => false,
    }
}

// Whether the tables' snapshot is given so, through this room.
fn is_given_by(alloc: Global, tables: &Tables, bytes: &[u8], room: &mut [u8]) -> bool {
    match given(alloc, tables, room) {
        Ok(given) => given.as_slice() == bytes,
        Err(NoMemory) => false,
    }
}

// Whether the tables' snapshot is given so, through a room of any size.
fn is_given(alloc: Global, tables: &Tables, bytes: &[u8]) -> bool {
    let mut room = [0u8; 300];
    let mut good = is_headed(tables, bytes.len() as u64);
    for size in [1usize, 7, 8, 9, 100, 300] {
        good = is_given_by(alloc, tables, bytes, &mut room[..size]) && good;
    }
    good
}

// The tables that these bytes stand for as the snapshot of four ids.
fn tables_of(alloc: Global, bytes: &[u8]) -> Option<Tables> {
    match chain(alloc, 4, bytes, &[]) {
        Ok(chain) => load(alloc, &chain).ok(),
        Err(NoMemory) => None,
    }
}

// The snapshot of the tables that these bytes stand for.
fn given_again(alloc: Global, bytes: &[u8]) -> Option<Bytes> {
    match tables_of(alloc, bytes) {
        Some(tables) => given(alloc, &tables, &mut [0u8; 300]).ok(),
        None => None,
    }
}

// Whether these bytes stand for rows of all kinds, whose snapshot they are.
fn is_its_own(alloc: Global, bytes: &[u8]) -> bool {
    match tables_of(alloc, bytes) {
        Some(tables) => {
            counts(&tables) == [4, 2, 1, 1, 1, 1, 1, 1] && is_given(alloc, &tables, bytes)
        }
        None => false,
    }
}

// Whether the snapshot of the rows that these bytes stand for is as long as they are, and its own.
fn renews(alloc: Global, bytes: &[u8]) -> bool {
    match given_again(alloc, bytes) {
        Some(given) => {
            given.as_slice().len() == bytes.len() && is_its_own(alloc, given.as_slice())
        }
        None => false,
    }
}

// The same of a snapshot of rows of all kinds, in another order.
fn renews_all(alloc: Global) -> bool {
    match snapshot(alloc, &SNAPSHOT) {
        Ok(base) => renews(alloc, base.as_slice()),
        Err(NoMemory) => false,
    }
}

// A snapshot of rows of all kinds is as long as the one that they were loaded from, it is loaded to as many rows, and these
// give it again.
#[test]
fn a_snapshot_of_all_kinds_is_given_and_loaded(rt: HostRuntime) -> Result<(), Fail> {
    assert!(rt; renews_all(rt.alloc()));
    Ok(())
}
