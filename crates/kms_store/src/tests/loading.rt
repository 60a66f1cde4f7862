// What chains lead to, by how many rows there are then, or where they are damaged.
use crate::tests::changes::{AGAIN, ALONE, CHANGES, COUNTS, SNAPSHOT};
use crate::tests::{chain, snapshot};
use crate::{LoadFault, Tables, load};
use kms_host::NoMemory;
use kms_journal::Chain;
use std::alloc::Global;
use std::rt::HostRuntime;
use std::test::Fail;

/// How many ids were given, and how many rows of each kind there are.
pub fn counts(tables: &Tables) -> [u64; 8] {
    [
        tables.ids(),
        tables.secrets().len() as u64,
        tables.containers().len() as u64,
        tables.consumers().len() as u64,
        tables.orders().len() as u64,
        tables.acls().len() as u64,
        tables.quotas().len() as u64,
        tables.keys().len() as u64,
    ]
}

/// How many rows a chain leads to, or where it is damaged.
pub fn found(alloc: Global, chain: &Chain) -> Result<[u64; 8], LoadFault> {
    match load(alloc, chain) {
        Ok(tables) => Ok(counts(&tables)),
        Err(fault) => Err(fault),
    }
}

// The same of a chain of this snapshot and these changes.
fn found_of(alloc: Global, ids: u64, base: &[u8], changes: &[&str]) -> Result<[u64; 8], LoadFault> {
    match chain(alloc, ids, base, changes) {
        Ok(chain) => found(alloc, &chain),
        Err(NoMemory) => Err(LoadFault::NoMemory),
    }
}

// The same where nothing is kept yet.
fn found_after(alloc: Global, changes: &[&str]) -> Result<[u64; 8], LoadFault> {
    found_of(alloc, 0, &[0; 8], changes)
}

#[test]
fn each_change_is_loaded(rt: HostRuntime) -> Result<(), Fail> {
    let alloc = rt.alloc();
    for (n, expected) in COUNTS.iter().enumerate() {
        if n <= CHANGES.len() {
            assert_eq!(rt; found_after(alloc, &CHANGES[..n]), Ok(*expected));
        }
    }
    Ok(())
}

// The first so many changes, and then this one.
fn and_then(
    changes: &mut Vec<&'static str>,
    before: usize,
    change: &'static str,
) -> Result<(), NoMemory> {
    for change in CHANGES.iter().take(before) {
        changes.push(*change)?;
    }
    changes.push(change)?;
    Ok(())
}

// What comes of the first so many changes and then this one.
fn found_then(alloc: Global, before: usize, change: &'static str) -> Result<[u64; 8], LoadFault> {
    let mut changes = Vec::new(alloc);
    match and_then(&mut changes, before, change) {
        Ok(()) => found_after(alloc, &changes),
        Err(NoMemory) => Err(LoadFault::NoMemory),
    }
}

// Whether one more change after the first so many applies to the rows, or not and is the damage.
fn stops_at(alloc: Global, before: usize, change: &'static str, applies: bool) -> bool {
    let place = (before as u64).saturating_mul(100).saturating_add(100);
    match found_then(alloc, before, change) {
        Ok(_) => applies,
        Err(fault) => !applies && fault == LoadFault::Damaged(place),
    }
}

#[test]
fn what_does_not_apply_is_damage(rt: HostRuntime) -> Result<(), Fail> {
    let alloc = rt.alloc();
    for (n, change) in CHANGES.iter().enumerate() {
        assert!(rt; stops_at(alloc, n + 1, change, AGAIN[n]));
        assert!(rt; stops_at(alloc, 0, change, ALONE[n]));
    }
    Ok(())
}

// What comes of a snapshot of rows of all kinds, without its last bytes, so many of them, and of changes after it.
fn found_in(alloc: Global, ids: u64, cut: usize, changes: &[&str]) -> Result<[u64; 8], LoadFault> {
    match snapshot(alloc, &SNAPSHOT) {
        Ok(base) => {
            let bytes = base.as_slice();
            let size = bytes.len().saturating_sub(cut);
            found_of(alloc, ids, &bytes[..size], changes)
        }
        Err(NoMemory) => Err(LoadFault::NoMemory),
    }
}

#[test]
fn snapshots_are_loaded(rt: HostRuntime) -> Result<(), Fail> {
    let alloc = rt.alloc();
    let rows = [4, 2, 1, 1, 1, 1, 1, 1];
    assert_eq!(rt; found_in(alloc, 4, 0, &[]), Ok(rows));
    // an id that wasn't given
    assert_eq!(rt; found_in(alloc, 3, 0, &[]), Err(LoadFault::Damaged(0)));
    // a change of which a byte is missing
    assert_eq!(rt; found_in(alloc, 4, 1, &[]), Err(LoadFault::Damaged(0)));
    // records after it
    let more = [CHANGES[24], CHANGES[21]];
    assert_eq!(rt; found_in(alloc, 4, 0, &more), Err(LoadFault::Damaged(100)));
    assert!(rt; found_in(alloc, 4, 0, &CHANGES[2..3]).is_ok());
    Ok(())
}

// A secret with the last id that can be given, and one with the id after it.
const LAST: &str =
    "053fffffffffffffff0002703100027531000000001dc09eb0000000001dc09eb0010001610000000500";

const PAST: &str =
    "0540000000000000000002703100027531000000001dc09eb0000000001dc09eb0010001610000000500";

// What comes of changes of an empty snapshot for which so many ids were given.
fn found_from(alloc: Global, ids: u64, changes: &[&str]) -> Result<[u64; 8], LoadFault> {
    found_of(alloc, ids, &[0; 8], changes)
}

#[test]
fn the_last_id_is_given_once(rt: HostRuntime) -> Result<(), Fail> {
    let alloc = rt.alloc();
    let all = 1u64 << 62;
    assert_eq!(rt;
        found_from(alloc, all - 1, &[LAST]),
        Ok([all, 1, 0, 0, 0, 0, 0, 0])
    );
    for after in [LAST, PAST] {
        assert_eq!(rt;
            found_from(alloc, all - 1, &[LAST, after]),
            Err(LoadFault::Damaged(200))
        );
        assert_eq!(rt;
            found_from(alloc, all, &[after]),
            Err(LoadFault::Damaged(100))
        );
    }
    Ok(())
}
