// What no clause says: that the calls succeed, on changes of all kinds, and what rows they leave.
//
// A value that holds rows, a chain or a host stands in few functions, each of which has one way out and lends it to others.
mod changes;
mod loading;
mod rows;
mod settling;
mod snapshots;
mod stepping;

use kms_host::{Bytes, NoMemory};
use kms_journal::{Bodies, Chain};
use kms_world::Id;
use std::alloc::Global;

const TAG: u64 = 0x0012_3456_789a_bcde;

// The first id of that tag.
const FIRST: u128 = 0x0123_4567_89ab_8cde_8000_0000_0000_0000;

fn id(count: u8) -> Id {
    Id(FIRST + count as u128)
}

fn digit(letter: u8) -> u8 {
    match letter {
        b'0'..=b'9' => letter - b'0',
        b'a'..=b'f' => letter - b'a' + 10,
        _ => 0,
    }
}

// Puts the bytes that these letters spell after the others.
fn put_hex(out: &mut Bytes, letters: &str) -> Result<(), NoMemory> {
    let mut high = None;
    for letter in letters.as_bytes() {
        match high {
            None => high = Some(digit(*letter)),
            Some(first) => {
                out.push_all(&[first % 16 * 16 + digit(*letter) % 16])?;
                high = None;
            }
        }
    }
    Ok(())
}

fn put_each_hex(out: &mut Bytes, changes: &[&str]) -> Result<(), NoMemory> {
    for change in changes {
        put_hex(out, change)?;
    }
    Ok(())
}

// These bytes, and then these changes.
fn spelled(alloc: Global, head: &[u8], changes: &[&str]) -> Result<Bytes, NoMemory> {
    let mut bytes = Bytes::of(alloc, head)?;
    match put_each_hex(&mut bytes, changes) {
        Ok(()) => Ok(bytes),
        Err(NoMemory) => Err(NoMemory),
    }
}

// A record of one step of this change.
fn record(alloc: Global, change: &str) -> Result<Bytes, NoMemory> {
    spelled(alloc, &[0, 0, 0, 1, 0, 1], &[change])
}

fn snapshot(alloc: Global, changes: &[&str]) -> Result<Bytes, NoMemory> {
    spelled(alloc, &(changes.len() as u64).to_be_bytes(), changes)
}

// Puts records of one change each after the others, at the places 100, 200 ..
fn put_records(alloc: Global, bodies: &mut Bodies, changes: &[&str]) -> Result<(), NoMemory> {
    let mut at = 0u64;
    for change in changes {
        at = at.saturating_add(100);
        bodies.push((at, record(alloc, change)?))?;
    }
    Ok(())
}

fn records(alloc: Global, changes: &[&str]) -> Result<Bodies, NoMemory> {
    let mut bodies = Bodies::new(alloc);
    match put_records(alloc, &mut bodies, changes) {
        Ok(()) => Ok(bodies),
        Err(NoMemory) => Err(NoMemory),
    }
}

// A chain of this snapshot and of records of one change each.
fn chain(alloc: Global, ids: u64, base: &[u8], changes: &[&str]) -> Result<Chain, NoMemory> {
    let base = Bytes::of(alloc, base)?;
    match records(alloc, changes) {
        Ok(bodies) => Ok(Chain {
            file: 0,
            tag: TAG,
            ids,
            steps: 0,
            base,
            bodies,
        }),
        Err(NoMemory) => Err(NoMemory),
    }
}
