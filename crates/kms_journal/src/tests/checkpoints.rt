// That checkpoints succeed over a host in memory, and what each stop of one leaves, opened again.
ghost use Rattle.std.specs.Prelude.{◌≡◌, ◌<◌, false};
ghost use Rattle.kms_host.specs.History.{WhereTold};
ghost use Rattle.kms_host.specs.Store.{IsAttached};
ghost use Rattle.kms_journal.specs.Position.{IsPlaced};
ghost use Rattle.kms_journal.specs.Standing.{Standing};

use super::{FRAMED, FRESH, Found, PICKS, TAG, attached, changed, left};
use crate::pieces::AtHand;
use crate::{Chain, Journal, recover};
use kms_host::{Host, MemoryHost, NoMemory};
use std::alloc::Global;
use std::rt::HostRuntime;
use std::test::Fail;

static SNAPSHOT: [u8; 20] = [
    7, 6, 5, 4, 3, 2, 1, 0, 1, 2, 3, 4, 5, 6, 7, 8, 9, 10, 11, 12,
];

// Opens a store, and puts a snapshot in the place of its records while so many calls on its files pass.
fn turns_over_while(alloc: Global, host: &mut MemoryHost, passing: u64) -> bool
    requires { WhereTold (⟦<MemoryHost as Host>⟧.history host.old) IsAttached }
{
    let Ok(mut journal) = recover(alloc, host) else {
        return false;
    };
    if journal.generation() >= 1 << 63 {
        return false;
    }
    host.fuse(passing);
    let mut snapshot = AtHand {
        ids: 3,
        steps: 4,
        bytes: &SNAPSHOT,
        rest: &SNAPSHOT,
    };
    journal.turn_over(host, &mut snapshot).is_ok()
}

// With these two files a checkpoint makes so many calls. Stopped at each of them it leaves the store as it was, or the
// snapshot, and that only from the last write on.
fn leaves_old_or_new(
    alloc: Global,
    first: &[u8],
    second: &[u8],
    old: Found,
    new: Found,
    calls: u64,
) -> Result<bool, NoMemory>
    requires { calls < 100 }
{
    let mut good = true;
    for passing in 0..calls + 1 {
        let mut host = attached(alloc, first, second)?;
        let done = turns_over_while(alloc, &mut host, passing);
        good = good && done == (passing == calls);
        for pick in &PICKS {
            let found = left(alloc, &host, *pick)?;
            good = good && (found == new || (!done && found == old));
            good = good && (found == old || passing + 2 >= calls);
        }
    }
    Ok(good)
}

#[test]
fn a_checkpoint_stopped_at_each_call(rt: HostRuntime) -> Result<(), Fail> {
    let alloc = rt.alloc();
    let store = changed(alloc, 58, &[1, 0, 0, 0, 2, 8, 9, 0])?;
    let old = Found::Records(0, 1);
    let new = Found::Records(1, 0);
    assert!(rt; leaves_old_or_new(alloc, &store, &[], old, new, 10)?);
    assert!(rt; leaves_old_or_new(alloc, &store, &[7], old, new, 9)?);
    assert!(rt; leaves_old_or_new(alloc, &store, &[1, 2, 3], old, new, 10)?);
    assert!(rt; leaves_old_or_new(alloc, &store, &FRESH, old, new, 10)?);
    Ok(())
}

// What a checkpoint left that was stopped before its last write: a newer header after a first commit mark that is clear.
#[test]
fn a_checkpoint_after_one_that_was_stopped(rt: HostRuntime) -> Result<(), Fail> {
    let alloc = rt.alloc();
    let store = changed(alloc, 58, &[1, 0, 0, 0, 2, 8, 9, 0])?;
    let mut stopped = changed(alloc, 17, &[2])?;
    if stopped.len() > 0 {
        stopped[0] = 0;
    }
    let old = Found::Records(0, 1);
    let new = Found::Records(1, 0);
    assert!(rt; leaves_old_or_new(alloc, &store, &stopped, old, new, 9)?);
    Ok(())
}

// The same where file 1 is current.
#[test]
fn a_checkpoint_from_file_1_to_file_0(rt: HostRuntime) -> Result<(), Fail> {
    let alloc = rt.alloc();
    let later = changed(alloc, 17, &[2])?;
    let old = Found::Records(1, 0);
    let new = Found::Records(0, 0);
    assert!(rt; leaves_old_or_new(alloc, &FRESH, &later, old, new, 10)?);
    assert!(rt; leaves_old_or_new(alloc, &[], &later, old, new, 10)?);
    Ok(())
}

// A store of this snapshot and one record after it.
fn is_snapshot(chain: &Chain, bytes: &[u8]) -> bool {
    let records = chain.bodies.as_slice();
    chain.file == 1
        && chain.tag == TAG
        && chain.ids == 3
        && chain.steps == 4
        && chain.base.as_slice() == bytes
        && records.len() == 1
        && records[0].0 == 50 + bytes.len() as u64
        && records[0].1.as_slice() == [8u8, 9].as_slice()
}

// A commit goes to the end of the store, and then the journal reads the snapshot and that record.
fn commits(alloc: Global, host: &mut MemoryHost, journal: &mut Journal, bytes: &[u8]) -> bool
    requires working { journal.old.failed ≡ false }
    requires placed { WhereTold (⟦<MemoryHost as Host>⟧.history host.old) (λ h. (s : Standing) × IsPlaced journal.old h s) }
{
    let Ok(()) = journal.commit(host, &FRAMED) else {
        return false;
    };
    if journal.records() != 7 {
        return false;
    }
    match journal.bodies(alloc, host) {
        Ok(chain) => is_snapshot(&chain, bytes),
        Err(_) => false,
    }
}

// After a checkpoint the journal stands on the new file.
fn goes_on(alloc: Global, host: &mut MemoryHost, bytes: &[u8]) -> bool
    requires { WhereTold (⟦<MemoryHost as Host>⟧.history host.old) IsAttached }
{
    let Ok(mut journal) = recover(alloc, host) else {
        return false;
    };
    if journal.generation() != 1 {
        return false;
    }
    let mut snapshot = AtHand {
        ids: 3,
        steps: 4,
        bytes,
        rest: bytes,
    };
    let Ok(()) = journal.turn_over(host, &mut snapshot) else {
        return false;
    };
    journal.generation() == 2 && journal.records() == 0 && commits(alloc, host, &mut journal, bytes)
}

// A snapshot is written in pieces of 65,536 bytes.
#[test]
fn commits_go_on_after_a_checkpoint(rt: HostRuntime) -> Result<(), Fail> {
    let alloc = rt.alloc();
    let mut long = vec![in alloc; 7u8; 65_536 * 2 + 1]?;
    long[65_536] = 8;
    let store = changed(alloc, 58, &[1, 0, 0, 0, 2, 8, 9, 0])?;
    for bytes in [&SNAPSHOT[..], &[], long.as_slice()] {
        let mut host = attached(alloc, &store, &[])?;
        assert!(rt; goes_on(alloc, &mut host, bytes));
        for pick in &PICKS {
            assert_eq!(rt; left(alloc, &host, *pick)?, Found::Records(1, 1));
        }
    }
    Ok(())
}
