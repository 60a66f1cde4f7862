// What no clause says: that the calls succeed over a host in memory, and what each stop leaves, opened again.
ghost use Rattle.std.specs.Prelude.{IfOk, ◌<◌};
ghost use Rattle.kms_host.specs.History.{WhereTold};
ghost use Rattle.kms_host.specs.Store.{IsAttached};

mod checkpoints;

use crate::{Chain, CreateFault, JournalFault, Place, create, living, recover};
use kms_host::{Bytes, Host, MemoryHost, NoMemory, Pick};
use std::alloc::Global;
use std::rt::HostRuntime;
use std::test::Fail;

const TAG: u64 = 0x0012_3456_789a_bcde;

// A fresh store with that tag: first commit mark, letters, version, generation, tag, ids, steps, the snapshot's length,
// the snapshot, and the last commit mark.
static FRESH: [u8; 59] = [
    0x01, 0x42, 0x4b, 0x4d, 0x53, 0x54, 0x4f, 0x52, 0x45, 0x01, 0x00, 0x00, 0x00, 0x00, 0x00, 0x00,
    0x00, 0x01, 0x00, 0x12, 0x34, 0x56, 0x78, 0x9a, 0xbc, 0xde, 0x00, 0x00, 0x00, 0x00, 0x00, 0x00,
    0x00, 0x00, 0x00, 0x00, 0x00, 0x00, 0x00, 0x00, 0x00, 0x00, 0x00, 0x00, 0x00, 0x00, 0x00, 0x00,
    0x00, 0x08, 0x00, 0x00, 0x00, 0x00, 0x00, 0x00, 0x00, 0x00, 0x00,
];

// A record of two bytes, framed.
static FRAMED: [u8; 7] = [0, 0, 0, 2, 8, 9, 0];

static PICKS: [Pick; 5] = [
    Pick::Kept,
    Pick::Lost,
    Pick::Torn(0),
    Pick::Torn(1),
    Pick::Torn(255),
];

// What is found of a store.
#[derive(Clone, Copy, Debug, PartialEq, Eq)]
enum Found {
    Nothing,
    /// A place in file 0 or 1.
    Damaged(u8, u64),
    /// A number of records in file 0 or 1.
    Records(u8, usize),
    /// Anything else.
    Fault,
}

// A host with these two files, attached.
fn attached(alloc: Global, first: &[u8], second: &[u8]) -> Result<MemoryHost, NoMemory>
    ensures { IfOk result (λ m. WhereTold (⟦<MemoryHost as Host>⟧.history m) IsAttached) }
{
    let files = [Bytes::of(alloc, first)?, Bytes::of(alloc, second)?];
    let mut host = MemoryHost::restart(alloc, files)?;
    match host.attach("s") {
        Ok(()) => Ok(host),
        Err(_) => Err(NoMemory),
    }
}

// Whether there is a store. It stays attached.
fn lives<H: Host>(host: &mut H) -> bool
    requires { WhereTold (H.history host.old) IsAttached }
    ensures { WhereTold (H.history host.new) IsAttached }
{
    living(host) == Ok(true)
}

// Creates a store. It stays attached.
fn creates<H: Host>(host: &mut H) -> Result<(), CreateFault>
    requires { WhereTold (H.history host.old) IsAttached }
    ensures { WhereTold (H.history host.new) IsAttached }
{
    create(host, TAG)
}

fn is_fresh(file: &[u8]) -> bool {
    file == FRESH.as_slice()
}

// There is no store, one is created, and then there is one and no other is created.
fn once<H: Host>(host: &mut H) -> bool
    requires { WhereTold (H.history host.old) IsAttached }
{
    !lives(host)
        && creates(host) == Ok(())
        && lives(host)
        && creates(host) == Err(CreateFault::Exists)
}

// What opening finds in an attached store.
fn open<H: Host>(alloc: Global, host: &mut H) -> Found
    requires { WhereTold (H.history host.old) IsAttached }
{
    match recover(alloc, host) {
        Ok(mut journal) => match journal.bodies(alloc, host) {
            Ok(chain) => Found::Records(chain.file, chain.bodies.as_slice().len()),
            Err(_) => Found::Fault,
        },
        Err(JournalFault::NoStore) => Found::Nothing,
        Err(JournalFault::Damaged(Place::Body { file, at }, _)) => Found::Damaged(file, at),
        Err(_) => Found::Fault,
    }
}

// What opening finds in these files.
fn found_in(alloc: Global, first: &[u8], second: &[u8]) -> Result<Found, NoMemory> {
    let mut host = attached(alloc, first, second)?;
    Ok(open(alloc, &mut host))
}

// What opening finds in what a stop leaves.
fn left(alloc: Global, host: &MemoryHost, pick: Pick) -> Result<Found, NoMemory> {
    let files = host.image(pick)?;
    found_in(alloc, files[0].as_slice(), files[1].as_slice())
}

// Opens a store, and commits a record to it while so many calls on its files pass.
fn commit_while(alloc: Global, host: &mut MemoryHost, passing: u64) -> bool
    requires { WhereTold (⟦<MemoryHost as Host>⟧.history host.old) IsAttached }
{
    let Ok(mut journal) = recover(alloc, host) else {
        return false;
    };
    host.fuse(passing);
    journal.commit(host, &FRAMED).is_ok()
}

// A creation over this file 0, which stands for nothing, makes so many calls. Stopped at each of them it leaves no store or
// the fresh one, and that only from the last write on.
fn creates_or_not(alloc: Global, file: &[u8], calls: u64) -> Result<bool, NoMemory>
    requires { calls < 100 }
{
    let mut good = true;
    for passing in 0..calls + 1 {
        let mut host = attached(alloc, file, &[])?;
        host.fuse(passing);
        let done = create(&mut host, TAG).is_ok();
        good = good && done == (passing == calls);
        for pick in &PICKS {
            let found = left(alloc, &host, *pick)?;
            let fresh = found == Found::Records(0, 0);
            good = good && (fresh || (!done && found == Found::Nothing));
            good = good && (!fresh || passing + 2 >= calls);
        }
    }
    Ok(good)
}

#[test]
fn a_creation_stopped_at_each_call(rt: HostRuntime) -> Result<(), Fail> {
    let alloc = rt.alloc();
    assert!(rt; creates_or_not(alloc, &[], 14)?);
    assert!(rt; creates_or_not(alloc, &[1, 2, 3], 14)?);
    assert!(rt; creates_or_not(alloc, &[7], 13)?);
    assert!(rt; creates_or_not(alloc, &changed(alloc, 0, &[0])?, 13)?);
    assert!(rt; creates_or_not(alloc, &changed(alloc, 17, &[0])?, 14)?);
    Ok(())
}

#[test]
fn a_store_is_created_once(rt: HostRuntime) -> Result<(), Fail> {
    let alloc = rt.alloc();
    let mut host = attached(alloc, &[1, 2, 3], &[])?;
    assert!(rt; once(&mut host));
    let files = host.image(Pick::Lost)?;
    assert!(rt; is_fresh(files[0].as_slice()));
    assert!(rt; files[1].as_slice().is_empty());
    Ok(())
}

// A fresh store with one record, the bytes 8 and 9.
fn is_read(chain: &Chain) -> bool {
    let records = chain.bodies.as_slice();
    chain.file == 0
        && chain.tag == TAG
        && chain.ids == 0
        && chain.steps == 0
        && chain.base.as_slice() == [0u8; 8].as_slice()
        && records.len() == 1
        && records[0].0 == 58
        && records[0].1.as_slice() == [8u8, 9].as_slice()
}

// Opens a fresh store with that record, and reads it twice, while so many calls on its files pass.
fn reads_while(alloc: Global, host: &mut MemoryHost, passing: u64) -> bool
    requires { WhereTold (⟦<MemoryHost as Host>⟧.history host.old) IsAttached }
{
    let Ok(mut journal) = recover(alloc, host) else {
        return false;
    };
    if journal.generation() != 1 || journal.records() != 7 {
        return false;
    }
    host.fuse(passing);
    let Ok(first) = journal.bodies(alloc, host) else {
        return false;
    };
    match journal.bodies(alloc, host) {
        Ok(second) => is_read(&first) && is_read(&second),
        Err(_) => false,
    }
}

// What the opening read is answered without a call, and a small store is read again in one.
#[test]
fn a_store_is_read_again_in_one_call(rt: HostRuntime) -> Result<(), Fail> {
    let alloc = rt.alloc();
    let file = changed(alloc, 58, &[1, 0, 0, 0, 2, 8, 9, 0])?;
    for passing in 0..2u64 {
        let mut host = attached(alloc, &file, &[])?;
        assert_eq!(rt; reads_while(alloc, &mut host, passing), passing == 1);
    }
    Ok(())
}

#[test]
fn a_commit_stopped_at_each_call(rt: HostRuntime) -> Result<(), Fail> {
    let alloc = rt.alloc();
    for passing in 0..5u64 {
        let mut host = attached(alloc, &FRESH, &[])?;
        let done = commit_while(alloc, &mut host, passing);
        assert_eq!(rt; done, passing == 4);
        for pick in &PICKS {
            let found = left(alloc, &host, *pick)?;
            let with = found == Found::Records(0, 1);
            assert!(rt; with || (!done && found == Found::Records(0, 0)));
            assert!(rt; !with || passing >= 2);
        }
    }
    Ok(())
}

// A store with one record, then a commit mark that isn't set, and after it what looks like a record.
static STOPPED: [u8; 13] = [1, 0, 0, 0, 1, 5, 77, 0, 0, 0, 1, 6, 1];

// Whether an attached store opens.
fn opens<H: Host>(alloc: Global, host: &mut H) -> bool
    requires { WhereTold (H.history host.old) IsAttached }
{
    recover(alloc, host).is_ok()
}

// Opening this file 0, stopped after so many calls, leaves one record; it takes nine calls.
fn keeps_the_record(alloc: Global, file: &[u8], passing: u64) -> Result<bool, NoMemory> {
    let mut host = attached(alloc, file, &[])?;
    host.fuse(passing);
    let mut good = opens(alloc, &mut host) == (passing == 9);
    for pick in &PICKS {
        let found = left(alloc, &host, *pick)?;
        good = good && found == Found::Records(0, 1);
    }
    Ok(good)
}

#[test]
fn a_recovery_stopped_at_each_call(rt: HostRuntime) -> Result<(), Fail> {
    let alloc = rt.alloc();
    let file = changed(alloc, 58, &STOPPED)?;
    for passing in 0..10u64 {
        assert!(rt; keeps_the_record(alloc, &file, passing)?);
    }
    Ok(())
}

// A fresh store with these bytes at a place.
fn changed(alloc: Global, at: usize, bytes: &[u8]) -> Result<Vec<u8>, NoMemory> {
    let mut file = FRESH.to_vec(alloc)?;
    for (k, byte) in bytes.iter().enumerate() {
        if at < file.len() && k < file.len() - at {
            file[at + k] = *byte;
        } else {
            file.push(*byte)?;
        }
    }
    Ok(file)
}

// Bytes in the place of those of a fresh store, and what is found then.
static CHANGES: [(usize, &[u8], Found); 22] = [
    (0, &[0], Found::Nothing),
    (0, &[2], Found::Nothing),
    (1, &[0x62], Found::Nothing),
    (8, &[0x00], Found::Nothing),
    (9, &[0], Found::Nothing),
    (9, &[2], Found::Nothing),
    (17, &[0], Found::Nothing),
    (10, &[255], Found::Records(0, 0)),
    (18, &[0x0f], Found::Records(0, 0)),
    (18, &[0x10], Found::Damaged(0, 0)),
    (26, &[0x40], Found::Records(0, 0)),
    (26, &[0x40, 0, 0, 0, 0, 0, 0, 1], Found::Damaged(0, 0)),
    (34, &[255], Found::Records(0, 0)),
    (42, &[0x80], Found::Damaged(0, 0)),
    (
        42,
        &[255, 255, 255, 255, 255, 255, 255, 255],
        Found::Damaged(0, 0),
    ),
    (49, &[9], Found::Damaged(0, 0)),
    (49, &[7], Found::Records(0, 0)),
    (58, &[1], Found::Records(0, 0)),
    (58, &[1, 0, 0, 0, 2, 8, 9, 0], Found::Records(0, 1)),
    (58, &[1, 0, 0, 0, 2, 8, 9], Found::Damaged(0, 58)),
    (
        58,
        &[1, 0, 0, 0, 0, 1, 255, 255, 255, 255],
        Found::Damaged(0, 63),
    ),
    (58, &[2, 0, 0, 0, 2, 8, 9, 0], Found::Records(0, 0)),
];

#[test]
fn any_bytes_have_an_answer(rt: HostRuntime) -> Result<(), Fail> {
    let alloc = rt.alloc();
    for length in 0..60usize {
        let found = found_in(alloc, &FRESH[..length], &[])?;
        if length <= 50 {
            assert_eq!(rt; found, Found::Nothing);
        } else if length < 59 {
            assert_eq!(rt; found, Found::Damaged(0, 0));
        } else {
            assert_eq!(rt; found, Found::Records(0, 0));
        }
    }
    for (at, bytes, found) in &CHANGES {
        assert_eq!(rt; found_in(alloc, &changed(alloc, *at, bytes)?, &[])?, *found);
    }
    Ok(())
}

#[test]
fn the_greater_generation_is_current(rt: HostRuntime) -> Result<(), Fail> {
    let alloc = rt.alloc();
    let same = changed(alloc, 58, &[1, 0, 0, 0, 0, 0])?;
    let later = changed(alloc, 17, &[2])?;
    assert_eq!(rt; found_in(alloc, &FRESH, &same)?, Found::Records(0, 0));
    assert_eq!(rt; found_in(alloc, &same, &FRESH)?, Found::Records(0, 1));
    assert_eq!(rt; found_in(alloc, &same, &later)?, Found::Records(1, 0));
    assert_eq!(rt; found_in(alloc, &later, &same)?, Found::Records(0, 0));
    assert_eq!(rt; found_in(alloc, &[], &same)?, Found::Records(1, 1));
    Ok(())
}
