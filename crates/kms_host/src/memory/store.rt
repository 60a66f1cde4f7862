// The calls of a host in memory on one file of its store, each noted with its answer.
ghost use Rattle.std.specs.Prelude.{◌≡◌, ◌⊎◌, ◌≤◌, ◌<◌, ◌+◌, ◌^◌, ℕ, List, length, drop, Option, OnOk, OnErr, IsTrue, IfOk, is_err, is_ok, Some, None, nat_le};
ghost use Rattle.kms_host.specs.History.{answer, given, HasFirst};
ghost use Rattle.kms_host.specs.Disk.{Left, after_write, after_cut};
ghost use Rattle.kms_host.specs.Memory.{fails_next, called, next};
ghost use Rattle.kms_host.specs.Recording.{NotesOn, Counts};
ghost use Rattle.kms_host.specs.declared.call.Call.TheVariants as calls;
ghost use Rattle.kms_host.specs.declared.call.FileCall.TheVariants as on;

use crate::host::LENGTH_LIMIT;
use crate::memory::counter::{Counter, count_fault};
use crate::memory::file::{File, Written, fill_from};
use crate::memory::log::Log;
use crate::{Bytes, Call, Failed, FileCall, NoMemory};
use std::alloc::Global;

/// The file's length.
pub fn measure(kept: &File, store: &mut Counter, log: &mut Log, file: u8) -> Result<u64, Failed>
    ensures notes { NotesOn file log.old log.new kept.now kept.now (Unit {0}) (λ c. c ≡ on.Measured (answer result)) }
    ensures wanted { Counts log.old log.new }
    ensures length { IfOk result (λ n. n ≡ length kept.now.reads) }
    ensures bound { IfOk result (λ n. n < 2 ^ 62) }
    ensures listed { is_err result ≡ fails_next store.old }
    ensures counted { store.new ≡ called (is_err result) store.old }
    ensures later { store.old.faults ≤ store.new.faults }
{
    if store.refuses() {
        log.note(Ok(Call::OnFile(file, FileCall::Measured(None))), false);
        return Err(Failed);
    }
    let length = kept.as_slice().len() as u64;
    log.note(
        Ok(Call::OnFile(file, FileCall::Measured(Some(length)))),
        false,
    );
    Ok(length)
}

fn came(alloc: Global, file: u8, at: u64, room: usize, bytes: &[u8]) -> Result<Call, NoMemory>
    ensures { IfOk result (λ c. c ≡ calls.OnFile file (on.Read at room (Some bytes.now))) }
{
    let bytes = Bytes::of(alloc, bytes)?;
    Ok(Call::OnFile(file, FileCall::Read(at, room, Some(bytes))))
}

/// Fills the room from a place of the file on.
pub fn read(
    alloc: Global,
    kept: &File,
    store: &mut Counter,
    log: &mut Log,
    file: u8,
    at: u64,
    room: &mut [u8],
) -> Result<usize, Failed>
    ensures notes { NotesOn file log.old log.new kept.now kept.now (Unit {0}) (λ c. c ≡ on.Read at (length room.new) (given room.new result)) }
    ensures wanted { Counts log.old log.new }
    ensures first { IfOk result (HasFirst (drop at kept.now.reads) room.new) }
    ensures bound { IfOk result (λ n. n ≤ length room.new) }
    ensures listed { is_err result ≡ fails_next store.old }
    ensures counted { store.new ≡ called (is_err result) store.old }
    ensures later { store.old.faults ≤ store.new.faults }
{
    if store.refuses() {
        log.note(
            Ok(Call::OnFile(file, FileCall::Read(at, room.len(), None))),
            false,
        );
        return Err(Failed);
    }
    let count = fill_from(kept.as_slice(), at as usize, room);
    let call = came(alloc, file, at, room.len(), &room[..count]);
    log.note(call, false);
    Ok(count)
}

fn wrote(alloc: Global, file: u8, at: u64, piece: &[u8]) -> Result<Call, NoMemory>
    ensures { IfOk result (λ c. c ≡ calls.OnFile file (on.Wrote at piece.now None)) }
{
    let piece = Bytes::of(alloc, piece)?;
    Ok(Call::OnFile(file, FileCall::Wrote(at, piece, None)))
}

fn wrote_not(alloc: Global, file: u8, at: u64, piece: &[u8], left: &[u8]) -> Result<Call, NoMemory>
    ensures { IfOk result (λ c. c ≡ calls.OnFile file (on.Wrote at piece.now (Some left.now))) }
{
    let piece = Bytes::of(alloc, piece)?;
    let left = Bytes::of(alloc, left)?;
    Ok(Call::OnFile(file, FileCall::Wrote(at, piece, Some(left))))
}

// A write of so many bytes at a place would end at the limit of a file's length or after it.
fn is_too_long(at: u64, length: usize) -> bool
    ensures { result ≡ nat_le (2 ^ 62) (at + length) }
{
    match at.checked_add(length as u64) {
        Some(end) => end >= LENGTH_LIMIT,
        None => true,
    }
}

/// Writes a piece at a place of the file. A call that failed counts as begun.
pub fn write(
    alloc: Global,
    kept: &mut File,
    store: &mut Counter,
    log: &mut Log,
    file: u8,
    at: u64,
    piece: &[u8],
) -> Result<(), Failed>
    ensures notes { NotesOn file log.old log.new kept.old kept.new (at ≤ length kept.old.reads)
        (λ c. (left : Option (List ℕ)) × (c ≡ on.Wrote at piece.now left) × Left result left (after_write kept.old at piece.now kept.old.reads)) }
    ensures wanted { Counts log.old log.new }
    ensures short { OnOk result (at + length piece.now < 2 ^ 62) }
    ensures listed { IsTrue (fails_next store.old) → IsTrue (is_err result) }
    ensures other { OnErr result (IsTrue (fails_next store.old) ⊎ (2 ^ 62 ≤ at + length piece.now) ⊎ (log.new.wanted ≡ next log.old.wanted)) }
    ensures counted { store.new ≡ called (is_err result) store.old }
    ensures later { store.old.faults ≤ store.new.faults }
{
    let refused = store.refuses();
    let fails = refused || is_too_long(at, piece.len());
    let place = at.min(kept.as_slice().len() as u64);
    match kept.write(place, piece, fails) {
        Ok(Written::Done) => {
            log.note(wrote(alloc, file, at, piece), false);
            return Ok(());
        }
        Ok(Written::Refused) => {
            count_fault(store, refused);
            log.note(wrote_not(alloc, file, at, piece, kept.as_slice()), false);
        }
        Ok(Written::Starved) => {
            store.count_fault();
            log.note(wrote_not(alloc, file, at, piece, kept.as_slice()), true);
        }
        Err(NoMemory) => {
            count_fault(store, refused);
            log.note(Err(NoMemory), !fails);
        }
    }
    Err(Failed)
}

fn cut_not(alloc: Global, file: u8, size: u64, left: &[u8]) -> Result<Call, NoMemory>
    ensures { IfOk result (λ c. c ≡ calls.OnFile file (on.CutTo size (Some left.now))) }
{
    let left = Bytes::of(alloc, left)?;
    Ok(Call::OnFile(file, FileCall::CutTo(size, Some(left))))
}

/// Cuts the file to a length. A call that failed counts as begun.
pub fn cut(
    alloc: Global,
    kept: &mut File,
    store: &mut Counter,
    log: &mut Log,
    file: u8,
    size: u64,
) -> Result<(), Failed>
    ensures notes { NotesOn file log.old log.new kept.old kept.new (size ≤ length kept.old.reads)
        (λ c. (left : Option (List ℕ)) × (c ≡ on.CutTo size left) × Left result left (after_cut kept.old size kept.old.reads)) }
    ensures wanted { Counts log.old log.new }
    ensures listed { is_err result ≡ fails_next store.old }
    ensures counted { store.new ≡ called (is_err result) store.old }
    ensures later { store.old.faults ≤ store.new.faults }
{
    let refused = store.refuses();
    let place = size.min(kept.as_slice().len() as u64);
    kept.cut(place, refused);
    if refused {
        log.note(cut_not(alloc, file, size, kept.as_slice()), false);
        return Err(Failed);
    }
    log.note(Ok(Call::OnFile(file, FileCall::CutTo(size, None))), false);
    Ok(())
}

/// Brings the file to the disk.
pub fn sync(kept: &mut File, store: &mut Counter, log: &mut Log, file: u8) -> Result<(), Failed>
    ensures notes { NotesOn file log.old log.new kept.old kept.new (Unit {0}) (λ c. c ≡ on.Synced (is_ok result)) }
    ensures wanted { Counts log.old log.new }
    ensures listed { is_err result ≡ fails_next store.old }
    ensures counted { store.new ≡ called (is_err result) store.old }
    ensures later { store.old.faults ≤ store.new.faults }
{
    if store.refuses() {
        log.note(Ok(Call::OnFile(file, FileCall::Synced(false))), false);
        return Err(Failed);
    }
    let noted = match kept.sync() {
        Ok(()) => Ok(Call::OnFile(file, FileCall::Synced(true))),
        Err(NoMemory) => Err(NoMemory),
    };
    log.note(noted, false);
    Ok(())
}
