// One file of a store in memory: how it reads, and what was changed since its last sync.
ghost use Rattle.std.specs.Prelude.{◌≡◌, ◌⊎◌, ◌≤◌, ◌<◌, ◌+◌, ◌^◌, length, take, drop, Ok, IfOk, OnOk, OnErr, IsTrue, IsFalse, ℕ, if◌then◌else◌, slice_index};
ghost use Rattle.kms_host.specs.History.{HasFirst};
ghost use Rattle.kms_host.specs.Disk.{at_rest, after_cut, put, MayLeave};
ghost use Rattle.kms_host.specs.File.{HasWritten, IsPicked, is_outside, torn_byte};
ghost use Rattle.kms_host.specs.declared.memory.file.Written.TheVariants as written;

use crate::host::LENGTH_LIMIT;
use crate::{Bytes, NoMemory, Pick};
use std::alloc::Global;
use std::marker::Model;

/// How a write came out that was begun.
#[derive(Clone, Copy, PartialEq, Eq)]
pub enum Written {
    Done,
    /// It was to fail.
    Refused,
    /// There was no memory for the bytes.
    Starved,
}

/// One file of a store. The ranges that were written stand newest first.
#[derive(Drop)]
pub struct File {
    alloc: Global,
    reads: Vec<u8>,
    base: Vec<u8>,
    ranges: Vec<(u64, u64)>,
    shortest: u64,
    longest: u64,
}

impl Model for File {
    ghost use Rattle.kms_host.specs.Disk.{Disk};
    ghost use Rattle.kms_host.specs.File.{disk_of, IsSound};

    ghost Value = { Disk };

    ghost view = { disk_of };

    ghost invariant = { λ f. IsSound (disk_of f) };
}

impl File {
    /// A file with these bytes and nothing pending.
    pub fn of(alloc: Global, bytes: &[u8]) -> Result<File, NoMemory>
        ensures { IfOk result (λ f. f ≡ at_rest bytes.now) }
    {
        if bytes.len() as u64 >= LENGTH_LIMIT {
            return Err(NoMemory);
        }
        Ok(File {
            alloc,
            reads: bytes.to_vec(alloc)?,
            base: bytes.to_vec(alloc)?,
            ranges: Vec::new(alloc),
            shortest: bytes.len() as u64,
            longest: bytes.len() as u64,
        })
    }

    /// How the file reads.
    pub fn as_slice(&self) -> &[u8]
        ensures value { result.now ≡ self.now.reads }
        ensures image { MayLeave self.now self.now.reads }
        ensures bound { length result.now < 2 ^ 62 }
    {
        &self.reads
    }

    /// Writes a piece at a place, over what is there and past the file's end, unless the write is refused. In any case
    /// it is begun, but where there is no memory for saying so: then the file is as it was.
    pub fn write(&mut self, at: u64, piece: &[u8], refused: bool) -> Result<Written, NoMemory>
        requires within { at ≤ length self.old.reads }
        requires low { at < 2 ^ 62 }
        requires short { IsFalse refused → at + length piece.now < 2 ^ 62 }
        ensures after { HasWritten at piece.now result self.old self.new }
        ensures done { result ≡ Ok written.Done → IsFalse refused }
        ensures starved { result ≡ Ok written.Starved → IsFalse refused }
        ensures refused { result ≡ Ok written.Refused → IsTrue refused }
    {
        let end = at + piece.len() as u64;
        self.ranges.insert(0, (at, end))?;
        self.longest = self.longest.max(end);
        if refused {
            return Ok(Written::Refused);
        }
        match write_over(&mut self.reads, at as usize, piece) {
            Ok(()) => Ok(Written::Done),
            Err(NoMemory) => Ok(Written::Starved),
        }
    }

    /// Cuts the file to a length, unless the cut is refused. In any case it is begun.
    pub fn cut(&mut self, size: u64, refused: bool)
        requires { size ≤ length self.old.reads }
        ensures { self.new ≡ after_cut self.old size (if refused then self.old.reads else take size self.old.reads) }
    {
        self.shortest = self.shortest.min(size);
        if !refused {
            self.reads.truncate(size as usize);
        }
    }

    /// Brings everything to the disk. Out of memory leaves the file as it was.
    pub fn sync(&mut self) -> Result<(), NoMemory>
        ensures ok { OnOk result (self.new ≡ at_rest self.old.reads) }
        ensures err { OnErr result (self.new ≡ self.old) }
    {
        self.base = self.reads.to_vec(self.alloc)?;
        self.ranges.truncate(0);
        self.shortest = self.reads.len() as u64;
        self.longest = self.reads.len() as u64;
        Ok(())
    }

    /// The image that is picked, which is one that a stop may leave.
    pub fn image(&self, pick: Pick) -> Result<Bytes, NoMemory>
        ensures picked { IfOk result (IsPicked pick self.now) }
        ensures image { IfOk result (MayLeave self.now) }
    {
        match pick {
            Pick::Kept => Bytes::of(self.alloc, &self.reads),
            Pick::Lost => Bytes::of(self.alloc, &self.base),
            Pick::Torn(value) => Bytes::of(self.alloc, &self.torn(value)?),
        }
    }

    // The greatest length, and this value wherever something was written since the last sync.
    fn torn(&self, value: u8) -> Result<Vec<u8>, NoMemory>
        ensures { IfOk result (λ image. (length image.items ≡ self.now.longest)
            × ((k : ℕ) → k < length image.items → slice_index image.items k ≡ torn_byte value self.now k)) }
    {
        let mut image = Vec::new(self.alloc);
        for at in 0..self.longest {
            image.push(self.torn_byte(at, value))?;
        }
        Ok(image)
    }

    fn torn_byte(&self, at: u64, value: u8) -> u8
        ensures { result ≡ torn_byte value self.now at }
    {
        if at < self.base.len() as u64 && is_outside(&self.ranges, at) {
            self.base[at as usize]
        } else {
            value
        }
    }
}

// Writes a piece over the bytes from a place on, and past their end. Out of memory leaves them as they were.
fn write_over(bytes: &mut Vec<u8>, at: usize, piece: &[u8]) -> Result<(), NoMemory>
    requires { at ≤ length bytes.old.items }
    ensures ok { OnOk result (bytes.new.items ≡ put bytes.old.items at piece.now) }
    ensures err { OnErr result (bytes.new.items ≡ bytes.old.items) }
{
    let over = piece.len().min(bytes.len() - at);
    bytes.extend_from_slice(&piece[over..])?;
    bytes[at..at + over].copy_from_slice(&piece[..over]);
    Ok(())
}

// The place is in none of the ranges.
fn is_outside(ranges: &[(u64, u64)], at: u64) -> bool
    ensures { result ≡ is_outside at ranges.now }
{
    ranges.iter().all(|range| at < range.0 || range.1 <= at)
}

/// Fills the room from a place of the bytes on, as far as they reach, and answers how far.
pub fn fill_from(bytes: &[u8], at: usize, room: &mut [u8]) -> usize
    ensures first { HasFirst (drop at bytes.now) room.new result }
    ensures bound { result ≤ length room.new }
{
    let rest = &bytes[at.min(bytes.len())..];
    let count = rest.len().min(room.len());
    room[..count].copy_from_slice(&rest[..count]);
    count
}
