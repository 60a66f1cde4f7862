// Bytes of a file, read ahead of their use.
ghost use Rattle.std.specs.Prelude.{◌≡◌, ◌+◌, ◌<◌, ◌≤◌, ◌^◌, [], length, take, drop, IfOk, OnOk, is_err};
ghost use Rattle.kms_host.specs.Faults.{HasCause};
ghost use Rattle.kms_host.specs.History.{Tells, WhereTold, Stops};
ghost use Rattle.kms_host.specs.Store.{IsAttached};
ghost use Rattle.kms_host.specs.declared.call.Count.TheVariants as counts;
ghost use Rattle.kms_journal.specs.Ahead.{Fills};
ghost use Rattle.kms_journal.specs.Fault.{Fails};
ghost use Rattle.kms_journal.specs.Renewal.{Renews};
ghost use Rattle.kms_journal.specs.Spelling.{file_rest};

use crate::header::Header;
use crate::renewal::renew;
use crate::{Pieces, StoreFault};
use kms_host::{Failed, Host, NoMemory};
use std::alloc::Global;
use std::marker::Model;

/// How many bytes are read at once, at most.
pub const AT_ONCE: usize = 65_536;

/// The bytes of a file that were read and not used yet, in memory that is taken once.
#[derive(Drop)]
pub struct Buffer {
    bytes: Vec<u8>,
    used: usize,
    count: usize,
}

impl Model for Buffer {
    ghost use Rattle.std.specs.Prelude.{◌≡◌, ◌≤◌, List, ℕ, length, take, drop};

    ghost Value = { List ℕ };

    ghost view = { λ b. drop b.used (take b.count b.bytes.items) };

    ghost invariant = { λ b. (b.used ≤ b.count) × (b.count ≤ 65536) × (length b.bytes.items ≡ 65536) };
}

impl Buffer {
    /// A buffer of 65,536 bytes that holds none yet.
    pub fn new(alloc: Global) -> Result<Buffer, NoMemory>
        ensures { IfOk result (λ buffer. buffer ≡ []) }
    {
        Ok(Buffer {
            bytes: vec![in alloc; 0u8; AT_ONCE]?,
            used: 0,
            count: 0,
        })
    }

    /// Lets go of what it holds.
    pub fn clear(&mut self)
        ensures { self.new ≡ [] }
    {
        self.used = 0;
        self.count = 0;
    }

    /// The first of the bytes that it holds, this many at most.
    pub fn front(&self, most: usize) -> &[u8]
        ensures { result.now ≡ take most self.now }
    {
        let size = (self.count - self.used).min(most);
        &self.bytes[self.used..self.used + size]
    }

    /// Lets go of the first of the bytes that it holds, this many at most.
    pub fn skip(&mut self, size: usize)
        ensures { self.new ≡ drop size self.old }
    {
        self.used += (self.count - self.used).min(size);
    }

    /// Writes a file anew through the buffer's memory, which then holds no bytes of a file, as [`renew`] has it.
    pub fn renew<H: Host, P: Pieces>(
        &mut self,
        host: &mut H,
        header: &Header,
        pieces: &mut P,
    ) -> Result<(), StoreFault>
        requires file { header.now.file < 2 }
        requires size { header.now.snapshot ≡ length (P.left pieces.old) }
        requires attached { WhereTold (H.history host.old) IsAttached }
        ensures told { Tells (H.history host.old) (H.history host.new) (Renews header.now.file (file_rest header.now (P.left pieces.old)) result) }
        ensures bound { OnOk result (51 + header.now.snapshot < 2 ^ 62) }
        ensures cause { HasCause counts.Store (H.faults host.old) (H.faults host.new) result }
        ensures failed { Tells (H.history host.old) (H.history host.new) (Fails (is_err result)) }
        ensures stops { Stops (H.wanted host.old) (H.wanted host.new) (H.history host.old) (H.history host.new) }
    {
        self.used = 0;
        self.count = 0;
        renew(host, header, pieces, &mut self.bytes)
    }

    /// Reads on in a file, from the place of its first byte on, where it holds fewer bytes than are needed. So each
    /// byte is read once. Afterwards it holds as many as are needed, or all that the file has from there on.
    pub fn fill<H: Host>(
        &mut self,
        host: &mut H,
        file: u8,
        place: u64,
        needed: usize,
    ) -> Result<(), Failed>
        requires file { file < 2 }
        requires attached { WhereTold (H.history host.old) IsAttached }
        requires most { place < 2 ^ 62 }
        requires needed { needed ≤ 65536 }
        ensures told { Tells (H.history host.old) (H.history host.new) (Fills file place needed self.old self.new result) }
        ensures cause { HasCause counts.Store (H.faults host.old) (H.faults host.new) result }
        ensures failed { Tells (H.history host.old) (H.history host.new) (Fails (is_err result)) }
        ensures stops { Stops (H.wanted host.old) (H.wanted host.new) (H.history host.old) (H.history host.new) }
    {
        let held = self.count - self.used;
        if held >= needed {
            return Ok(());
        }
        self.bytes.copy_within(self.used..self.count, 0);
        self.used = 0;
        self.count = held;
        let count = host.read_at(file, place + held as u64, &mut self.bytes[held..])?;
        self.count = held + count;
        Ok(())
    }
}
