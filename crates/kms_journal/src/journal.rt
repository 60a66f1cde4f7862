// An opened store, and how it grows.
ghost use Rattle.std.specs.Prelude.{◌≡◌, ◌+◌, ◌-◌, ◌^◌, ◌<◌, ◌≤◌, length, Some, None, OnOk, OnErr, is_err, false, true};
ghost use Rattle.kms_host.specs.Faults.{HasCause};
ghost use Rattle.kms_host.specs.History.{Tells, WhereTold, Stops};
ghost use Rattle.kms_host.specs.declared.call.Count.TheVariants as counts;
ghost use Rattle.kms_journal.specs.Commit.{IsFramed, Commits};
ghost use Rattle.kms_journal.specs.Answers.{Gathers};
ghost use Rattle.kms_journal.specs.Checkpoint.{Checkpoints, moved_to};
ghost use Rattle.kms_journal.specs.Device.{HasStoreCause};
ghost use Rattle.kms_journal.specs.Position.{IsPlaced, position_at, failed_if};
ghost use Rattle.kms_journal.specs.Standing.{Standing};
ghost use Rattle.kms_journal.specs.declared.fault.JournalFault.TheVariants as faults;
ghost use Rattle.kms_journal.specs.Fault.{Fails, is_failed_opening};

use crate::buffer::Buffer;
use crate::fault::GatherFault;
use crate::gather::read_chain;
use crate::header::{Current, Header};
use crate::through::write_through;
use crate::{Chain, JournalFault, Pieces, StoreFault};
use kms_host::Host;
use std::alloc::Global;
use std::marker::Model;

/// An opened store: its current file's header, the place of that file's last commit mark, the buffer for reading and for
/// checkpoints, what the opening read, until that is taken, and whether a call of the store failed in one of the journal's
/// calls. From then on nothing is written.
#[derive(Drop)]
pub struct Journal {
    header: Header,
    end: u64,
    buffer: Buffer,
    chain: Option<Chain>,
    failed: bool,
}

impl Model for Journal {
    ghost use Rattle.std.specs.Prelude.{◌≡◌, ◌+◌, ◌<◌, ◌≤◌, ◌^◌, length};
    ghost use Rattle.kms_journal.specs.Position.{Position, position_at};

    ghost Value = { Position };

    ghost view = { λ j. position_at j.header j.end j.failed j.chain };

    ghost invariant = { λ j. (j.header.file < 2) × (50 + j.header.snapshot ≤ j.end) × (j.end + 1 < 2 ^ 62) };
}

impl Journal {
    /// A journal of this header, whose last commit mark is at this place, and what was read of its store.
    pub(crate) fn of(header: Header, end: u64, buffer: Buffer, chain: Chain) -> Journal
        requires file { header.file < 2 }
        requires order { 50 + header.snapshot ≤ end }
        requires most { end + 1 < 2 ^ 62 }
        ensures { result ≡ position_at header end false (Some chain) }
    {
        Journal {
            header,
            end,
            buffer,
            chain: Some(chain),
            failed: false,
        }
    }

    /// The generation of the current file, at least 1.
    pub fn generation(&self) -> u64
        ensures { result ≡ self.now.generation }
    {
        self.header.generation
    }

    /// How many bytes the records take: those after the commit mark that stands after the snapshot.
    pub fn records(&self) -> u64
        ensures { result ≡ self.now.end - self.now.start }
    {
        self.end - (50 + self.header.snapshot)
    }

    /// What the store stands for, with all its records: first what the opening read, without any call, and where that was
    /// taken before or a record was added since, read anew in pieces through the journal's buffer. Answers StoreFault
    /// exactly where a call on the store's files failed, and the journal has failed then. NoMemory is the only other fault.
    pub fn bodies<H: Host>(&mut self, alloc: Global, host: &mut H) -> Result<Chain, JournalFault>
        requires { WhereTold (H.history host.old) (λ h. (s : Standing) × IsPlaced self.old h s) }
        ensures told { Tells (H.history host.old) (H.history host.new) (λ was now. (s : Standing)
            → IsPlaced self.old was s → Gathers s result was now) }
        ensures position { self.new ≡ failed_if (is_failed_opening result) (record self.old { chain = None }) }
        ensures cause { HasStoreCause faults.StoreFault (H.faults host.old) (H.faults host.new) result }
        ensures failed { Tells (H.history host.old) (H.history host.new) (Fails (is_failed_opening result)) }
        ensures stops { Stops (H.wanted host.old) (H.wanted host.new) (H.history host.old) (H.history host.new) }
    {
        if let Some(chain) = self.chain.take() {
            return Ok(chain);
        }
        self.buffer.clear();
        let current = Current {
            header: self.header,
            size: self.end + 1,
        };
        match read_chain(alloc, host, &current, &mut self.buffer) {
            Ok((chain, _)) => Ok(chain),
            Err(GatherFault::NoMemory) => Err(JournalFault::NoMemory),
            Err(GatherFault::StoreFault) => {
                self.failed = true;
                Err(JournalFault::StoreFault)
            }
        }
    }

    /// Adds a record. `framed` is its length in 4 bytes, big-endian, its bytes, and a clear commit mark, a 0. It is
    /// written after the last commit mark and synced, and then that commit mark is set by a write of its own and
    /// synced. No file is cut.
    ///
    /// From an Ok on nothing is pending on the current file, and if nothing was pending on the other one before the
    /// commit, each crash image has the record. A fault is answered exactly where a call on the store's files failed. The
    /// journal has failed then, and the store has the record or hasn't: open it anew.
    pub fn commit<H: Host>(&mut self, host: &mut H, framed: &[u8]) -> Result<(), StoreFault>
        requires working { self.old.failed ≡ false }
        requires framed { IsFramed framed.now }
        requires placed { WhereTold (H.history host.old) (λ h. (s : Standing) × IsPlaced self.old h s) }
        ensures told { Tells (H.history host.old) (H.history host.new) (λ was now. (s : Standing)
            → IsPlaced self.old was s → Commits self.old self.new framed.now result s was now) }
        ensures moved { OnOk result (self.new ≡ record self.old { end = self.old.end + length framed.now; chain = None }) }
        ensures fails { OnErr result (self.new ≡ record self.old { failed = true; chain = None }) }
        ensures cause { HasCause counts.Store (H.faults host.old) (H.faults host.new) result }
        ensures failed { Tells (H.history host.old) (H.history host.new) (Fails (is_err result)) }
        ensures stops { Stops (H.wanted host.old) (H.wanted host.new) (H.history host.old) (H.history host.new) }
    {
        self.failed = true;
        self.chain = None;
        write_through(host, self.header.file, self.end + 1, framed)?;
        write_through(host, self.header.file, self.end, &[1])?;
        self.failed = false;
        self.end += framed.len() as u64;
        Ok(())
    }

    /// A checkpoint: puts a snapshot in the place of the records. It is written to the other file, with no records, and
    /// that file is current then. The buffer that was taken at the opening serves for it, and no memory is taken.
    ///
    /// The other file is made one clear commit mark and synced, the header of the next generation, the snapshot and a clear
    /// commit mark are written and synced, and then the first commit mark is set by a write of its own and synced. The file
    /// that was current isn't touched. There is one cut, and after it there are three syncs at most. If nothing was pending before, each crash image has
    /// what the store stood for, or the snapshot; from an Ok on it has the snapshot. A fault is answered exactly where a call
    /// on the store's files failed. The journal has failed then: open the store anew.
    ///
    /// No checkpoint is made of a generation of 2^63 or more. The snapshot has to be whole, with nothing of it given yet, and
    /// of 2^62 ids at most.
    pub fn turn_over<H: Host, P: Pieces>(
        &mut self,
        host: &mut H,
        pieces: &mut P,
    ) -> Result<(), StoreFault>
        requires working { self.old.failed ≡ false }
        requires generation { self.old.generation < 2 ^ 63 }
        requires ids { (P.snapshot pieces.old).ids ≤ 2 ^ 62 }
        requires whole { P.left pieces.old ≡ (P.snapshot pieces.old).bytes }
        requires placed { WhereTold (H.history host.old) (λ h. (s : Standing) × IsPlaced self.old h s) }
        ensures told { Tells (H.history host.old) (H.history host.new) (λ was now. (s : Standing)
            → IsPlaced self.old was s → Checkpoints self.new (P.snapshot pieces.old) result s was now) }
        ensures moved { OnOk result (self.new ≡ moved_to self.old (P.snapshot pieces.old)) }
        ensures fails { OnErr result (self.new ≡ record self.old { failed = true; chain = None }) }
        ensures cause { HasCause counts.Store (H.faults host.old) (H.faults host.new) result }
        ensures failed { Tells (H.history host.old) (H.history host.new) (Fails (is_err result)) }
        ensures stops { Stops (H.wanted host.old) (H.wanted host.new) (H.history host.old) (H.history host.new) }
    {
        self.failed = true;
        self.chain = None;
        let header = Header {
            file: 1 - self.header.file,
            generation: self.header.generation + 1,
            tag: self.header.tag,
            ids: pieces.ids(),
            steps: pieces.steps(),
            snapshot: pieces.total(),
        };
        self.buffer.renew(host, &header, pieces)?;
        self.failed = false;
        self.header = header;
        self.end = 50 + header.snapshot;
        Ok(())
    }
}
