// Steps that wait to be settled, in one buffer: the record that the journal takes.
ghost use Rattle.std.specs.Prelude.{◌≡◌, ◌<◌, ◌≤◌, ◌+◌, ◌^◌, ◌++◌, [], ◌∷◌, length, drop, IfOk, OnOk, OnErr, is_err, false, true, vec_len, vec_capacity};
ghost use Rattle.std.specs.Int.{w32, to_be_bytes};
ghost use Rattle.kms_host.specs.Faults.{HasCause};
ghost use Rattle.kms_host.specs.History.{Tells, WhereTold, Stops};
ghost use Rattle.kms_host.specs.declared.call.Count.TheVariants as counts;
ghost use Rattle.kms_record.specs.Fields.{u32_bytes};
ghost use Rattle.kms_record.specs.Grammar.{IsStep, IsStepInRange, step_bytes};
ghost use Rattle.kms_journal.specs.Commit.{frame, Commits};
ghost use Rattle.kms_journal.specs.Fault.{Fails};
ghost use Rattle.kms_journal.specs.Position.{IsPlaced};
ghost use Rattle.kms_journal.specs.Standing.{Standing};
ghost use Rattle.kms_store.specs.Settling.{committed, staged_record};
ghost use Rattle.kms_store.specs.Staged.{nothing_staged, with_reserved, with_staged};

use kms_host::Host;
use kms_journal::{Journal, StoreFault};
use kms_record::{Step, encode_step};
use kms_world::{Bytes, NoMemory};
use std::alloc::Global;
use std::marker::Model;

/// Staged steps, and the step that was reserved last, each spelled once. The buffer begins with eight bytes, for the
/// record's length and the number of steps, and has room for the piece and one byte more. Contracts see the number of
/// staged steps, their spellings and the piece.
#[derive(Drop)]
pub(crate) struct Staged {
    alloc: Global,
    buffer: Vec<u8>,
    piece: Bytes,
    count: u32,
}

impl Model for Staged {
    ghost use Rattle.kms_store.specs.Staged.{Staging};
    ghost use Rattle.kms_store.specs.StagedFields.{staging_in, IsBuffer};

    ghost Value = { Staging };

    ghost view = { staging_in };

    ghost invariant = { IsBuffer };
}

// Writes the numbers in the first eight bytes.
fn write_head(out: &mut [u8], size: u32, count: u32)
    requires { 8 ≤ length out.old }
    ensures { out.new ≡ to_be_bytes w32 size ++ to_be_bytes w32 count ++ drop 8 out.old }
{
    let l = size.to_be_bytes();
    let c = count.to_be_bytes();
    let head = [l[0], l[1], l[2], l[3], c[0], c[1], c[2], c[3]];
    out[..8].copy_from_slice(&head);
}

// Makes the buffer a framed record: the numbers in the first eight bytes, and a clear commit mark after the steps. It takes
// no memory.
fn close(buffer: &mut Vec<u8>, count: u32)
    requires head { 8 ≤ length buffer.old.items }
    requires space { vec_len buffer.old < vec_capacity buffer.old }
    requires short { length buffer.old.items < 2 ^ 28 }
    ensures items { buffer.new.items ≡ to_be_bytes w32 (length (drop 8 buffer.old.items) + 4) ++ to_be_bytes w32 count ++ drop 8 buffer.old.items ++ 0 ∷ [] }
    ensures capacity { vec_capacity buffer.old ≤ vec_capacity buffer.new }
{
    let size = buffer.len() as u32 - 4;
    write_head(buffer, size, count);
    let pushed = buffer.push(0);
    prove!(pushed.is_ok());
}

// Adds the staged steps to the store as one record. The buffer has the same steps afterwards.
fn commit<H: Host>(
    host: &mut H,
    journal: &mut Journal,
    buffer: &mut Vec<u8>,
    count: u32,
) -> Result<(), StoreFault>
    requires head { 8 ≤ length buffer.old.items }
    requires space { vec_len buffer.old < vec_capacity buffer.old }
    requires short { length buffer.old.items < 2 ^ 27 + 8 }
    requires working { journal.old.failed ≡ false }
    requires placed { WhereTold (H.history host.old) (λ h. (s : Standing) × IsPlaced journal.old h s) }
    ensures told { Tells (H.history host.old) (H.history host.new) (λ was now. (s : Standing)
        → IsPlaced journal.old was s → Commits journal.old journal.new (frame (u32_bytes count ++ drop 8 buffer.old.items)) result s was now) }
    ensures steps { drop 8 buffer.new.items ≡ drop 8 buffer.old.items }
    ensures len { length buffer.new.items ≡ length buffer.old.items }
    ensures capacity { vec_capacity buffer.old ≤ vec_capacity buffer.new }
    ensures moved { OnOk result (journal.new ≡ record journal.old { end = journal.old.end + length (frame (u32_bytes count ++ drop 8 buffer.old.items)); chain = None }) }
    ensures fails { OnErr result (journal.new ≡ record journal.old { failed = true; chain = None }) }
    ensures cause { HasCause counts.Store (H.faults host.old) (H.faults host.new) result }
    ensures failed { Tells (H.history host.old) (H.history host.new) (Fails (is_err result)) }
    ensures stops { Stops (H.wanted host.old) (H.wanted host.new) (H.history host.old) (H.history host.new) }
{
    let len = buffer.as_slice().len();
    close(buffer, count);
    let committed = journal.commit(host, buffer);
    buffer.truncate(len);
    committed
}

impl Staged {
    /// No steps.
    pub(crate) fn new(alloc: Global) -> Result<Staged, NoMemory>
        ensures { IfOk result (λ staged. staged ≡ nothing_staged) }
    {
        let mut buffer = Vec::with_capacity(alloc, 9)?;
        buffer.extend_from_slice(&[0u8; 8])?;
        Ok(Staged {
            alloc,
            buffer,
            piece: Bytes::new(alloc),
            count: 0,
        })
    }

    /// How many steps are staged.
    pub(crate) fn count(&self) -> u32
        ensures { result ≡ self.now.count }
    {
        self.count
    }

    /// Spells a step, and makes room for it. The steps and this one have less than 2^27 bytes. After `NoMemory` no step
    /// is reserved.
    pub(crate) fn reserve(&mut self, step: &Step) -> Result<(), NoMemory>
        requires range { IsStepInRange step.now }
        requires short { length self.old.steps + length (step_bytes step.now) < 2 ^ 27 }
        ensures ok { OnOk result (self.new ≡ with_reserved (step_bytes step.now) self.old) }
        ensures admitted { OnOk result (IsStep step.now) }
        ensures err { OnErr result (self.new ≡ with_reserved [] self.old) }
    {
        self.piece = Bytes::new(self.alloc);
        let mut piece = Bytes::new(self.alloc);
        encode_step(step, &mut piece)?;
        self.buffer.reserve(piece.as_slice().len() + 1)?;
        self.piece = piece;
        Ok(())
    }

    /// Stages the step that is reserved. It takes no memory.
    pub(crate) fn stage(&mut self)
        requires some { 1 ≤ length self.old.reserved }
        ensures { self.new ≡ with_staged self.old }
    {
        let copied = self.buffer.extend_from_slice(self.piece.as_slice());
        prove!(copied.is_ok());
        self.piece = Bytes::new(self.alloc);
        self.count += 1;
    }

    /// No steps any more.
    pub(crate) fn clear(&mut self)
        ensures { self.new ≡ nothing_staged }
    {
        self.buffer.truncate(8);
        self.piece = Bytes::new(self.alloc);
        self.count = 0;
    }

    /// Adds the staged steps to the store, as one record, with two syncs. It takes no memory. They are staged still.
    pub(crate) fn commit<H: Host>(
        &mut self,
        host: &mut H,
        journal: &mut Journal,
    ) -> Result<(), StoreFault>
        requires working { journal.old.failed ≡ false }
        requires placed { WhereTold (H.history host.old) (λ h. (s : Standing) × IsPlaced journal.old h s) }
        ensures told { Tells (H.history host.old) (H.history host.new) (λ was now. (s : Standing)
            → IsPlaced journal.old was s → Commits journal.old journal.new (staged_record self.old) result s was now) }
        ensures same { self.new ≡ self.old }
        ensures short { length self.old.steps < 2 ^ 27 }
        ensures few { self.old.count < 2 ^ 32 }
        ensures moved { OnOk result (journal.new ≡ committed journal.old self.old) }
        ensures fails { OnErr result (journal.new ≡ record journal.old { failed = true; chain = None }) }
        ensures cause { HasCause counts.Store (H.faults host.old) (H.faults host.new) result }
        ensures failed { Tells (H.history host.old) (H.history host.new) (Fails (is_err result)) }
        ensures stops { Stops (H.wanted host.old) (H.wanted host.new) (H.history host.old) (H.history host.new) }
    {
        commit(host, journal, &mut self.buffer, self.count)
    }
}
