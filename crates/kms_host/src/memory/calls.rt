// The calls of a host in memory.
ghost use Rattle.std.specs.Prelude.{◌≡◌, ◌≢◌, ◌≤◌, ◌<◌, ◌+◌, ◌^◌, ◌⊎◌, ◌||◌, ℕ, List, length, drop, Option, Some, Err, IfOk, IfSome, OnOk, OnErr, IsTrue, is_err, is_ok, is_none};
ghost use Rattle.kms_host.specs.History.{Tells, WhereTold, Stops, HasFirst, then_call, answer, given, given_by_name, filled};
ghost use Rattle.kms_host.specs.Faults.{HasCause, HasNameCause, NeverFalls};
ghost use Rattle.kms_host.specs.Line.{IsOpen, opened};
ghost use Rattle.kms_host.specs.Store.{IsAttached, OnlyAttached};
ghost use Rattle.kms_host.specs.KeyFiles.{named};
ghost use Rattle.kms_host.specs.Disk.{disk, reads, after_write, after_cut, Left};
ghost use Rattle.kms_host.specs.Memory.{faults_of, fails_next, present_on, moment_at, draws_for, AreDrawn, next_line, after_take, after_give, after_counted, after_came, after_file, after_draw, after_call, AddsTo, next};
ghost use Rattle.kms_host.specs.declared.call.Call.TheVariants as calls;
ghost use Rattle.kms_host.specs.declared.call.FileCall.TheVariants as on;
ghost use Rattle.kms_host.specs.declared.call.Count.TheVariants as counts;
ghost use Rattle.kms_host.specs.declared.call.NameFault.TheVariants as faults;

use crate::memory::counter::count_fault;
use crate::memory::file::fill_from;
use crate::memory::key_files::text_of;
use crate::memory::log::{attached, drew, gave, listened, named, took, unnamed};
use crate::memory::output::send;
use crate::memory::source::pull;
use crate::memory::store::{cut, measure, read, sync, write};
use crate::{Call, Failed, Host, MemoryHost, NameFault, Purpose};

impl Host for MemoryHost {
    ghost history = { λ m. m.history };

    ghost faults = { λ m. faults_of m.counters };

    ghost wanted = { λ m. m.wanted };

    fn text(&mut self, name: &str, room: &mut [u8]) -> Result<usize, NameFault>
        ensures told { Tells self.old.history self.new.history (λ was now.
            (now ≡ then_call was (calls.Text name.now (length room.new) (given_by_name room.new result)))
            × IfOk result (λ n. (bytes : List ℕ) × (named name.now was.key_files ≡ Some bytes) × HasFirst bytes room.new n)) }
        ensures bound { IfOk result (λ n. n ≤ length room.new) }
        ensures cause { HasNameCause counts.KeyFile (faults_of self.old.counters) (faults_of self.new.counters) result }
        ensures stops { Stops self.old.wanted self.new.wanted self.old.history self.new.history }
        ensures listed { is_err result ≡ (fails_next self.old.counters.key_file || is_none (named name.now self.old.key_files)) }
        ensures memory { result ≢ Err faults.NoMemory }
        ensures gives { IfOk result (λ n. IfSome (named name.now self.old.key_files) (λ bytes. HasFirst bytes room.new n)) }
        ensures after { self.new ≡ after_counted counts.KeyFile result self.old self.new }
    {
        let refused = self.key_file.refuses();
        match text_of(&self.key_files, name, refused) {
            Some(text) => {
                let count = fill_from(text, 0, room);
                let call = named(self.alloc, name, room, count);
                self.log.note(call, false);
                Ok(count)
            }
            None => {
                count_fault(&mut self.key_file, refused);
                let call = unnamed(self.alloc, name, room.len());
                self.log.note(call, false);
                Err(NameFault::Failed)
            }
        }
    }

    fn attach(&mut self, name: &str) -> Result<(), NameFault>
        requires { WhereTold self.old.history (λ h. OnlyAttached name.now h.calls) }
        ensures told { Tells self.old.history self.new.history (λ was now.
            now ≡ then_call was (calls.Attached name.now result)) }
        ensures cause { HasNameCause counts.Store (faults_of self.old.counters) (faults_of self.new.counters) result }
        ensures stops { Stops self.old.wanted self.new.wanted self.old.history self.new.history }
        ensures listed { is_err result ≡ fails_next self.old.counters.store }
        ensures memory { result ≢ Err faults.NoMemory }
        ensures after { self.new ≡ after_counted counts.Store result self.old self.new }
    {
        let result = if self.store.refuses() {
            Err(NameFault::Failed)
        } else {
            Ok(())
        };
        self.log.note(attached(self.alloc, name, result), false);
        result
    }

    fn listen(&mut self, address: &str) -> Result<(), NameFault>
        ensures told { Tells self.old.history self.new.history (λ was now.
            now ≡ then_call was (calls.Listened address.now result)) }
        ensures cause { HasNameCause counts.Listen (faults_of self.old.counters) (faults_of self.new.counters) result }
        ensures stops { Stops self.old.wanted self.new.wanted self.old.history self.new.history }
        ensures listed { is_err result ≡ fails_next self.old.counters.listen }
        ensures memory { result ≢ Err faults.NoMemory }
        ensures after { self.new ≡ after_counted counts.Listen result self.old self.new }
    {
        let result = if self.listen.refuses() {
            Err(NameFault::Failed)
        } else {
            Ok(())
        };
        self.log.note(listened(self.alloc, address, result), false);
        result
    }

    fn next_line(&mut self) -> Result<Option<u32>, Failed>
        ensures told { Tells self.old.history self.new.history (λ was now.
            (now ≡ then_call was (calls.Came (answer result)))
            × IfOk result (λ next. IfSome next (λ line. line ≡ opened was.calls + 1))) }
        ensures cause { HasCause counts.Listen (faults_of self.old.counters) (faults_of self.new.counters) result }
        ensures stops { Stops self.old.wanted self.new.wanted self.old.history self.new.history }
        ensures listed { is_err result ≡ fails_next self.old.counters.listen }
        ensures gives { IfOk result (λ next. next ≡ next_line self.old.opened (length self.old.lines)) }
        ensures after { self.new ≡ after_came result self.old self.new }
    {
        if self.listen.refuses() {
            self.log.note(Ok(Call::Came(None)), false);
            return Err(Failed);
        }
        let next = line_after(self.opened, self.inputs.len());
        self.opened = next.unwrap_or(self.opened);
        self.log.note(Ok(Call::Came(Some(next))), false);
        Ok(next)
    }

    fn take(&mut self, line: u32, room: &mut [u8]) -> Result<usize, Failed>
        requires room { 0 < length room.old }
        requires open_line { WhereTold self.old.history (IsOpen line) }
        ensures told { Tells self.old.history self.new.history (λ was now.
            now ≡ then_call was (calls.Took line (length room.new) (given room.new result))) }
        ensures bound { IfOk result (λ n. n ≤ length room.new) }
        ensures cause { HasCause counts.Link (faults_of self.old.counters) (faults_of self.new.counters) result }
        ensures stops { Stops self.old.wanted self.new.wanted self.old.history self.new.history }
        ensures listed { is_err result ≡ fails_next self.old.counters.link }
        ensures gives { IfOk result (HasFirst (present_on line self.old.lines) room.new) }
        ensures after { self.new ≡ after_take line result self.old self.new }
    {
        if self.link.refuses() {
            self.log.note(Ok(Call::Took(line, room.len(), None)), false);
            return Err(Failed);
        }
        let count = pull(&mut self.inputs, line, room);
        let call = took(self.alloc, line, room.len(), &room[..count]);
        self.log.note(call, false);
        Ok(count)
    }

    fn give(&mut self, line: u32, piece: &[u8]) -> Result<usize, Failed>
        requires { WhereTold self.old.history (IsOpen line) }
        ensures told { Tells self.old.history self.new.history (λ was now.
            now ≡ then_call was (calls.Gave line piece.now (answer result))) }
        ensures bound { IfOk result (λ n. n ≤ length piece.now) }
        ensures some { IfOk result (λ n. 0 < length piece.now → 0 < n) }
        ensures cause { HasCause counts.Link (faults_of self.old.counters) (faults_of self.new.counters) result }
        ensures stops { Stops self.old.wanted self.new.wanted self.old.history self.new.history }
        ensures listed { IsTrue (fails_next self.old.counters.link) → IsTrue (is_err result) }
        ensures other { OnErr result (IsTrue (fails_next self.old.counters.link) ⊎ (self.new.wanted ≡ next self.old.wanted)) }
        ensures whole { IfOk result (λ n. (n ≡ length piece.now) × AddsTo line piece.now self.old.outputs self.new.outputs) }
        ensures kept { OnErr result (self.new.outputs ≡ self.old.outputs) }
        ensures after { self.new ≡ after_give result self.old self.new }
    {
        if self.link.refuses() {
            self.log.note(gave(self.alloc, line, piece, None), false);
            return Err(Failed);
        }
        if send(self.alloc, &mut self.outputs, line, piece).is_err() {
            self.link.count_fault();
            self.log.note(gave(self.alloc, line, piece, None), true);
            return Err(Failed);
        }
        self.log
            .note(gave(self.alloc, line, piece, Some(piece.len())), false);
        Ok(piece.len())
    }

    fn shut(&mut self, line: u32)
        ensures told { Tells self.old.history self.new.history (λ was now. now ≡ then_call was (calls.Shut line)) }
        ensures cause { NeverFalls (faults_of self.old.counters) (faults_of self.new.counters) }
        ensures stops { Stops self.old.wanted self.new.wanted self.old.history self.new.history }
        ensures after { self.new ≡ after_call self.old self.new }
    {
        self.log.note(Ok(Call::Shut(line)), false);
    }

    fn len(&mut self, file: u8) -> Result<u64, Failed>
        requires file { file < 2 }
        requires attached { WhereTold self.old.history IsAttached }
        ensures told { Tells self.old.history self.new.history (λ was now.
            (now ≡ then_call was (calls.OnFile file (on.Measured (answer result))))
            × IfOk result (λ n. n ≡ length (reads file was))) }
        ensures bound { IfOk result (λ n. n < 2 ^ 62) }
        ensures cause { HasCause counts.Store (faults_of self.old.counters) (faults_of self.new.counters) result }
        ensures stops { Stops self.old.wanted self.new.wanted self.old.history self.new.history }
        ensures listed { is_err result ≡ fails_next self.old.counters.store }
        ensures after { self.new ≡ after_file result self.old self.new }
    {
        if file == 0 {
            measure(&self.file_0, &mut self.store, &mut self.log, 0)
        } else {
            measure(&self.file_1, &mut self.store, &mut self.log, 1)
        }
    }

    fn read_at(&mut self, file: u8, at: u64, room: &mut [u8]) -> Result<usize, Failed>
        requires file { file < 2 }
        requires attached { WhereTold self.old.history IsAttached }
        ensures told { Tells self.old.history self.new.history (λ was now.
            (now ≡ then_call was (calls.OnFile file (on.Read at (length room.new) (given room.new result))))
            × IfOk result (HasFirst (drop at (reads file was)) room.new)) }
        ensures bound { IfOk result (λ n. n ≤ length room.new) }
        ensures cause { HasCause counts.Store (faults_of self.old.counters) (faults_of self.new.counters) result }
        ensures stops { Stops self.old.wanted self.new.wanted self.old.history self.new.history }
        ensures listed { is_err result ≡ fails_next self.old.counters.store }
        ensures after { self.new ≡ after_file result self.old self.new }
    {
        if file == 0 {
            read(
                self.alloc,
                &self.file_0,
                &mut self.store,
                &mut self.log,
                0,
                at,
                room,
            )
        } else {
            read(
                self.alloc,
                &self.file_1,
                &mut self.store,
                &mut self.log,
                1,
                at,
                room,
            )
        }
    }

    fn write_at(&mut self, file: u8, at: u64, piece: &[u8]) -> Result<(), Failed>
        requires file { file < 2 }
        requires attached { WhereTold self.old.history IsAttached }
        requires within { WhereTold self.old.history (λ h. at ≤ length (reads file h)) }
        ensures told { Tells self.old.history self.new.history (λ was now. (left : Option (List ℕ))
            × (now ≡ then_call was (calls.OnFile file (on.Wrote at piece.now left)))
            × Left result left (after_write (disk file was) at piece.now (reads file was))) }
        ensures bound { OnOk result (at + length piece.now < 2 ^ 62) }
        ensures cause { HasCause counts.Store (faults_of self.old.counters) (faults_of self.new.counters) result }
        ensures stops { Stops self.old.wanted self.new.wanted self.old.history self.new.history }
        ensures listed { IsTrue (fails_next self.old.counters.store) → IsTrue (is_err result) }
        ensures other { OnErr result (IsTrue (fails_next self.old.counters.store) ⊎ (2 ^ 62 ≤ at + length piece.now) ⊎ (self.new.wanted ≡ next self.old.wanted)) }
        ensures after { self.new ≡ after_file result self.old self.new }
    {
        if file == 0 {
            write(
                self.alloc,
                &mut self.file_0,
                &mut self.store,
                &mut self.log,
                0,
                at,
                piece,
            )
        } else {
            write(
                self.alloc,
                &mut self.file_1,
                &mut self.store,
                &mut self.log,
                1,
                at,
                piece,
            )
        }
    }

    fn cut(&mut self, file: u8, size: u64) -> Result<(), Failed>
        requires file { file < 2 }
        requires attached { WhereTold self.old.history IsAttached }
        requires within { WhereTold self.old.history (λ h. size ≤ length (reads file h)) }
        ensures told { Tells self.old.history self.new.history (λ was now. (left : Option (List ℕ))
            × (now ≡ then_call was (calls.OnFile file (on.CutTo size left)))
            × Left result left (after_cut (disk file was) size (reads file was))) }
        ensures cause { HasCause counts.Store (faults_of self.old.counters) (faults_of self.new.counters) result }
        ensures stops { Stops self.old.wanted self.new.wanted self.old.history self.new.history }
        ensures listed { is_err result ≡ fails_next self.old.counters.store }
        ensures after { self.new ≡ after_file result self.old self.new }
    {
        if file == 0 {
            cut(
                self.alloc,
                &mut self.file_0,
                &mut self.store,
                &mut self.log,
                0,
                size,
            )
        } else {
            cut(
                self.alloc,
                &mut self.file_1,
                &mut self.store,
                &mut self.log,
                1,
                size,
            )
        }
    }

    fn sync(&mut self, file: u8) -> Result<(), Failed>
        requires file { file < 2 }
        requires attached { WhereTold self.old.history IsAttached }
        ensures told { Tells self.old.history self.new.history (λ was now.
            now ≡ then_call was (calls.OnFile file (on.Synced (is_ok result)))) }
        ensures cause { HasCause counts.Store (faults_of self.old.counters) (faults_of self.new.counters) result }
        ensures stops { Stops self.old.wanted self.new.wanted self.old.history self.new.history }
        ensures listed { is_err result ≡ fails_next self.old.counters.store }
        ensures after { self.new ≡ after_file result self.old self.new }
    {
        if file == 0 {
            sync(&mut self.file_0, &mut self.store, &mut self.log, 0)
        } else {
            sync(&mut self.file_1, &mut self.store, &mut self.log, 1)
        }
    }

    fn now(&mut self) -> u64
        ensures told { Tells self.old.history self.new.history (λ was now. now ≡ then_call was (calls.Told result)) }
        ensures cause { NeverFalls (faults_of self.old.counters) (faults_of self.new.counters) }
        ensures stops { Stops self.old.wanted self.new.wanted self.old.history self.new.history }
        ensures moment { result ≡ moment_at self.old.told self.old.moments }
        ensures after { self.new ≡ record (after_call self.old self.new) { told = next self.old.told } }
    {
        let moment = moment_after(&self.moments, self.told);
        self.told = self.told.saturating_add(1);
        self.log.note(Ok(Call::Told(moment)), false);
        moment
    }

    fn draw(&mut self, purpose: Purpose, room: &mut [u8]) -> Result<(), Failed>
        ensures told { Tells self.old.history self.new.history (λ was now.
            now ≡ then_call was (calls.Drew purpose (filled room.new result))) }
        ensures cause { HasCause counts.Draw (faults_of self.old.counters) (faults_of self.new.counters) result }
        ensures stops { Stops self.old.wanted self.new.wanted self.old.history self.new.history }
        ensures listed { is_err result ≡ fails_next self.old.counters.draw }
        ensures bytes { OnOk result (AreDrawn (draws_for purpose self.old.random) room.new) }
        ensures after { self.new ≡ after_draw purpose (length room.new) result self.old self.new }
    {
        if self.draw.refuses() {
            self.log.note(Ok(Call::Drew(purpose, None)), false);
            return Err(Failed);
        }
        self.random.fill(purpose, room);
        self.log.note(drew(self.alloc, purpose, room), false);
        Ok(())
    }
}

// The line that comes next where so many were opened besides line 0, of so many that were added.
fn line_after(opened: u32, lines: usize) -> Option<u32>
    ensures { result ≡ next_line opened lines }
{
    match opened.checked_add(1) {
        Some(line) if (line as usize) < lines => Some(line),
        _ => None,
    }
}

// The moment that is told after so many. The last one repeats, and without one it is 0.
fn moment_after(moments: &[u64], told: usize) -> u64
    ensures { result ≡ moment_at told moments.now }
{
    let place = told.min(moments.len().saturating_sub(1));
    moments.get(place).copied().unwrap_or(0)
}
