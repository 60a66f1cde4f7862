// Calls of one kind: how many there were, which of them are to fail, and how many failed.
ghost use Rattle.std.specs.Prelude.{◌≡◌, ◌≤◌, OnOk, OnErr, if◌then◌else◌};
ghost use Rattle.kms_host.specs.Memory.{fails_next, called, listing, fused, uncounted, is_past, next};

use crate::NoMemory;
use std::alloc::Global;
use std::marker::Model;

#[derive(Drop)]
pub struct Counter {
    calls: u64,
    failing: Vec<u64>,
    fuse: Option<u64>,
    faults: u64,
}

impl Model for Counter {
    ghost use Rattle.kms_host.specs.Memory.{Counted};

    ghost Value = { Counted };

    ghost view = { λ c. record { calls = c.calls; failing = c.failing.items; fuse = c.fuse; faults = c.faults } };
}

impl Counter {
    pub fn new(alloc: Global) -> Counter
        ensures { result ≡ uncounted }
    {
        Counter {
            calls: 0,
            failing: Vec::new(alloc),
            fuse: None,
            faults: 0,
        }
    }

    /// Lets the nth call fail, from 1.
    pub fn fail(&mut self, nth: u64) -> Result<(), NoMemory>
        ensures ok { OnOk result (self.new ≡ listing nth self.old) }
        ensures err { OnErr result (self.new ≡ self.old) }
    {
        self.failing.push(nth)?;
        Ok(())
    }

    /// Lets so many calls more pass, and no later one.
    pub fn set_fuse(&mut self, passing: u64)
        ensures after { self.new ≡ fused passing self.old }
        ensures faults { self.new.faults ≡ self.old.faults }
    {
        self.fuse = Some(self.calls.saturating_add(passing));
    }

    /// Counts a call, and says whether it is to fail. One that is to fail is counted as a fault too.
    pub fn refuses(&mut self) -> bool
        ensures listed { result ≡ fails_next self.old }
        ensures after { self.new ≡ called result self.old }
        ensures later { self.old.faults ≤ self.new.faults }
    {
        self.calls = self.calls.saturating_add(1);
        let refused = is_past(self.calls, self.fuse) || self.failing.contains(&self.calls);
        if refused {
            self.faults = self.faults.saturating_add(1);
        }
        refused
    }

    /// Counts a fault of the call that was counted last.
    pub fn count_fault(&mut self)
        ensures after { self.new ≡ record self.old { faults = next self.old.faults } }
        ensures later { self.old.faults ≤ self.new.faults }
    {
        self.faults = self.faults.saturating_add(1);
    }
}

/// Counts a fault of the call that was counted last, but where it was counted as one already.
pub fn count_fault(counter: &mut Counter, counted: bool)
    ensures after { counter.new ≡ (if counted then counter.old else record counter.old { faults = next counter.old.faults }) }
    ensures later { counter.old.faults ≤ counter.new.faults }
{
    if !counted {
        counter.count_fault();
    }
}

// A call of this number comes after the last one that passes.
fn is_past(call: u64, fuse: Option<u64>) -> bool
    ensures { result ≡ is_past call fuse }
{
    match fuse {
        None => false,
        Some(last) => last < call,
    }
}
