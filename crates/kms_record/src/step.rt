// Steps, and the steps of a record.
ghost use Rattle.std.specs.Prelude.{◌≡◌, ◌++◌, [], ◌∷◌, ◌↔◌, IsTrue, OnOk, OnErr};
ghost use Rattle.std.specs.List.{AllByRecursion};
ghost use Rattle.kms_record.specs.Grammar.{IsChangeInRange, IsStepInRange};

use crate::Change;
use kms_world::NoMemory;
use std::alloc::Global;
use std::marker::Model;

/// The changes of one step, in the order in which they apply. Contracts see the list.
#[derive(Drop, Debug)]
pub struct Step {
    changes: Vec<Change>,
}

impl Model for Step {
    ghost use Rattle.std.specs.Prelude.{List};
    ghost use Rattle.kms_record.specs.declared.change.Change.{Change};

    ghost Value = { List Change };

    ghost view = { λ s. s.changes.items };
}

fn is_each_in_range(changes: &[Change]) -> bool
    ensures { IsTrue result ↔ AllByRecursion IsChangeInRange changes.now }
{
    for change in changes {
        if !change.is_in_range() {
            return false;
        }
    }
    true
}

impl Step {
    /// No changes; takes no memory.
    pub fn new(alloc: Global) -> Step
        ensures { result ≡ [] }
    {
        Step {
            changes: Vec::new(alloc),
        }
    }

    /// Puts a change after the others. After `NoMemory` they are as before.
    pub fn push(&mut self, change: Change) -> Result<(), NoMemory>
        ensures ok { OnOk result (self.new ≡ self.old ++ change ∷ []) }
        ensures err { OnErr result (self.new ≡ self.old) }
    {
        self.changes.push(change)?;
        Ok(())
    }

    /// The changes in their order.
    pub fn as_slice(&self) -> &[Change]
        ensures { result.now ≡ self.now }
    {
        &self.changes
    }

    /// It has 1 to 65,535 changes, whose numbers and lengths are in their ranges.
    pub fn is_in_range(&self) -> bool
        ensures { IsTrue result ↔ IsStepInRange self.now }
    {
        1 <= self.changes.len() && self.changes.len() <= 65_535 && is_each_in_range(&self.changes)
    }

    /// The changes, with the memory that they have.
    pub fn into_vec(self) -> Vec<Change>
        ensures { result.items ≡ self }
    {
        self.changes
    }

    // Where the list has its memory from.
    pub(crate) fn allocator(&self) -> Global {
        *self.changes.allocator()
    }
}

/// The steps of a record, in their order. Contracts see the list of lists of changes.
#[derive(Drop, Debug)]
pub struct Steps {
    steps: Vec<Step>,
}

impl Model for Steps {
    ghost use Rattle.std.specs.Prelude.{List};
    ghost use Rattle.kms_record.specs.declared.change.Change.{Change};

    ghost Value = { List (List Change) };

    ghost view = { λ s. s.steps.items };
}

impl Steps {
    /// No steps; takes no memory.
    pub fn new(alloc: Global) -> Steps
        ensures { result ≡ [] }
    {
        Steps {
            steps: Vec::new(alloc),
        }
    }

    /// Puts a step after the others. After `NoMemory` they are as before.
    pub fn push(&mut self, step: Step) -> Result<(), NoMemory>
        ensures ok { OnOk result (self.new ≡ self.old ++ step ∷ []) }
        ensures err { OnErr result (self.new ≡ self.old) }
    {
        self.steps.push(step)?;
        Ok(())
    }

    /// The steps in their order.
    pub fn as_slice(&self) -> &[Step]
        ensures { result.now ≡ self.now }
    {
        &self.steps
    }
    /// The steps, with the memory that they have.
    pub fn into_vec(self) -> Vec<Step>
        ensures { result.items ≡ self }
    {
        self.steps
    }
}
