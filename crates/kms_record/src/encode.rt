// Steps to bytes.
ghost use Rattle.std.specs.Prelude.{◌≡◌, ◌≤◌, ◌^◌, ◌<◌, ◌++◌, length, OnOk, OnErr};
ghost use Rattle.std.specs.List.{flat_map, AllByRecursion};
ghost use Rattle.kms_record.specs.Grammar.{change_bytes, step_bytes, IsChange, IsChangeInRange, IsStep, IsStepInRange};
ghost use Rattle.kms_record.specs.Window.{shown};

use crate::window::Window;
use crate::{Change, Step};
use kms_world::{Bytes, NoMemory};

// How many bytes the change is spelled with.
fn change_len(change: &Change) -> usize
    requires { IsChangeInRange change.now }
    ensures len { result ≡ length (change_bytes change.now) }
    ensures admitted { IsChange change.now }
{
    let mut window = Window::after(usize::MAX);
    change.write(&mut window);
    usize::MAX - window.unseen()
}

// The spelling goes out a window at a time.
fn put_change(out: &mut Bytes, change: &Change) -> Result<(), NoMemory>
    requires { IsChangeInRange change.now }
    ensures spelled { OnOk result (out.new ≡ out.old ++ change_bytes change.now) }
    ensures admitted { OnOk result (IsChange change.now) }
{
    let len = change_len(change);
    let mut from = 0;
    while from < len {
        let mut window = Window::after(from);
        change.write(&mut window);
        let piece = window.as_slice();
        out.push_all(piece)?;
        from += piece.len();
    }
    Ok(())
}

fn put_changes(out: &mut Bytes, changes: &[Change]) -> Result<(), NoMemory>
    requires { AllByRecursion IsChangeInRange changes.now }
    ensures spelled { OnOk result (out.new ≡ out.old ++ flat_map change_bytes changes.now) }
    ensures admitted { OnOk result (AllByRecursion IsChange changes.now) }
{
    for change in changes {
        put_change(out, change)?;
    }
    Ok(())
}

/// Puts the one spelling of a step after the bytes. The step has 1 to 65,535 changes whose numbers and lengths are in
/// their ranges. After `NoMemory` the bytes are as before.
#[tactic(auto, unfolding(crate::specs::Fields::u16_bytes))]
pub fn encode_step(step: &Step, out: &mut Bytes) -> Result<(), NoMemory>
    requires { IsStepInRange step.now }
    ensures ok { OnOk result (out.new ≡ out.old ++ step_bytes step.now) }
    ensures admitted { OnOk result (IsStep step.now) }
    ensures err { OnErr result (out.new ≡ out.old) }
{
    let changes = step.as_slice();
    let mut spelled = Bytes::new(step.allocator());
    spelled.push_all(&(changes.len() as u16).to_be_bytes())?;
    put_changes(&mut spelled, changes)?;
    out.push_all(spelled.as_slice())
}
