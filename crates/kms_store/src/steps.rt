// How many steps records have.
ghost use Rattle.std.specs.Prelude.{◌≡◌, ℕ, ◌+◌, length, List};
ghost use Rattle.kms_record.specs.declared.change.Change.{Change};
ghost use Rattle.kms_record.specs.Grammar.{IsRecord};
ghost use Rattle.kms_store.specs.Checkpoint.{IsCountOf};
ghost use Rattle.kms_store.specs.Stands.{HaveSteps};

use kms_host::Bytes;

// The number of a record's steps, which stands in its first four bytes.
fn steps_of(bytes: &[u8]) -> u32
    ensures { (steps : List (List Change)) → IsRecord bytes.now steps → result ≡ length steps }
{
    match bytes.first_chunk::<4>() {
        Some(first) => u32::from_be_bytes(*first),
        None => 0,
    }
}

/// So many steps and those of the records, 2^64 - 1 at most.
pub fn steps_after(first: u64, bodies: &[(u64, Bytes)]) -> u64
    ensures { (n : ℕ) → HaveSteps bodies.now n → IsCountOf result (first + n) }
{
    let mut steps = first;
    for (_, bytes) in bodies {
        steps = steps.saturating_add(steps_of(bytes.as_slice()) as u64);
    }
    steps
}
