// A snapshot that takes the place of a store's records.
ghost use Rattle.std.specs.Prelude.{◌≡◌, ℕ, None, MatchOption, OnOk, OnErr, is_err, false, true};
ghost use Rattle.kms_host.specs.Faults.{HasCause};
ghost use Rattle.kms_host.specs.History.{Tells, WhereTold, Stops};
ghost use Rattle.kms_host.specs.declared.call.Count.TheVariants as counts;
ghost use Rattle.kms_journal.specs.Fault.{Fails};
ghost use Rattle.kms_journal.specs.Position.{IsPlaced};
ghost use Rattle.kms_journal.specs.Standing.{Standing};
ghost use Rattle.kms_store.specs.Due.{IsDue};
ghost use Rattle.kms_store.specs.Checkpoint.{HasFewRecords, IsCountOf, StandsAt, TurnsOver, checkpoint_syncs};

use crate::Tables;
use crate::snapshot::SnapshotWalk;
use kms_host::Host;
use kms_journal::{Journal, StoreFault};

// The snapshot, where the records take more bytes than this and a checkpoint can be made.
fn snapshot_due<'a>(
    tables: &'a Tables,
    steps: u64,
    journal: &Journal,
    limit: u64,
) -> Option<SnapshotWalk<'a>>
    ensures { MatchOption result
        (HasFewRecords limit tables.now.kept steps journal.now)
        (IsDue limit tables.now.kept steps journal.now) }
{
    if journal.records() <= limit || journal.generation() >= 1 << 63 || steps >= 1 << 63 {
        return None;
    }
    SnapshotWalk::of(tables, steps)
}

/// Puts a snapshot of what is kept, after so many steps, in the place of the records, where they take more bytes than this.
/// Nothing is called where the generation or the number of steps is 2^63 or more, or the snapshot has 2^64 bytes or more.
/// It takes no memory.
pub fn checkpoint<H: Host>(
    tables: &Tables,
    steps: u64,
    host: &mut H,
    journal: &mut Journal,
    limit: u64,
) -> Result<(), StoreFault>
    requires working { journal.old.failed ≡ false }
    requires placed { WhereTold (H.history host.old) (λ h. (s : Standing) × IsPlaced journal.old h s) }
    ensures told { Tells (H.history host.old) (H.history host.new) (λ was now. (n : ℕ)
        → StandsAt tables.now.kept journal.old was n → IsCountOf steps n
        → TurnsOver tables.now.kept n (checkpoint_syncs limit journal.old) journal.old journal.new result was now) }
    ensures few { OnOk result (HasFewRecords limit tables.now.kept steps journal.new) }
    ensures working { OnOk result (journal.new.failed ≡ false) }
    ensures fails { OnErr result (journal.new ≡ record journal.old { failed = true; chain = None }) }
    ensures cause { HasCause counts.Store (H.faults host.old) (H.faults host.new) result }
    ensures failed { Tells (H.history host.old) (H.history host.new) (Fails (is_err result)) }
    ensures stops { Stops (H.wanted host.old) (H.wanted host.new) (H.history host.old) (H.history host.new) }
{
    match snapshot_due(tables, steps, journal, limit) {
        Some(mut walk) => journal.turn_over(host, &mut walk),
        None => Ok(()),
    }
}
