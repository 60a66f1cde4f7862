//! What holds of every store that is written, stopped and opened again.
ghost use Rattle.kms_journal.specs.Lasting.{IsAcknowledgedFound, IsKeptByTheNext, IsOpeningStopped, IsCheckpointFound, IsCheckpointStopped};

/// Whatever a stop leaves after a commit that was acknowledged, up to the next call that writes, cuts or syncs, opening
/// finds the store with that record more.
pub fn what_was_acknowledged_is_found()
    ensures { IsAcknowledgedFound }
{}

/// Whatever a stop leaves in the midst of the next commit, opening finds it too.
pub fn what_was_acknowledged_is_kept()
    ensures { IsKeptByTheNext }
{}

/// Whatever a stop leaves while a store is opened, opening it anew finds what it stood for before.
pub fn opening_may_be_stopped()
    ensures { IsOpeningStopped }
{}

/// Whatever a stop leaves after a checkpoint that was acknowledged, up to the next call that writes, cuts or syncs, opening
/// finds its snapshot and no records.
pub fn what_a_checkpoint_kept_is_found()
    ensures { IsCheckpointFound }
{}

/// Whatever a stop leaves in the midst of a checkpoint, opening finds the store as it was before, or the snapshot and no
/// records.
pub fn checkpoint_may_be_stopped()
    ensures { IsCheckpointStopped }
{}
