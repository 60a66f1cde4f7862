// Writes and cuts that are on the disk when they are done.
ghost use Rattle.std.specs.Prelude.{◌+◌, ◌^◌, ◌<◌, length, OnOk, is_err};
ghost use Rattle.kms_host.specs.Faults.{HasCause};
ghost use Rattle.kms_host.specs.History.{Tells, WhereTold, Stops};
ghost use Rattle.kms_host.specs.declared.call.Count.TheVariants as counts;
ghost use Rattle.kms_journal.specs.Device.{HasPlace, WritesThrough, CutsThrough};
ghost use Rattle.kms_journal.specs.Fault.{Fails};

use crate::StoreFault;
use kms_host::Host;

/// Writes a piece at a place of a file, over what is there and past its end, and syncs it.
pub fn write_through<H: Host>(
    host: &mut H,
    file: u8,
    at: u64,
    piece: &[u8],
) -> Result<(), StoreFault>
    requires file { file < 2 }
    requires place { WhereTold (H.history host.old) (HasPlace file at) }
    ensures told { Tells (H.history host.old) (H.history host.new) (WritesThrough file at piece.now result) }
    ensures bound { OnOk result (at + length piece.now < 2 ^ 62) }
    ensures cause { HasCause counts.Store (H.faults host.old) (H.faults host.new) result }
    ensures failed { Tells (H.history host.old) (H.history host.new) (Fails (is_err result)) }
    ensures stops { Stops (H.wanted host.old) (H.wanted host.new) (H.history host.old) (H.history host.new) }
{
    host.write_at(file, at, piece)?;
    host.sync(file)?;
    Ok(())
}

/// Cuts a file to a length in bytes, and syncs it.
pub fn cut_through<H: Host>(host: &mut H, file: u8, size: u64) -> Result<(), StoreFault>
    requires file { file < 2 }
    requires place { WhereTold (H.history host.old) (HasPlace file size) }
    ensures told { Tells (H.history host.old) (H.history host.new) (CutsThrough file size result) }
    ensures cause { HasCause counts.Store (H.faults host.old) (H.faults host.new) result }
    ensures failed { Tells (H.history host.old) (H.history host.new) (Fails (is_err result)) }
    ensures stops { Stops (H.wanted host.old) (H.wanted host.new) (H.history host.old) (H.history host.new) }
{
    host.cut(file, size)?;
    host.sync(file)?;
    Ok(())
}
