// A file of a store that is emptied, to be written anew.
ghost use Rattle.std.specs.Prelude.{◌≡◌, ◌≢◌, ◌⊎◌, ◌<◌, ◌≤◌, MatchBool, is_err};
ghost use Rattle.kms_host.specs.Faults.{HasCause};
ghost use Rattle.kms_host.specs.History.{Tells, WhereTold, Stops};
ghost use Rattle.kms_host.specs.Store.{IsAttached};
ghost use Rattle.kms_host.specs.declared.call.Count.TheVariants as counts;
ghost use Rattle.kms_journal.specs.Emptying.{ClearsFirst, Empties};
ghost use Rattle.kms_journal.specs.Fault.{Fails};

use crate::StoreFault;
use kms_host::Host;

// The first byte of a file is there, and no commit mark that is set.
fn is_clear(count: usize, first: u8) -> bool
    requires { count ≤ 1 }
    ensures { MatchBool result ((count ≡ 1) × (first ≢ 1)) ((count ≡ 0) ⊎ (first ≡ 1)) }
{
    count == 1 && first != 1
}

// Clears the first commit mark of a file, where it is set or where there is none. One that is clear isn't written: a stop
// could leave it set, before a header that another stop left.
fn clear_first<H: Host>(host: &mut H, file: u8) -> Result<(), StoreFault>
    requires file { file < 2 }
    requires attached { WhereTold (H.history host.old) IsAttached }
    ensures told { Tells (H.history host.old) (H.history host.new) (ClearsFirst file result) }
    ensures cause { HasCause counts.Store (H.faults host.old) (H.faults host.new) result }
    ensures failed { Tells (H.history host.old) (H.history host.new) (Fails (is_err result)) }
    ensures stops { Stops (H.wanted host.old) (H.wanted host.new) (H.history host.old) (H.history host.new) }
{
    let mut first = [0];
    let count = host.read_at(file, 0, &mut first)?;
    if is_clear(count, first[0]) {
        return Ok(());
    }
    host.write_at(file, 0, &[0])?;
    Ok(())
}

/// Makes a file one byte, a clear commit mark, and syncs it.
pub fn empty<H: Host>(host: &mut H, file: u8) -> Result<(), StoreFault>
    requires file { file < 2 }
    requires attached { WhereTold (H.history host.old) IsAttached }
    ensures told { Tells (H.history host.old) (H.history host.new) (Empties file result) }
    ensures cause { HasCause counts.Store (H.faults host.old) (H.faults host.new) result }
    ensures failed { Tells (H.history host.old) (H.history host.new) (Fails (is_err result)) }
    ensures stops { Stops (H.wanted host.old) (H.wanted host.new) (H.history host.old) (H.history host.new) }
{
    clear_first(host, file)?;
    host.cut(file, 1)?;
    host.sync(file)?;
    Ok(())
}
