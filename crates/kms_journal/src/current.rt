// The current file of a store.
ghost use Rattle.std.specs.Prelude.{◌≡◌, ◌+◌, ◌<◌, ◌≤◌, ◌^◌, length, IfOk, IfSome, is_err};
ghost use Rattle.kms_host.specs.Disk.{reads, files};
ghost use Rattle.kms_host.specs.Faults.{HasCause};
ghost use Rattle.kms_host.specs.History.{Tells, WhereTold, Stops};
ghost use Rattle.kms_host.specs.Moment.{Throughout};
ghost use Rattle.kms_host.specs.Store.{IsAttached};
ghost use Rattle.kms_host.specs.declared.call.Count.TheVariants as counts;
ghost use Rattle.kms_journal.specs.Answers.{Looks};
ghost use Rattle.kms_journal.specs.Current.{IsHead, IsCurrentOf, IsSized, newer_current, Finds};
ghost use Rattle.kms_journal.specs.Fault.{Fails};

use crate::StoreFault;
use crate::header::{Current, HEADER, header_in};
use kms_host::{Failed, Host};

// What a file says of itself, if its first commit mark is set and its header is whole.
fn read_header<H: Host>(host: &mut H, file: u8) -> Result<Option<Current>, Failed>
    requires file { file < 2 }
    requires attached { WhereTold (H.history host.old) IsAttached }
    ensures told { Tells (H.history host.old) (H.history host.new) (λ was now. Finds (IsHead file (reads file was)) result was now) }
    ensures sized { IfOk result (λ found. IfSome found (λ c. IsSized c × (c.header.file ≡ file))) }
    ensures cause { HasCause counts.Store (H.faults host.old) (H.faults host.new) result }
    ensures failed { Tells (H.history host.old) (H.history host.new) (Fails (is_err result)) }
    ensures stops { Stops (H.wanted host.old) (H.wanted host.new) (H.history host.old) (H.history host.new) }
{
    let size = host.len(file)?;
    let mut head = [0; HEADER];
    let _ = host.read_at(file, 0, &mut head)?;
    Ok(header_in(file, size, &head))
}

// The one of the greater generation, and the first where they are equal.
fn newer(first: Option<Current>, second: Option<Current>) -> Option<Current>
    ensures { result ≡ newer_current first second }
{
    match (first, second) {
        (Some(a), Some(b)) if a.header.generation < b.header.generation => Some(b),
        (Some(a), _) => Some(a),
        (None, b) => b,
    }
}

/// The current file, if there is a store.
pub fn find_current<H: Host>(host: &mut H) -> Result<Option<Current>, Failed>
    requires attached { WhereTold (H.history host.old) IsAttached }
    ensures told { Tells (H.history host.old) (H.history host.new) (λ was now. Finds (IsCurrentOf (files was)) result was now) }
    ensures sized { IfOk result (λ found. IfSome found IsSized) }
    ensures cause { HasCause counts.Store (H.faults host.old) (H.faults host.new) result }
    ensures failed { Tells (H.history host.old) (H.history host.new) (Fails (is_err result)) }
    ensures stops { Stops (H.wanted host.old) (H.wanted host.new) (H.history host.old) (H.history host.new) }
{
    let first = read_header(host, 0)?;
    let second = read_header(host, 1)?;
    Ok(newer(first, second))
}

/// Whether there is a store: one of the files has its first commit mark set before a whole header. Changes nothing, and
/// takes no memory. Answers StoreFault exactly where a call on the store's files failed.
pub fn living<H: Host>(host: &mut H) -> Result<bool, StoreFault>
    requires attached { WhereTold (H.history host.old) IsAttached }
    ensures told { Tells (H.history host.old) (H.history host.new) (Looks result) }
    ensures cause { HasCause counts.Store (H.faults host.old) (H.faults host.new) result }
    ensures failed { Tells (H.history host.old) (H.history host.new) (Fails (is_err result)) }
    ensures stops { Stops (H.wanted host.old) (H.wanted host.new) (H.history host.old) (H.history host.new) }
{
    Ok(find_current(host)?.is_some())
}
