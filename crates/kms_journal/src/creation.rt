// Creating a store.
ghost use Rattle.std.specs.Prelude.{◌≢◌, ◌<◌, ◌^◌, Err};
ghost use Rattle.kms_host.specs.History.{Tells, WhereTold, Stops};
ghost use Rattle.kms_host.specs.Store.{IsAttached};
ghost use Rattle.kms_journal.specs.Create.{Creates};
ghost use Rattle.kms_journal.specs.Device.{HasStoreCause};
ghost use Rattle.kms_journal.specs.declared.fault.CreateFault.TheVariants as faults;
ghost use Rattle.kms_journal.specs.Fault.{Fails, is_failed_creation};

use crate::CreateFault;
use crate::current::find_current;
use crate::header::Header;
use crate::pieces::AtHand;
use crate::renewal::renew;
use kms_host::Host;

/// Creates a store in file 0, of generation 1, with this tag for its ids, a snapshot of nothing, and no records. Takes no
/// memory.
///
/// The file is made one clear commit mark and synced, what stands after it is written and synced, and then the mark is
/// set by a write of its own and synced. Wherever that stops, there is no store or the fresh one. Answers Exists exactly
/// where there is a store already, and changes nothing then, and StoreFault exactly where a call on the store's files
/// failed.
pub fn create<H: Host>(host: &mut H, tag: u64) -> Result<(), CreateFault>
    requires tag { tag < 2 ^ 60 }
    requires attached { WhereTold (H.history host.old) IsAttached }
    ensures told { Tells (H.history host.old) (H.history host.new) (Creates tag result) }
    ensures memory { result ≢ Err faults.NoMemory }
    ensures cause { HasStoreCause faults.StoreFault (H.faults host.old) (H.faults host.new) result }
    ensures failed { Tells (H.history host.old) (H.history host.new) (Fails (is_failed_creation result)) }
    ensures stops { Stops (H.wanted host.old) (H.wanted host.new) (H.history host.old) (H.history host.new) }
{
    if find_current(host)?.is_some() {
        return Err(CreateFault::Exists);
    }
    let header = Header {
        file: 0,
        generation: 1,
        tag,
        ids: 0,
        steps: 0,
        snapshot: 8,
    };
    let none = [0; 8];
    let mut snapshot = AtHand {
        ids: 0,
        steps: 0,
        bytes: &none,
        rest: &none,
    };
    renew(host, &header, &mut snapshot, &mut [0; 8])?;
    Ok(())
}
