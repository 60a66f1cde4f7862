// Opening the store that is served.
ghost use Rattle.std.specs.Prelude.{◌≡◌, IfOk, IsErrOf};
ghost use Rattle.kms_host.specs.Faults.{NeverFalls, Rose};
ghost use Rattle.kms_host.specs.History.{WhereTold, Stops};
ghost use Rattle.kms_host.specs.Line.{IsOpen};
ghost use Rattle.kms_host.specs.Moment.{Since};
ghost use Rattle.kms_host.specs.Store.{OnlyAttached};
ghost use Rattle.kms_core.specs.Steps.{IsIdle, IsWorking};
ghost use Rattle.kms_serve.specs.Opening.{OpensStore, OpensUnder, IsRefusalStatus, IsStoreRefusal, refusal_of, key_refusal_of};
ghost use Rattle.kms_serve.specs.Turns.{CanServe};

use crate::status::Status;
use kms_core::{Engine, StartFault};
use kms_host::{Host, NameFault};
use kms_ring::Ring;
use kms_sealing::{KeyFileFault, read_key_file};
use std::alloc::Global;

fn refusal(fault: StartFault) -> Status
    ensures { result ≡ refusal_of fault }
{
    match fault {
        StartFault::NoStore => Status::NoStore,
        StartFault::Damaged(place) => Status::Damaged(place),
        StartFault::UnknownMaster(project) => Status::UnknownMaster(project),
        StartFault::DamagedPayload(secret) => Status::DamagedPayload(secret),
        StartFault::StoreFault => Status::StoreFault,
        StartFault::NoMemory => Status::NoMemory,
    }
}

fn key_refusal(fault: KeyFileFault) -> Status
    ensures { result ≡ key_refusal_of fault }
{
    match fault {
        KeyFileFault::Failed => Status::KeyFileFault,
        KeyFileFault::Bad(bad) => Status::BadKeyFile(bad),
        KeyFileFault::NoMemory => Status::NoMemory,
    }
}

// Attaches the store, and opens it under these master keys.
fn open_under<H: Host>(
    alloc: Global,
    store: &str,
    host: &mut H,
    ring: Ring,
) -> Result<Engine, Status>
    requires store { WhereTold (H.history host.old) (λ h. OnlyAttached store.now h.calls) }
    requires line { WhereTold (H.history host.old) (IsOpen 0) }
    ensures opens { Since (H.history host.old) (H.history host.new) (λ was calls. OpensUnder store.now ring result was calls) }
    ensures ready { IfOk result (λ engine. WhereTold (H.history host.new) (CanServe engine)) }
    ensures idle { IfOk result IsIdle }
    ensures working { IfOk result IsWorking }
    ensures later { NeverFalls (H.faults host.old) (H.faults host.new) }
    ensures cause { IsErrOf result Status.StoreFault → Rose (H.faults host.old).store (H.faults host.new).store }
    ensures refusal { IsStoreRefusal result }
    ensures stops { Stops (H.wanted host.old) (H.wanted host.new) (H.history host.old) (H.history host.new) }
{
    match host.attach(store) {
        Ok(()) => {}
        Err(NameFault::Failed) => return Err(Status::StoreFault),
        Err(NameFault::NoMemory) => return Err(Status::NoMemory),
    }
    match Engine::start(alloc, host, ring) {
        Ok(engine) => Ok(engine),
        Err(fault) => Err(refusal(fault)),
    }
}

/// Reads the key file, names the store, and opens it under the master keys. A refusal leaves it what it was.
pub fn open_store<H: Host>(
    alloc: Global,
    key_file: &str,
    store: &str,
    host: &mut H,
) -> Result<Engine, Status>
    requires store { WhereTold (H.history host.old) (λ h. OnlyAttached store.now h.calls) }
    requires line { WhereTold (H.history host.old) (IsOpen 0) }
    ensures opens { Since (H.history host.old) (H.history host.new) (λ was calls. OpensStore key_file.now store.now result was calls) }
    ensures ready { IfOk result (λ engine. WhereTold (H.history host.new) (CanServe engine)) }
    ensures idle { IfOk result IsIdle }
    ensures working { IfOk result IsWorking }
    ensures later { NeverFalls (H.faults host.old) (H.faults host.new) }
    ensures store_cause { IsErrOf result Status.StoreFault → Rose (H.faults host.old).store (H.faults host.new).store }
    ensures key_cause { IsErrOf result Status.KeyFileFault → Rose (H.faults host.old).key_file (H.faults host.new).key_file }
    ensures refusal { IsRefusalStatus result }
    ensures stops { Stops (H.wanted host.old) (H.wanted host.new) (H.history host.old) (H.history host.new) }
{
    match read_key_file(host, key_file) {
        Ok(ring) => open_under(alloc, store, host, ring),
        Err(fault) => Err(key_refusal(fault)),
    }
}
