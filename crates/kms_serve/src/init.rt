// Making a store: the command `init`.
ghost use Rattle.std.specs.Prelude.{◌≡◌, ◌<◌, ◌^◌, IfOk};
ghost use Rattle.kms_host.specs.Faults.{HasCause, NeverFalls, Rose};
ghost use Rattle.kms_host.specs.History.{Tells, WhereTold, Stops};
ghost use Rattle.kms_host.specs.Moment.{Since};
ghost use Rattle.kms_host.specs.Store.{OnlyAttached};
ghost use Rattle.kms_host.specs.declared.call.Count.TheVariants as counts;
ghost use Rattle.kms_serve.specs.Init.{DrawsTag, Inits, IsInitDone, IsInitStatus, tag_of};
ghost use Rattle.kms_serve.specs.Init as spec;

use crate::status::Status;
use kms_host::{Failed, Host, NameFault, Purpose};
use kms_journal::{CreateFault, create, living};

// The first 60 of 64 random bits.
fn tag_of(bytes: [u8; 8]) -> u64
    ensures value { result ≡ tag_of bytes }
    ensures fits { result < 2 ^ 60 }
{
    u64::from_be_bytes(bytes) >> 4
}

// Draws the tag of a new store.
fn draw_tag<H: Host>(host: &mut H) -> Result<u64, Failed>
    ensures told { Tells (H.history host.old) (H.history host.new) (DrawsTag result) }
    ensures fits { IfOk result (λ tag. tag < 2 ^ 60) }
    ensures cause { HasCause counts.Draw (H.faults host.old) (H.faults host.new) result }
    ensures stops { Stops (H.wanted host.old) (H.wanted host.new) (H.history host.old) (H.history host.new) }
{
    let mut bytes = [0; 8];
    host.draw(Purpose::Tag, &mut bytes)?;
    Ok(tag_of(bytes))
}

fn naming_status(fault: NameFault) -> Status
    ensures { result ≡ spec.naming_status fault }
{
    match fault {
        NameFault::Failed => Status::StoreFault,
        NameFault::NoMemory => Status::NoMemory,
    }
}

fn creation_status(created: Result<(), CreateFault>) -> Status
    ensures { result ≡ spec.creation_status created }
{
    match created {
        Ok(()) => Status::Done,
        Err(CreateFault::Exists) => Status::StoreExists,
        Err(CreateFault::StoreFault) => Status::StoreFault,
        Err(CreateFault::NoMemory) => Status::NoMemory,
    }
}

/// Makes the store of this name: where there is none, draws a tag for its ids and creates a fresh store of it.
///
/// Wherever that stops, there is what there was before, or the fresh store of the tag that was drawn. Nothing is taken or
/// sent. Answers StoreExists exactly where there is a store already, which is then left as it is, unless a call on the
/// store failed or it was out of memory before that was known; StoreFault and DrawFault only where such a call failed;
/// and otherwise Done, or NoMemory.
pub(crate) fn init_store<H: Host>(store: &str, host: &mut H) -> Status
    requires { WhereTold (H.history host.old) (λ h. OnlyAttached store.now h.calls) }

    // What was done by each moment, and what the status says of it.
    ensures made { Since (H.history host.old) (H.history host.new) (Inits store.now result) }

    // A fault is answered only where its count rose. Where neither did, there is a store now, or it was out of memory.
    ensures ends { IsInitStatus result }
    ensures later { NeverFalls (H.faults host.old) (H.faults host.new) }
    ensures store_fault { result ≡ Status.StoreFault → Rose (H.faults host.old).store (H.faults host.new).store }
    ensures draw_fault { result ≡ Status.DrawFault → Rose (H.faults host.old).draw (H.faults host.new).draw }
    ensures complete { (Rose (H.faults host.old).store (H.faults host.new).store → ⊥) → (Rose (H.faults host.old).draw (H.faults host.new).draw → ⊥) → IsInitDone result }
    ensures stops { Stops (H.wanted host.old) (H.wanted host.new) (H.history host.old) (H.history host.new) }
{
    match host.attach(store) {
        Ok(()) => {}
        Err(fault) => return naming_status(fault),
    }
    let Ok(found) = living(host) else {
        return Status::StoreFault;
    };
    if found {
        return Status::StoreExists;
    }
    let Ok(tag) = draw_tag(host) else {
        return Status::DrawFault;
    };
    creation_status(create(host, tag))
}
