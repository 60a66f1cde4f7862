// An engine over a store.
ghost use Rattle.std.specs.Prelude.{◌≡◌, IfOk, false};
ghost use Rattle.kms_host.specs.History.{Tells, WhereTold, Stops};
ghost use Rattle.kms_host.specs.Store.{IsAttached};
ghost use Rattle.kms_journal.specs.Device.{HasStoreCause};
ghost use Rattle.kms_journal.specs.Fault.{Fails};
ghost use Rattle.kms_kept.specs.Sound.{IsSound};
ghost use Rattle.kms_store.specs.Staged.{nothing_staged};
ghost use Rattle.kms_core.specs.Refusing.{Refuses, fault_of, start_fault};
ghost use Rattle.kms_core.specs.Starting.{Starts, LoadsStore, OpensJournal, is_failed_start};
ghost use Rattle.kms_core.specs.Steps.{IsIdle, IsWorking};
ghost use Rattle.kms_core.specs.declared.start_fault.StartFault.TheVariants as faults;

use crate::{Engine, StartFault};
use kms_host::Host;
use kms_journal::{Chain, Journal, JournalFault, Place, recover};
use kms_ring::Ring;
use kms_sealing::{OpeningFault, ProjectKeys};
use kms_store::{LoadFault, Store, Tables, load};
use kms_world::Id;
use std::alloc::Global;

// What a fault of loading this chain means for the engine.
fn fault_of(chain: &Chain, fault: LoadFault) -> StartFault
    ensures { result ≡ fault_of chain.now fault }
{
    match fault {
        LoadFault::Damaged(at) => StartFault::Damaged(Place::Body {
            file: chain.file,
            at,
        }),
        LoadFault::NoMemory => StartFault::NoMemory,
    }
}

// The first damage of a chain that stops at this place and isn't whole: a record before it may be broken already.
fn first_damage(alloc: Global, chain: &Chain, place: Place) -> StartFault
    ensures { Refuses (JournalFault.Damaged place chain.now) result }
{
    let Place::Body { at, .. } = place;
    match load(alloc, chain) {
        Ok(_) => fault_of(chain, LoadFault::Damaged(at)),
        Err(fault) => fault_of(chain, fault),
    }
}

// What the journal's fault means for the engine.
fn refusal(alloc: Global, fault: JournalFault) -> StartFault
    ensures { Refuses fault result }
{
    match fault {
        JournalFault::NoStore => StartFault::NoStore,
        JournalFault::StoreFault => StartFault::StoreFault,
        JournalFault::NoMemory => StartFault::NoMemory,
        JournalFault::Damaged(place, chain) => first_damage(alloc, &chain, place),
    }
}

fn open<H: Host>(alloc: Global, host: &mut H) -> Result<Journal, StartFault>
    requires { WhereTold (H.history host.old) IsAttached }
    ensures told { Tells (H.history host.old) (H.history host.new) (OpensJournal result) }
    ensures working { IfOk result (λ journal. journal.failed ≡ false) }
    ensures cause { HasStoreCause faults.StoreFault (H.faults host.old) (H.faults host.new) result }
    ensures failed { Tells (H.history host.old) (H.history host.new) (Fails (is_failed_start result)) }
    ensures stops { Stops (H.wanted host.old) (H.wanted host.new) (H.history host.old) (H.history host.new) }
{
    match recover(alloc, host) {
        Ok(journal) => Ok(journal),
        Err(fault) => Err(refusal(alloc, fault)),
    }
}

// What a fault of opening what is kept means for the engine.
fn closed(fault: OpeningFault) -> StartFault
    ensures { result ≡ start_fault fault }
{
    match fault {
        OpeningFault::UnknownMaster(project) => StartFault::UnknownMaster(project),
        OpeningFault::Damaged(secret) => StartFault::DamagedPayload(secret),
        OpeningFault::NoMemory => StartFault::NoMemory,
    }
}

// The attached store, from its records, and its journal.
fn load_store<H: Host>(alloc: Global, host: &mut H) -> Result<(Journal, Store), StartFault>
    requires { WhereTold (H.history host.old) IsAttached }
    ensures told { Tells (H.history host.old) (H.history host.new) (LoadsStore result) }
    ensures working { IfOk result (λ loaded. loaded.0.failed ≡ false) }
    ensures nothing { IfOk result (λ loaded. loaded.1.staging ≡ nothing_staged) }
    ensures cause { HasStoreCause faults.StoreFault (H.faults host.old) (H.faults host.new) result }
    ensures failed { Tells (H.history host.old) (H.history host.new) (Fails (is_failed_start result)) }
    ensures stops { Stops (H.wanted host.old) (H.wanted host.new) (H.history host.old) (H.history host.new) }
{
    let mut journal = open(alloc, host)?;
    let chain = match journal.bodies(alloc, host) {
        Ok(chain) => chain,
        Err(fault) => return Err(refusal(alloc, fault)),
    };
    match Store::load(alloc, &chain) {
        Ok(store) => Ok((journal, store)),
        Err(fault) => Err(fault_of(&chain, fault)),
    }
}

// What tables keep is sound: each look-up says so.
fn look_up(tables: &Tables)
    ensures { IsSound tables.now.kept }
{
    let _ = tables.secret(Id(0));
}

impl Engine {
    /// Opens the attached store, reads its records in their order, and opens what they keep under the master keys: the engine has
    /// the state for which the store stands.
    ///
    /// Answers NoStore exactly where there is none, and Damaged with the first place at which the store is damaged, where
    /// it is; then UnknownMaster with the first project, by its bytes, of which a key doesn't open, and DamagedPayload with the
    /// first secret, by creation, whose payload doesn't. Whatever it answers, and wherever that stops, the store stands for what it
    /// did, if nothing was pending on its files.
    pub fn start<H: Host>(alloc: Global, host: &mut H, ring: Ring) -> Result<Engine, StartFault>
        requires { WhereTold (H.history host.old) IsAttached }
        ensures told { Tells (H.history host.old) (H.history host.new) (Starts ring result) }
        ensures masters { IfOk result (λ engine. engine.masters ≡ ring) }
        ensures idle { IfOk result IsIdle }
        ensures working { IfOk result IsWorking }
        ensures cause { HasStoreCause faults.StoreFault (H.faults host.old) (H.faults host.new) result }
        ensures failed { Tells (H.history host.old) (H.history host.new) (Fails (is_failed_start result)) }
        ensures stops { Stops (H.wanted host.old) (H.wanted host.new) (H.history host.old) (H.history host.new) }
    {
        let (journal, store) = load_store(alloc, host)?;
        look_up(store.rows());
        match ProjectKeys::open(alloc, ring, store.rows()) {
            Ok(keys) => Ok(Engine {
                alloc,
                store,
                journal,
                keys,
            }),
            Err(fault) => Err(closed(fault)),
        }
    }
}
