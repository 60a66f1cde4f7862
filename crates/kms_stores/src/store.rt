// What is done to a store.
ghost use Rattle.std.specs.Prelude.{◌≡◌, false};
ghost use Rattle.kms_journal.specs.Commit.{IsFramed};

use crate::answer::Answer;
use crate::record::zeros;
use kms_host::{Host, NameFault, PipeHost};
use kms_journal::{Chain, CreateFault, Journal, JournalFault, create, recover};
use std::rt::HostRuntime;

// The tag of the stores that are made.
const TAG: u64 = 0x0012_3456_789a_bcde;

fn attached(rt: HostRuntime, name: &str) -> Result<PipeHost, Answer> {
    let mut host = PipeHost::new(rt);
    match host.attach(name) {
        Ok(()) => Ok(host),
        Err(NameFault::NoMemory) => Err(Answer::NoMemory),
        Err(NameFault::Failed) => Err(Answer::StoreFault),
    }
}

fn fault_of(fault: JournalFault) -> Answer {
    match fault {
        JournalFault::NoStore => Answer::NoStore,
        JournalFault::StoreFault => Answer::StoreFault,
        JournalFault::Damaged(place, _) => Answer::Damaged(place),
        JournalFault::NoMemory => Answer::NoMemory,
    }
}

/// Creates a store, if there is none.
pub fn make(rt: HostRuntime, name: &str) -> Answer {
    let mut host = match attached(rt, name) {
        Ok(host) => host,
        Err(answer) => return answer,
    };
    match create(&mut host, TAG) {
        Ok(()) => Answer::Made,
        Err(CreateFault::Exists) => Answer::Exists,
        Err(CreateFault::StoreFault) => Answer::StoreFault,
        Err(CreateFault::NoMemory) => Answer::NoMemory,
    }
}

fn commit_each(host: &mut PipeHost, journal: &mut Journal, count: u64, framed: &[u8]) -> Answer
    requires framed { IsFramed framed.now }
    requires working { journal.old.failed ≡ false }
{
    for _ in 0..count {
        if journal.commit(host, framed).is_err() {
            return Answer::StoreFault;
        }
    }
    Answer::Added(count)
}

/// Opens a store and adds records of zeros.
pub fn add(rt: HostRuntime, name: &str, count: u64, length: u16) -> Answer {
    let mut host = match attached(rt, name) {
        Ok(host) => host,
        Err(answer) => return answer,
    };
    let Ok(framed) = zeros(rt.alloc(), length) else {
        return Answer::NoMemory;
    };
    match recover(rt.alloc(), &mut host) {
        Ok(mut journal) => commit_each(&mut host, &mut journal, count, &framed),
        Err(fault) => fault_of(fault),
    }
}

fn counted(chain: &Chain) -> Answer {
    let mut bytes = 0u64;
    for body in chain.bodies.as_slice() {
        bytes = bytes.saturating_add(body.1.as_slice().len() as u64);
    }
    Answer::Found {
        records: chain.bodies.as_slice().len(),
        bytes,
    }
}

/// Opens a store and reads its records.
pub fn open(rt: HostRuntime, name: &str) -> Answer {
    let mut host = match attached(rt, name) {
        Ok(host) => host,
        Err(answer) => return answer,
    };
    let mut journal = match recover(rt.alloc(), &mut host) {
        Ok(journal) => journal,
        Err(fault) => return fault_of(fault),
    };
    match journal.bodies(rt.alloc(), &mut host) {
        Ok(chain) => counted(&chain),
        Err(fault) => fault_of(fault),
    }
}
