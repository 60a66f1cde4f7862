// A store that is settled over a host in memory, and stopped at each call.
ghost use Rattle.std.specs.Prelude.{◌≡◌, ◌<◌, ◌≤◌, ◌+◌, length, sum_by, IfOk, IfSome, true, false, is_some};
ghost use Rattle.kms_host.specs.History.{WhereTold};
ghost use Rattle.kms_host.specs.Store.{IsAttached};
ghost use Rattle.kms_record.specs.Grammar.{IsStepInRange};
ghost use Rattle.kms_record.specs.Size.{most_bytes};
ghost use Rattle.kms_kept.specs.Kept.{after_step};
ghost use Rattle.kms_store.specs.Staged.{nothing_staged};
ghost use Rattle.kms_journal.specs.Position.{IsPlaced};
ghost use Rattle.kms_journal.specs.Standing.{Standing};

use crate::tests::TAG;
use crate::tests::loading::found;
use crate::{Part, Store};
use kms_host::{Bytes, Host, MemoryHost, NoMemory, Pick};
use kms_journal::{Chain, CreateFault, Journal, create, recover};
use kms_record::{Change, SecretPut, Step};
use kms_world::{Name, SecretKind};
use std::alloc::Global;
use std::rt::HostRuntime;
use std::test::Fail;

// 1985-10-26T08:20:00Z
const MOMENT: u64 = 499_162_800;

static PICKS: [Pick; 5] = [
    Pick::Kept,
    Pick::Lost,
    Pick::Torn(0),
    Pick::Torn(1),
    Pick::Torn(0x55),
];

// A host with these two files, attached.
fn attached(alloc: Global, files: [Bytes; 2]) -> Result<MemoryHost, NoMemory>
    ensures { IfOk result (λ m. WhereTold (⟦<MemoryHost as Host>⟧.history m) IsAttached) }
{
    let mut host = MemoryHost::restart(alloc, files)?;
    match host.attach("s") {
        Ok(()) => Ok(host),
        Err(_) => Err(NoMemory),
    }
}

// Creates a store. It stays attached.
fn creates<H: Host>(host: &mut H) -> Result<(), CreateFault>
    requires { WhereTold (H.history host.old) IsAttached }
    ensures { WhereTold (H.history host.new) IsAttached }
{
    create(host, TAG)
}

fn opens<H: Host>(alloc: Global, host: &mut H) -> Result<Journal, NoMemory>
    requires { WhereTold (H.history host.old) IsAttached }
    ensures placed { IfOk result (λ j. WhereTold (H.history host.new) (λ h. (s : Standing) × IsPlaced j h s)) }
    ensures working { IfOk result (λ j. j.failed ≡ false) }
{
    match recover(alloc, host) {
        Ok(journal) => Ok(journal),
        Err(_) => Err(NoMemory),
    }
}

fn step_of(alloc: Global, put: SecretPut) -> Result<Step, NoMemory>
    ensures { IfOk result (λ step. sum_by most_bytes step ≤ 1000) }
{
    let mut step = Step::new(alloc);
    match step.push(Change::SecretPut(put)) {
        Ok(()) => Ok(step),
        Err(_) => Err(NoMemory),
    }
}

// The step that puts a secret under the id of this count.
fn posting(alloc: Global, id: u64) -> Result<Step, NoMemory>
    ensures { IfOk result (λ step. sum_by most_bytes step ≤ 1000) }
{
    match Name::read(b"p1") {
        Some(name) => step_of(
            alloc,
            SecretPut {
                id,
                project: name,
                creator: name,
                created: MOMENT,
                updated: MOMENT,
                name: None,
                algorithm: None,
                bit_length: None,
                mode: None,
                kind: SecretKind::Opaque,
                expiration: None,
            },
        ),
        None => Err(NoMemory),
    }
}

// Whether the step has one change, in range, which applies.
fn applies(store: &Store, step: &Step) -> bool
    ensures range { result ≡ true → IsStepInRange step.now }
    ensures applies { result ≡ true → is_some (after_step step.now store.now.kept) ≡ true }
{
    match step.as_slice() {
        [change] => step.is_in_range() && store.rows().applies(Part::Records, change),
        _ => false,
    }
}

// Stages a step that applies.
fn takes(store: &mut Store, step: Step) -> bool
    requires few { length store.old.staging.steps < 10000 }
    requires short { sum_by most_bytes step ≤ 1000 }
    requires range { IsStepInRange step }
    requires applies { is_some (after_step step store.old.kept) ≡ true }
    ensures { length store.new.staging.steps ≤ length store.old.staging.steps + 1002 }
{
    match store.reserve_step(step) {
        Ok(ready) => {
            store.stage(ready);
            true
        }
        Err(_) => false,
    }
}

// Stages a step, where it applies.
fn stages(store: &mut Store, step: Step) -> bool
    requires few { length store.old.staging.steps < 10000 }
    requires short { sum_by most_bytes step ≤ 1000 }
    ensures { length store.new.staging.steps ≤ length store.old.staging.steps + 1002 }
{
    if applies(store, &step) {
        takes(store, step)
    } else {
        false
    }
}

// Stages a secret under the id of this count.
fn stages_one(alloc: Global, store: &mut Store, id: u64) -> bool
    requires { length store.old.staging.steps < 10000 }
    ensures { length store.new.staging.steps ≤ length store.old.staging.steps + 1002 }
{
    match posting(alloc, id) {
        Ok(step) => stages(store, step),
        Err(NoMemory) => false,
    }
}

// Stages two secrets under the ids from this count on, each by a step of its own.
fn stages_two(alloc: Global, store: &mut Store, first: u8) -> bool
    requires { store.old.staging ≡ nothing_staged }
{
    stages_one(alloc, store, first as u64)
        && stages_one(alloc, store, first as u64 + 1)
        && store.staged() == 2
}

// Settles the staged steps, where no limit is given with the public call, else within a number of bytes of records.
fn settles<H: Host>(
    store: &mut Store,
    host: &mut H,
    journal: &mut Journal,
    limit: Option<u64>,
) -> bool
    requires working { journal.old.failed ≡ false }
    requires placed { WhereTold (H.history host.old) (λ h. (s : Standing) × IsPlaced journal.old h s) }
{
    match limit {
        Some(limit) => store.settle_within(host, journal, limit).is_ok(),
        None => store.settle(host, journal).is_ok(),
    }
}

// How a store is settled: two secrets more from this count on, within a number of bytes of records where one is given, while
// so many calls on its files pass.
#[derive(Clone, Copy)]
struct Settling {
    first: u8,
    limit: Option<u64>,
    passing: u64,
}

// A store settles so. None where the steps aren't staged.
fn settles_while(
    alloc: Global,
    store: &mut Store,
    host: &mut MemoryHost,
    journal: &mut Journal,
    how: Settling,
) -> Option<bool>
    requires idle { store.old.staging ≡ nothing_staged }
    requires working { journal.old.failed ≡ false }
    requires placed { WhereTold (⟦<MemoryHost as Host>⟧.history host.old) (λ h. (s : Standing) × IsPlaced journal.old h s) }
{
    if stages_two(alloc, store, how.first) {
        host.fuse(how.passing);
        Some(settles(store, host, journal, how.limit))
    } else {
        None
    }
}

// The store of this chain settles so.
fn settles_of(
    alloc: Global,
    host: &mut MemoryHost,
    journal: &mut Journal,
    chain: &Chain,
    how: Settling,
) -> Option<bool>
    requires working { journal.old.failed ≡ false }
    requires placed { WhereTold (⟦<MemoryHost as Host>⟧.history host.old) (λ h. (s : Standing) × IsPlaced journal.old h s) }
{
    match Store::load(alloc, chain) {
        Ok(mut store) => settles_while(alloc, &mut store, host, journal, how),
        Err(_) => None,
    }
}

// The same of the store of an attached host, which has this chain.
fn settles_over(alloc: Global, host: &mut MemoryHost, chain: &Chain, how: Settling) -> Option<bool>
    requires { WhereTold (⟦<MemoryHost as Host>⟧.history host.old) IsAttached }
{
    match opens(alloc, host) {
        Ok(mut journal) => settles_of(alloc, host, &mut journal, chain, how),
        Err(NoMemory) => None,
    }
}

// What a store has: the generation of its file, how many bytes its records take, and its chain.
#[derive(Drop)]
struct Read {
    generation: u64,
    records: u64,
    chain: Chain,
}

fn reads_through<H: Host>(alloc: Global, host: &mut H, journal: &mut Journal) -> Option<Read>
    requires { WhereTold (H.history host.old) (λ h. (s : Standing) × IsPlaced journal.old h s) }
    ensures { WhereTold (H.history host.new) IsAttached }
{
    let generation = journal.generation();
    let records = journal.records();
    match journal.bodies(alloc, host) {
        Ok(chain) => Some(Read {
            generation,
            records,
            chain,
        }),
        Err(_) => None,
    }
}

// What the store of an attached host has. It stays attached.
fn reads<H: Host>(alloc: Global, host: &mut H) -> Option<Read>
    requires { WhereTold (H.history host.old) IsAttached }
    ensures { IfSome result (λ _. WhereTold (H.history host.new) IsAttached) }
{
    match opens(alloc, host) {
        Ok(mut journal) => reads_through(alloc, host, &mut journal),
        Err(NoMemory) => None,
    }
}

// The store of an attached host settles so.
fn settles_on(alloc: Global, host: &mut MemoryHost, how: Settling) -> Option<bool>
    requires { WhereTold (⟦<MemoryHost as Host>⟧.history host.old) IsAttached }
{
    match reads(alloc, host) {
        Some(read) => settles_over(alloc, host, &read.chain, how),
        None => None,
    }
}

// A host whose files are empty.
fn empty(alloc: Global) -> Result<MemoryHost, NoMemory>
    ensures { IfOk result (λ m. WhereTold (⟦<MemoryHost as Host>⟧.history m) IsAttached) }
{
    let first = Bytes::of(alloc, &[])?;
    let second = Bytes::of(alloc, &[])?;
    attached(alloc, [first, second])
}

// A host with a fresh store.
fn fresh(alloc: Global) -> Result<MemoryHost, NoMemory>
    ensures { IfOk result (λ m. WhereTold (⟦<MemoryHost as Host>⟧.history m) IsAttached) }
{
    let mut host = empty(alloc)?;
    match creates(&mut host) {
        Ok(()) => Ok(host),
        Err(_) => Err(NoMemory),
    }
}

// A host with the files that a stop leaves, started again.
fn again(alloc: Global, host: &MemoryHost, pick: Pick) -> Result<MemoryHost, NoMemory>
    ensures { IfOk result (λ m. WhereTold (⟦<MemoryHost as Host>⟧.history m) IsAttached) }
{
    match host.image(pick) {
        Ok(files) => attached(alloc, files),
        Err(NoMemory) => Err(NoMemory),
    }
}

// The host is started again after two secrets were put in a snapshot, with no records after it.
fn renewed(alloc: Global, host: &mut MemoryHost) -> Result<MemoryHost, NoMemory>
    requires { WhereTold (⟦<MemoryHost as Host>⟧.history host.old) IsAttached }
    ensures { IfOk result (λ m. WhereTold (⟦<MemoryHost as Host>⟧.history m) IsAttached) }
{
    let how = Settling {
        first: 0,
        limit: Some(0),
        passing: 1000,
    };
    match settles_on(alloc, host, how) {
        Some(true) => again(alloc, host, Pick::Kept),
        _ => Err(NoMemory),
    }
}

// What is left of a store: the generation, how many bytes its records take, and how many rows it has.
#[derive(Clone, Copy)]
struct Remains {
    generation: u64,
    records: u64,
    counts: [u64; 8],
}

fn left_of(alloc: Global, read: &Read) -> Option<Remains> {
    match found(alloc, &read.chain) {
        Ok(counts) => Some(Remains {
            generation: read.generation,
            records: read.records,
            counts,
        }),
        Err(_) => None,
    }
}

fn left_on(alloc: Global, host: &mut MemoryHost) -> Option<Remains>
    requires { WhereTold (⟦<MemoryHost as Host>⟧.history host.old) IsAttached }
{
    match reads(alloc, host) {
        Some(read) => left_of(alloc, &read),
        None => None,
    }
}

// What a stop leaves.
fn left(alloc: Global, host: &MemoryHost, pick: Pick) -> Option<Remains> {
    match again(alloc, host, pick) {
        Ok(mut host) => left_on(alloc, &mut host),
        Err(NoMemory) => None,
    }
}

// So many secrets, and as many ids.
fn secrets(count: u64) -> [u64; 8] {
    [count, count, 0, 0, 0, 0, 0, 0]
}

// Whether these rows may be left after so many calls: the two new secrets once the record may have been written, and not only
// the ones before once it was acknowledged.
fn may_be_left(counts: [u64; 8], how: Settling) -> bool {
    let before = how.first as u64;
    if counts == secrets(before) {
        how.passing < 4
    } else {
        how.passing >= 2 && counts == secrets(before + 2)
    }
}

// Whether each image that a stop leaves has such rows.
fn holds(alloc: Global, host: &MemoryHost, how: Settling) -> bool {
    let mut good = true;
    for pick in &PICKS {
        good = good
            && match left(alloc, host, *pick) {
                Some(left) => may_be_left(left.counts, how),
                None => false,
            };
    }
    good
}

// What comes of settling a store: whether it is done, whether each image that a stop leaves has the rows that it may have,
// and the generation and the bytes of records that the files have then.
#[derive(Clone, Copy, Debug, PartialEq, Eq)]
struct Outcome {
    done: bool,
    holds: bool,
    generation: u64,
    records: u64,
}

fn settled_on(alloc: Global, host: &mut MemoryHost, how: Settling) -> Option<Outcome>
    requires { WhereTold (⟦<MemoryHost as Host>⟧.history host.old) IsAttached }
{
    let done = settles_on(alloc, host, how)?;
    let left = left(alloc, host, Pick::Kept)?;
    Some(Outcome {
        done,
        holds: holds(alloc, host, how),
        generation: left.generation,
        records: left.records,
    })
}

// The same after two secrets were put in a snapshot.
fn settled_again(alloc: Global, host: &mut MemoryHost, how: Settling) -> Option<Outcome>
    requires { WhereTold (⟦<MemoryHost as Host>⟧.history host.old) IsAttached }
{
    match renewed(alloc, host) {
        Ok(mut host) => settled_on(alloc, &mut host, how),
        Err(NoMemory) => None,
    }
}

// What comes of settling a fresh store, or where two secrets are there before, one that has them in a snapshot.
fn settled(alloc: Global, how: Settling) -> Option<Outcome> {
    match fresh(alloc) {
        Ok(mut host) => {
            if how.first == 0 {
                settled_on(alloc, &mut host, how)
            } else {
                settled_again(alloc, &mut host, how)
            }
        }
        Err(NoMemory) => None,
    }
}

#[test]
fn settling_stops_at_each_call(rt: HostRuntime) -> Result<(), Fail> {
    let alloc = rt.alloc();
    for passing in 0..5u64 {
        let how = Settling {
            first: 0,
            limit: None,
            passing,
        };
        match settled(alloc, how) {
            Some(settled) => {
                assert_eq!(rt; settled.done, passing == 4);
                assert!(rt; settled.holds);
                assert_eq!(rt; settled.generation, 1);
            }
            None => return Err(Fail::from("nothing is settled")),
        }
    }
    Ok(())
}

// With any records a snapshot takes their place: first in the file that has nothing, and then over an older generation.
#[test]
fn a_snapshot_is_made_past_the_limit(rt: HostRuntime) -> Result<(), Fail> {
    let alloc = rt.alloc();
    for first in [0u8, 2] {
        for passing in 0..16u64 {
            let how = Settling {
                first,
                limit: Some(0),
                passing,
            };
            match settled(alloc, how) {
                Some(settled) => {
                    assert_eq!(rt; settled.done, passing == 15);
                    assert!(rt; settled.holds);
                    let renewed = settled.generation == first as u64 / 2 + 2;
                    assert!(rt; !settled.done || renewed && settled.records == 0);
                }
                None => return Err(Fail::from("nothing is settled")),
            }
        }
    }
    Ok(())
}
