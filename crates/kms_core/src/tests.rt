// What no clause says: that the calls succeed over a host in memory, what each stop leaves, started again, and the bytes of
// a store with one secret.
ghost use Rattle.std.specs.Prelude.{◌≡◌, IfOk};
ghost use Rattle.kms_world.specs.State.{State};
ghost use Rattle.kms_host.specs.History.{WhereTold};
ghost use Rattle.kms_host.specs.Store.{IsAttached};
ghost use Rattle.kms_journal.specs.Position.{IsPlaced};
ghost use Rattle.kms_journal.specs.Standing.{Standing};
ghost use Rattle.kms_core.specs.Steps.{Prepares, IsIdle, IsWorking};

mod bytes;

use crate::tests::bytes::{FRESH, FRESH_CHANGES, SETTLED, SETTLED_CHANGES, TWICE_CHANGES};
use crate::{Asked, Engine, PreparedStep, StartFault};
use kms_host::{Bytes, Host, MemoryHost, NoMemory, Pick};
use kms_journal::{CreateFault, Place, StoreFault, create};
use kms_ring::Ring;
use kms_world::{Answer, Caller, Id, Link, Name, Op, Roles, SecretBody, SecretRow, Text};
use std::alloc::{AllocError, Global};
use std::rt::HostRuntime;
use std::test::Fail;

// A key file of one key.
const KEYS: &[u8] = b"AAECAwQFBgcICQoLDA0ODxAREhMUFRYXGBkaGxwdHh8=\n";

const TAG: u64 = 0x0012_3456_789a_bcde;

// The first id of that tag.
const FIRST: Id = Id(0x0123_4567_89ab_8cde_8000_0000_0000_0000);

// 1985-10-26T08:20:00Z
const MOMENT: u64 = 499_162_800;

static PICKS: [Pick; 5] = [
    Pick::Kept,
    Pick::Lost,
    Pick::Torn(0),
    Pick::Torn(1),
    Pick::Torn(0x55),
];

// What starting finds.
#[derive(Clone, Copy, Debug, PartialEq, Eq)]
enum Found {
    Nothing,
    /// A place in file 0 or 1.
    Damaged(u8, u64),
    /// A number of secrets.
    Secrets(usize),
    /// Anything else.
    Fault,
}

// A host with these two files, attached.
fn attached(alloc: Global, files: [Bytes; 2]) -> Result<MemoryHost, NoMemory>
    ensures { IfOk result (λ m. WhereTold (⟦<MemoryHost as Host>⟧.history m) IsAttached) }
{
    let mut host = MemoryHost::restart(alloc, files)?;
    match host.attach("s") {
        Ok(()) => Ok(host),
        Err(_) => Err(NoMemory),
    }
}

// The same of copies of these files.
fn attached_to(alloc: Global, first: &[u8], second: &[u8]) -> Result<MemoryHost, NoMemory>
    ensures { IfOk result (λ m. WhereTold (⟦<MemoryHost as Host>⟧.history m) IsAttached) }
{
    let first = Bytes::of(alloc, first)?;
    let second = Bytes::of(alloc, second)?;
    attached(alloc, [first, second])
}

// A host with the files that a stop leaves, started again.
fn again(alloc: Global, host: &MemoryHost, pick: Pick) -> Result<MemoryHost, NoMemory>
    ensures { IfOk result (λ m. WhereTold (⟦<MemoryHost as Host>⟧.history m) IsAttached) }
{
    match host.image(pick) {
        Ok(files) => attached(alloc, files),
        Err(NoMemory) => Err(NoMemory),
    }
}

// Creates a store. It stays attached.
fn creates<H: Host>(host: &mut H) -> Result<(), CreateFault>
    requires { WhereTold (H.history host.old) IsAttached }
    ensures { WhereTold (H.history host.new) IsAttached }
{
    create(host, TAG)
}

// What starting finds in an attached store.
fn finds<H: Host>(alloc: Global, host: &mut H) -> Found
    requires { WhereTold (H.history host.old) IsAttached }
{
    match starts(alloc, host) {
        Ok(engine) => Found::Secrets(engine.store.rows().secrets().len()),
        Err(StartFault::NoStore) => Found::Nothing,
        Err(StartFault::Damaged(Place::Body { file, at })) => Found::Damaged(file, at),
        Err(_) => Found::Fault,
    }
}

// What starting finds in these files.
fn found_in(alloc: Global, first: &[u8], second: &[u8]) -> Found {
    match attached_to(alloc, first, second) {
        Ok(mut host) => finds(alloc, &mut host),
        Err(NoMemory) => Found::Fault,
    }
}

// What starting finds in what a stop leaves.
fn left(alloc: Global, host: &MemoryHost, pick: Pick) -> Found {
    match again(alloc, host, pick) {
        Ok(mut host) => finds(alloc, &mut host),
        Err(NoMemory) => Found::Fault,
    }
}

// The user u1 of the project p1.
fn caller() -> Option<Caller> {
    Some(Caller {
        project: Name::read(b"p1")?,
        user: Name::read(b"u1")?,
        roles: Roles {
            admin: false,
            creator: true,
            observer: false,
            audit: false,
            service_admin: false,
        },
    })
}

// A new secret with the name a.
fn post(alloc: Global) -> Option<Op> {
    match Text::of(alloc, "a") {
        Ok(name) => Some(Op::PostSecret {
            body: Ok(SecretBody {
                name: Some(name),
                algorithm: None,
                bit_length: None,
                mode: None,
                secret_type: None,
                expiration: None,
                payload: None,
                payload_content_type: None,
                payload_content_encoding: None,
            }),
        }),
        Err(_) => None,
    }
}

// Starts over an attached store under the key file, and stays placed in it.
fn starts<H: Host>(alloc: Global, host: &mut H) -> Result<Engine, StartFault>
    requires { WhereTold (H.history host.old) IsAttached }
    ensures idle { IfOk result IsIdle }
    ensures working { IfOk result IsWorking }
    ensures placed { IfOk result (λ e. WhereTold (H.history host.new) (λ h. (s : Standing) × IsPlaced e.store.journal h s)) }
{
    match Ring::read(KEYS) {
        Ok(ring) => Engine::start(alloc, host, ring),
        Err(_) => Err(StartFault::NoMemory),
    }
}

// Takes over the step, where there is one.
fn takes_over(engine: &mut Engine, step: Option<PreparedStep>)
    requires { (after : State) × Prepares step engine.old after }
    ensures { engine.new.store.journal ≡ engine.old.store.journal }
{
    if let Some(step) = step {
        engine.accept(step);
    }
}

// The answer to an operation of a caller, whose step is accepted.
fn answers<H: Host>(engine: &mut Engine, host: &mut H, caller: &Caller, op: Op) -> Option<Answer>
    requires idle { IsIdle engine.old }
    requires working { IsWorking engine.old }
    requires placed { WhereTold (H.history host.old) (λ h. (s : Standing) × IsPlaced engine.old.store.journal h s) }
    ensures placed { WhereTold (H.history host.new) (λ h. (s : Standing) × IsPlaced engine.new.store.journal h s) }
    ensures working { IsWorking engine.new }
{
    match engine.ask(host, caller, op, MOMENT) {
        Ok(Asked { answer, step }) => {
            takes_over(engine, step);
            Some(answer)
        }
        Err(_) => None,
    }
}

fn is_named_a(row: &SecretRow) -> bool {
    match &row.name {
        Some(name) => name.as_str() == "a",
        None => false,
    }
}

// The first secret, as it was asked for.
fn is_posted(row: &SecretRow) -> bool {
    row.id == FIRST
        && row.project.as_str() == "p1"
        && row.creator.as_str() == "u1"
        && row.created == MOMENT
        && row.updated == MOMENT
        && row.expiration.is_none()
        && is_named_a(row)
}

// Whether it says that the first secret is there now, or what that is.
fn is_first(answer: &Answer) -> bool {
    match answer {
        Answer::Link { status, link, id } => {
            *status == 201 && *link == Link::Secret && *id == FIRST
        }
        Answer::Secret(row) => is_posted(row),
        _ => false,
    }
}

// Whether the answer to an operation is of the first secret.
fn answers_first<H: Host>(engine: &mut Engine, host: &mut H, caller: &Caller, op: Op) -> bool
    requires idle { IsIdle engine.old }
    requires working { IsWorking engine.old }
    requires placed { WhereTold (H.history host.old) (λ h. (s : Standing) × IsPlaced engine.old.store.journal h s) }
    ensures placed { WhereTold (H.history host.new) (λ h. (s : Standing) × IsPlaced engine.new.store.journal h s) }
    ensures working { IsWorking engine.new }
{
    match answers(engine, host, caller, op) {
        Some(answer) => is_first(&answer),
        None => false,
    }
}

// Settles what was accepted.
fn settles<H: Host>(engine: &mut Engine, host: &mut H) -> Result<(), StoreFault>
    requires working { IsWorking engine.old }
    requires placed { WhereTold (H.history host.old) (λ h. (s : Standing) × IsPlaced engine.old.store.journal h s) }
{
    engine.settle(host)
}

// The engine accepts a secret, which gets the first id, and settles it while so many calls on the store pass.
fn posts_while(
    alloc: Global,
    engine: &mut Engine,
    host: &mut MemoryHost,
    passing: u64,
) -> Option<bool>
    requires idle { IsIdle engine.old }
    requires working { IsWorking engine.old }
    requires placed { WhereTold (⟦<MemoryHost as Host>⟧.history host.old) (λ h. (s : Standing) × IsPlaced engine.old.store.journal h s) }
{
    let caller = caller()?;
    let op = post(alloc)?;
    if answers_first(engine, host, &caller, op) {
        host.fuse(passing);
        Some(settles(engine, host).is_ok())
    } else {
        None
    }
}

// The same of an engine over an attached store.
fn settles_while(alloc: Global, host: &mut MemoryHost, passing: u64) -> Option<bool>
    requires { WhereTold (⟦<MemoryHost as Host>⟧.history host.old) IsAttached }
{
    match starts(alloc, host) {
        Ok(mut engine) => posts_while(alloc, &mut engine, host, passing),
        Err(_) => None,
    }
}

// Whether the engine shows the first secret.
fn shows_first<H: Host>(engine: &mut Engine, host: &mut H) -> bool
    requires idle { IsIdle engine.old }
    requires working { IsWorking engine.old }
    requires placed { WhereTold (H.history host.old) (λ h. (s : Standing) × IsPlaced engine.old.store.journal h s) }
{
    let op = Op::GetSecret {
        id: Some(FIRST),
        accept: None,
    };
    match caller() {
        Some(caller) => answers_first(engine, host, &caller, op),
        None => false,
    }
}

// The same of an engine over an attached store.
fn shows<H: Host>(alloc: Global, host: &mut H) -> bool
    requires { WhereTold (H.history host.old) IsAttached }
{
    match starts(alloc, host) {
        Ok(mut engine) => shows_first(&mut engine, host),
        Err(_) => false,
    }
}

// Whether an engine over what a host keeps shows the first secret.
fn shows_again(alloc: Global, host: &MemoryHost) -> bool {
    match again(alloc, host, Pick::Kept) {
        Ok(mut host) => shows(alloc, &mut host),
        Err(NoMemory) => false,
    }
}

// Whether a host keeps these bytes in its first file, and none in the second.
fn keeps(host: &MemoryHost, first: &[u8]) -> bool {
    match host.image(Pick::Kept) {
        Ok(files) => files[0].as_slice() == first && files[1].as_slice().is_empty(),
        Err(NoMemory) => false,
    }
}

// A secret is settled in a store that is created, in these bytes, and found again.
fn is_found_again(alloc: Global, host: &mut MemoryHost) -> bool
    requires { WhereTold (⟦<MemoryHost as Host>⟧.history host.old) IsAttached }
{
    creates(host) == Ok(())
        && settles_while(alloc, host, 4) == Some(true)
        && keeps(host, &SETTLED)
        && shows_again(alloc, host)
}

#[test]
fn a_secret_is_found_again(rt: HostRuntime) -> Result<(), Fail> {
    let alloc = rt.alloc();
    let found = match attached_to(alloc, &[], &[]) {
        Ok(mut host) => is_found_again(alloc, &mut host),
        Err(NoMemory) => false,
    };
    assert!(rt; found);
    Ok(())
}

// Whether each image that a stop leaves after so many calls has the secret or not: with it once the record may have been
// written, and not without it once it was acknowledged.
fn holds(alloc: Global, host: &MemoryHost, passing: u64) -> bool {
    let mut good = true;
    for pick in &PICKS {
        good = good
            && match left(alloc, host, *pick) {
                Found::Secrets(1) => passing >= 2,
                Found::Secrets(0) => passing < 4,
                _ => false,
            };
    }
    good
}

// Whether a settle that is stopped after so many calls is done, and leaves what it may leave.
fn stops(alloc: Global, host: &mut MemoryHost, passing: u64) -> bool
    requires { WhereTold (⟦<MemoryHost as Host>⟧.history host.old) IsAttached }
{
    settles_while(alloc, host, passing) == Some(passing == 4) && holds(alloc, host, passing)
}

fn stops_fresh(alloc: Global, passing: u64) -> bool {
    match attached_to(alloc, &FRESH, &[]) {
        Ok(mut host) => stops(alloc, &mut host, passing),
        Err(NoMemory) => false,
    }
}

#[test]
fn settling_stops_at_each_call(rt: HostRuntime) -> Result<(), Fail> {
    let alloc = rt.alloc();
    for passing in 0..5u64 {
        assert!(rt; stops_fresh(alloc, passing), "{passing}");
    }
    Ok(())
}

// Puts these bytes at a place of a file, which is longer then where they go on.
fn put_at(file: &mut Vec<u8>, at: usize, bytes: &[u8]) -> Result<(), AllocError> {
    for (k, byte) in bytes.iter().enumerate() {
        if at < file.len() && k < file.len() - at {
            file[at + k] = *byte;
        } else {
            file.push(*byte)?;
        }
    }
    Ok(())
}

// These bytes, with others at a place.
fn changed(alloc: Global, file: &[u8], at: usize, bytes: &[u8]) -> Result<Vec<u8>, AllocError> {
    let mut file = file.to_vec(alloc)?;
    match put_at(&mut file, at, bytes) {
        Ok(()) => Ok(file),
        Err(fault) => Err(fault),
    }
}

// What starting finds in these bytes, with others at a place.
fn found_changed(alloc: Global, file: &[u8], at: usize, bytes: &[u8]) -> Found {
    match changed(alloc, file, at, bytes) {
        Ok(file) => found_in(alloc, &file, &[]),
        Err(_) => Found::Fault,
    }
}

// How many of these changes of a file have another answer than they should.
fn wrong(alloc: Global, file: &[u8], changes: &[(usize, &[u8], Found)]) -> usize {
    let mut wrong = 0usize;
    for (at, bytes, found) in changes {
        if found_changed(alloc, file, *at, bytes) != *found {
            wrong = wrong.saturating_add(1);
        }
    }
    wrong
}

// The same where the record of the first secret stands twice.
fn wrong_twice(alloc: Global) -> Option<usize> {
    match changed(alloc, &SETTLED, 111, &SETTLED[58..]) {
        Ok(twice) => Some(wrong(alloc, &twice, &TWICE_CHANGES)),
        Err(_) => None,
    }
}

#[test]
fn damage_has_its_place(rt: HostRuntime) -> Result<(), Fail> {
    let alloc = rt.alloc();
    assert_eq!(rt; wrong(alloc, &FRESH, &FRESH_CHANGES), 0);
    assert_eq!(rt; wrong(alloc, &SETTLED, &SETTLED_CHANGES), 0);
    assert_eq!(rt; wrong_twice(alloc), Some(0));
    Ok(())
}

// What starting finds in the first bytes of a store with one secret, so many of them.
fn found_of_first(length: usize) -> Found {
    if length <= 50 {
        Found::Nothing
    } else if length < 59 {
        Found::Damaged(0, 0)
    } else if length == 59 {
        Found::Secrets(0)
    } else if length < 112 {
        Found::Damaged(0, 58)
    } else {
        Found::Secrets(1)
    }
}

#[test]
fn a_cut_store_has_an_answer(rt: HostRuntime) -> Result<(), Fail> {
    let alloc = rt.alloc();
    for length in 0..113usize {
        assert_eq!(rt;
            found_in(alloc, &SETTLED[..length], &[]),
            found_of_first(length)
        );
    }
    assert_eq!(rt; found_in(alloc, &[], &SETTLED), Found::Secrets(1));
    assert_eq!(rt;
        found_in(alloc, &[], &SETTLED[..111]),
        Found::Damaged(1, 58)
    );
    Ok(())
}
