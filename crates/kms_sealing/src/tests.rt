// Payloads sealed and opened, by tokens that Python's cryptography makes of the same bytes.
//
// A value that holds rows, keys or a host stands in few functions, each of which has one way out and lends it to others.
ghost use Rattle.std.specs.Prelude.{◌≡◌, ◌≤◌, length, not, is_some, IfSome};
ghost use Rattle.kms_record.specs.Fields.{IsToken as HasTokenLength};
ghost use Rattle.kms_record.specs.Grammar.{IsStepInRange};
ghost use Rattle.kms_record.specs.SecretPut.{IsInRange};
ghost use Rattle.kms_sealing.specs.Opening.{IsOpen, PayloadOpens};
ghost use Rattle.kms_sealing.specs.Places.{has_key};
ghost use Rattle.kms_sealing.specs.ProjectKeys.{AreOf};

use crate::{Drawn, KeyFileFault, NewKey, OpeningFault, ProjectKeys, Sealed, draw, read_key_file};
use kms_fernet::FernetKey;
use kms_host::{Bytes as HostBytes, Count, MemoryHost};
use kms_journal::{Bodies, Chain};
use kms_record::{SecretPut, Step, encode_step};
use kms_ring::{BadKey, BadLine, Ring};
use kms_store::{KeptSecret, Tables, load};
use kms_world::{Bytes, Id, Media, Name, SecretKind};
use std::alloc::Global;
use std::rt::HostRuntime;
use std::test::Fail;

const TAG: u64 = 0x0012_3456_789a_bcde;

// The first id of that tag.
const FIRST: u128 = 0x0123_4567_89ab_8cde_8000_0000_0000_0000;

const MOMENT: u64 = 499_162_800;

const MASTER: &[u8] = b"cw_0x689RpI-jtRR7oE8h_eQsKImvJapLeSbXpwF4e4=";

const OTHER: &[u8] = b"AAECAwQFBgcICQoLDA0ODxAREhMUFRYXGBkaGxwdHh8=";

const BOTH: &[u8] =
    b"AAECAwQFBgcICQoLDA0ODxAREhMUFRYXGBkaGxwdHh8=\ncw_0x689RpI-jtRR7oE8h_eQsKImvJapLeSbXpwF4e4=\n";

// The key of the bytes 0 to 31 under the master key, with the vector 0 to 15.
const WRAPPED: &[u8] =
    b"gAAAAAAdwJ6wAAECAwQFBgcICQoLDA0OD7-frOMBrl_E5PKBdpH_Sdr-tby5m8utyCVyepjGHkBoCKczFoxCjpsVVkCVkagXgy4si648i0OA_ZJ5JZhl9tosbz3napJMcIZvXYrSETNX";

// Under that key, with the vectors 16 to 31 and 32 to 47.
const HELLO: &[u8] =
    b"gAAAAAAdwJ6wEBESExQVFhcYGRobHB0eH7MVoJwBJDmy4UbB1AeW3ldlsRSgitdRuiGrHetrew5UCmTeWBv5GkfBRsmRgGHdxA==";

const AGAIN: &[u8] =
    b"gAAAAAAdwJ6wICEiIyQlJicoKSorLC0uL3gZt-nApgFv_UpR6PpZ4S05Z_doRbZyHsh-6GpXFYM-P3NVAzaw2aBCR8cFE2xmUQ==";

static LONG: [u8; 20_000] = [0xa5; 20_000];

// Steps as they are spelled, and how many.
#[derive(Drop)]
struct Written {
    count: u32,
    steps: Bytes,
}

fn nothing(alloc: Global) -> Written {
    Written {
        count: 0,
        steps: Bytes::new(alloc),
    }
}

// A record of these steps.
fn record(alloc: Global, written: &Written) -> Option<HostBytes> {
    let mut body = HostBytes::of(alloc, &written.count.to_be_bytes()).ok()?;
    match body.push_all(written.steps.as_slice()) {
        Ok(()) => Some(body),
        Err(_) => None,
    }
}

// No record where no step is written, else one.
fn bodies(alloc: Global, written: &Written) -> Option<Bodies> {
    let mut bodies = Bodies::new(alloc);
    let put = if written.count == 0 {
        Some(())
    } else {
        match record(alloc, written) {
            Some(body) => bodies.push((58, body)).ok(),
            None => None,
        }
    };
    match put {
        Some(()) => Some(bodies),
        None => None,
    }
}

fn chain(alloc: Global, written: &Written) -> Option<Chain> {
    let base = HostBytes::of(alloc, &[0; 8]).ok()?;
    match bodies(alloc, written) {
        Some(bodies) => Some(Chain {
            file: 0,
            tag: TAG,
            ids: 0,
            steps: 0,
            base,
            bodies,
        }),
        None => None,
    }
}

// What these steps lead to, as one record.
fn tables(alloc: Global, written: &Written) -> Option<Tables> {
    match chain(alloc, written) {
        Some(chain) => load(alloc, &chain).ok(),
        None => None,
    }
}

// A secret of p1, under the id of this count.
fn secret(id: u64) -> Option<SecretPut>
    ensures { IfSome result IsInRange }
{
    let project = Name::read(b"p1")?;
    if id > 1000 || project.as_bytes().len() > 64 {
        return None;
    }
    Some(SecretPut {
        id,
        project,
        creator: project,
        created: MOMENT,
        updated: MOMENT,
        name: None,
        algorithm: None,
        bit_length: None,
        mode: None,
        kind: SecretKind::Opaque,
        expiration: None,
    })
}

// One step more.
fn writes(written: &mut Written, step: &Step) -> bool
    requires { IsStepInRange step.now }
{
    written.count = written.count.saturating_add(1);
    encode_step(step, &mut written.steps).is_ok()
}

// Seals a payload with what was drawn for it, and takes over its project's new key.
fn sealed(
    alloc: Global,
    keys: &mut ProjectKeys,
    tables: &Tables,
    project: &Name,
    payload: &[u8],
    drawn: Drawn,
) -> Option<Sealed>
    requires keys { AreOf keys.old tables.now.kept.keys }
    requires drawn { is_some drawn.key ≡ not (has_key project.now tables.now.kept.keys) }
    requires some { 1 ≤ length payload.now }
    requires few { length payload.now ≤ 20000 }
    ensures { IfSome result (λ s. HasTokenLength s.token) }
{
    match keys.seal(alloc, tables, project, MOMENT, payload, drawn) {
        Ok(sealed) => {
            if let Some(new) = &sealed.new {
                keys.add(tables, new);
            }
            Some(sealed)
        }
        Err(_) => None,
    }
}

// The step that puts a payload in a new secret.
fn step_with(
    alloc: Global,
    host: &mut MemoryHost,
    keys: &mut ProjectKeys,
    tables: &Tables,
    payload: &[u8],
) -> Option<Step>
    requires keys { AreOf keys.old tables.now.kept.keys }
    requires some { 1 ≤ length payload.now }
    requires few { length payload.now ≤ 20000 }
    ensures { IfSome result IsStepInRange }
{
    let put = secret(tables.ids())?;
    let project = put.project;
    let drawn = draw(host, tables, &project).ok()?;
    match sealed(alloc, keys, tables, &project, payload, drawn) {
        Some(sealed) => sealed.post(alloc, put, Media::TextPlain).ok(),
        None => None,
    }
}

// The same over tables, with their keys opened under the master key.
fn step_over(alloc: Global, host: &mut MemoryHost, tables: &Tables, payload: &[u8]) -> Option<Step>
    requires some { 1 ≤ length payload.now }
    requires few { length payload.now ≤ 20000 }
    ensures { IfSome result IsStepInRange }
{
    let ring = Ring::read(MASTER).ok()?;
    match ProjectKeys::open(alloc, ring, tables) {
        Ok(mut keys) => step_with(alloc, host, &mut keys, tables, payload),
        Err(_) => None,
    }
}

// The same over what is written.
fn step_after(
    alloc: Global,
    host: &mut MemoryHost,
    written: &Written,
    payload: &[u8],
) -> Option<Step>
    requires some { 1 ≤ length payload.now }
    requires few { length payload.now ≤ 20000 }
    ensures { IfSome result IsStepInRange }
{
    match tables(alloc, written) {
        Some(tables) => step_over(alloc, host, &tables, payload),
        None => None,
    }
}

// Opens what is written, seals a payload of p1 over it, and writes the step that puts it in a new secret.
fn puts(alloc: Global, host: &mut MemoryHost, written: &mut Written, payload: &[u8]) -> bool
    requires some { 1 ≤ length payload.now }
    requires few { length payload.now ≤ 20000 }
{
    match step_after(alloc, host, written, payload) {
        Some(step) => writes(written, &step),
        None => false,
    }
}

// The first draw of a host fails, where nothing is kept.
fn fails_first(alloc: Global, host: &mut MemoryHost) -> bool {
    let fresh = Tables::first(alloc, TAG, 0);
    match Name::read(b"p1") {
        Some(p1) => host.fail(Count::Draw, 1).is_ok() && draw(host, &fresh, &p1).is_err(),
        None => false,
    }
}

fn puts_two(alloc: Global, host: &mut MemoryHost, written: &mut Written) -> bool {
    fails_first(alloc, host)
        && puts(alloc, host, written, b"hello")
        && puts(alloc, host, written, b"again")
}

// A secret whose token is the wrapped key, which opens under the master key alone.
fn foreign(alloc: Global, project: Name) -> Option<Sealed>
    ensures { IfSome result (λ s. HasTokenLength s.token) }
{
    if WRAPPED.len() != 140 {
        return None;
    }
    let mut wrapped = [0; 140];
    wrapped.copy_from_slice(WRAPPED);
    let new = NewKey {
        project,
        number: 1,
        key: FernetKey::of([0; 32]),
        wrapped,
    };
    match Bytes::of(alloc, WRAPPED) {
        Ok(token) => Some(Sealed {
            new: Some(new),
            number: 1,
            token,
        }),
        Err(_) => None,
    }
}

fn foreign_step(alloc: Global) -> Option<Step>
    ensures { IfSome result IsStepInRange }
{
    let put = secret(0)?;
    match foreign(alloc, put.project) {
        Some(sealed) => sealed.post(alloc, put, Media::TextPlain).ok(),
        None => None,
    }
}

fn puts_foreign(alloc: Global, written: &mut Written) -> bool {
    match foreign_step(alloc) {
        Some(step) => writes(written, &step),
        None => false,
    }
}

// What is put in a store.
#[derive(Clone, Copy)]
enum Put {
    /// Two payloads, after a draw that fails.
    Two,
    /// One of 20,000 bytes.
    Long,
    /// The wrapped key in the place of a token.
    Foreign,
}

fn puts_on(alloc: Global, host: &mut MemoryHost, written: &mut Written, put: Put) -> bool {
    match put {
        Put::Two => puts_two(alloc, host, written),
        Put::Long => puts(alloc, host, written, &LONG),
        Put::Foreign => puts_foreign(alloc, written),
    }
}

fn puts_all(alloc: Global, written: &mut Written, put: Put) -> bool {
    match MemoryHost::new(alloc) {
        Ok(mut host) => puts_on(alloc, &mut host, written, put),
        Err(_) => false,
    }
}

// What is kept where this was put.
fn kept(alloc: Global, put: Put) -> Option<Tables> {
    let mut written = nothing(alloc);
    if puts_all(alloc, &mut written, put) {
        tables(alloc, &written)
    } else {
        None
    }
}

// What a secret has: how long its token is, how that begins, and the payload.
#[derive(Clone, Copy)]
struct Sealing {
    size: usize,
    token: &'static [u8],
    payload: &'static [u8],
}

fn has_token(secret: &KeptSecret, has: Sealing) -> bool {
    match &secret.row().payload {
        Some(sealed) => {
            let token = sealed.bytes.as_slice();
            token.len() == has.size && token.starts_with(has.token)
        }
        None => false,
    }
}

fn opens_to(
    alloc: Global,
    keys: &ProjectKeys,
    tables: &Tables,
    secret: &KeptSecret,
    payload: &[u8],
) -> bool
    requires keys { AreOf keys.now tables.now.kept.keys }
    requires opens { PayloadOpens keys.now.masters tables.now.kept.keys secret.now }
{
    match keys.payload(alloc, tables, secret) {
        Ok(Some(opened)) => opened.bytes.as_slice() == payload,
        _ => false,
    }
}

fn has(alloc: Global, keys: &ProjectKeys, tables: &Tables, count: u8, has: Sealing) -> bool
    requires keys { AreOf keys.now tables.now.kept.keys }
    requires opened { IsOpen keys.now.masters tables.now.kept }
{
    match tables.secret(Id(FIRST + count as u128)) {
        Some(secret) => {
            has_token(secret, has) && opens_to(alloc, keys, tables, secret, has.payload)
        }
        None => false,
    }
}

// The same where the keys are opened under these master keys.
fn has_under(
    alloc: Global,
    masters: &[u8],
    tables: &Tables,
    count: u8,
    sealing: Sealing,
) -> Option<bool> {
    let ring = Ring::read(masters).ok()?;
    match ProjectKeys::open(alloc, ring, tables) {
        Ok(keys) => Some(has(alloc, &keys, tables, count, sealing)),
        Err(_) => None,
    }
}

// Whether the secret of this count has it where this was put, under these master keys.
fn is_sealed(alloc: Global, put: Put, masters: &[u8], count: u8, sealing: Sealing) -> Option<bool> {
    match kept(alloc, put) {
        Some(tables) => has_under(alloc, masters, &tables, count, sealing),
        None => None,
    }
}

// Whether the wrapped key is the only key where two payloads were put.
fn has_one_key(alloc: Global) -> bool {
    match kept(alloc, Put::Two) {
        Some(tables) => match tables.keys() {
            [key] => key.wrapped.as_slice() == WRAPPED,
            _ => false,
        },
        None => false,
    }
}

fn refusal_by(alloc: Global, ring: Ring, tables: &Tables) -> Option<OpeningFault> {
    match ProjectKeys::open(alloc, ring, tables) {
        Ok(_keys) => None,
        Err(fault) => Some(fault),
    }
}

fn refusal_over(alloc: Global, masters: &[u8], tables: &Tables) -> Option<Option<OpeningFault>> {
    let ring = Ring::read(masters).ok()?;
    Some(refusal_by(alloc, ring, tables))
}

// Why what is kept doesn't open under these master keys, or that it does.
fn refusal(alloc: Global, put: Put, masters: &[u8]) -> Option<Option<OpeningFault>> {
    match kept(alloc, put) {
        Some(tables) => refusal_over(alloc, masters, &tables),
        None => None,
    }
}

#[test]
fn payloads_are_sealed_and_opened(rt: HostRuntime) -> Result<(), Fail> {
    let alloc = rt.alloc();
    let first = Sealing {
        size: 100,
        token: HELLO,
        payload: b"hello",
    };
    let second = Sealing {
        size: 100,
        token: AGAIN,
        payload: b"again",
    };
    assert_eq!(rt; is_sealed(alloc, Put::Two, MASTER, 0, first), Some(true));
    assert_eq!(rt; is_sealed(alloc, Put::Two, BOTH, 1, second), Some(true));
    assert!(rt; has_one_key(alloc));
    Ok(())
}

#[test]
fn keys_open_under_their_masters(rt: HostRuntime) -> Result<(), Fail> {
    let alloc = rt.alloc();
    let p1 = Name::read(b"p1").ok_or("no name")?;
    assert_eq!(rt;
        refusal(alloc, Put::Two, OTHER),
        Some(Some(OpeningFault::UnknownMaster(p1)))
    );
    assert_eq!(rt; refusal(alloc, Put::Two, BOTH), Some(None));
    assert_eq!(rt;
        refusal(alloc, Put::Foreign, MASTER),
        Some(Some(OpeningFault::Damaged(Id(FIRST))))
    );
    Ok(())
}

#[test]
fn a_long_payload_is_sealed(rt: HostRuntime) -> Result<(), Fail> {
    let long = Sealing {
        size: 26_764,
        token: b"gAAAAAAdwJ6w",
        payload: &LONG,
    };
    assert_eq!(rt;
        is_sealed(rt.alloc(), Put::Long, MASTER, 0, long),
        Some(true)
    );
    Ok(())
}

// Gives a host three key files.
fn has_files(host: &mut MemoryHost) -> bool {
    host.key_file("both", BOTH).is_ok()
        && host.key_file("empty", b"").is_ok()
        && host.key_file("long", &[b'A'; 1100]).is_ok()
}

fn fault_on(host: &mut MemoryHost, name: &str) -> Option<Option<KeyFileFault>> {
    if has_files(host) {
        match read_key_file(host, name) {
            Ok(_) => Some(None),
            Err(fault) => Some(Some(fault)),
        }
    } else {
        None
    }
}

// Why the key file of this name gives no master keys, or that it does.
fn fault_of(alloc: Global, name: &str) -> Option<Option<KeyFileFault>> {
    match MemoryHost::new(alloc) {
        Ok(mut host) => fault_on(&mut host, name),
        Err(_) => None,
    }
}

#[test]
fn key_files_are_read(rt: HostRuntime) -> Result<(), Fail> {
    let alloc = rt.alloc();
    let first = KeyFileFault::Bad(BadLine {
        line: 1,
        why: BadKey::NotAKey,
    });
    assert_eq!(rt; fault_of(alloc, "both"), Some(None));
    assert_eq!(rt; fault_of(alloc, "empty"), Some(Some(first)));
    assert_eq!(rt; fault_of(alloc, "long"), Some(Some(first)));
    assert_eq!(rt; fault_of(alloc, "none"), Some(Some(KeyFileFault::Failed)));
    Ok(())
}
