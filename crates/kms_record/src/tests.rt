// What no clause says: that calls succeed. And the bytes of steps against a writer and a reader in another language:
// tests/record_vectors.py computes the tables again.
ghost use Rattle.std.specs.Prelude.{◌<◌};
ghost use Rattle.kms_record.specs.Base.{IsBaseInRange};

use crate::base::count_of;
use crate::rows::parts;
use crate::{
    BaseChange, Change, ContainerPut, Member, MemberList, SecretPut, Step, WrappedKey, base_len,
    base_piece, decode_base, decode_body, encode_step,
};
use kms_world::{Bytes, ContainerKind, Name, NoMemory, SecretKind, Text, id_of};
use std::alloc::Global;
use std::rt::HostRuntime;
use std::test::Fail;

// Which of 2,000 changed rows are records.
const MUTATED: u64 = 483683097;

static ACCEPTED: [u16; 48] = [
    1, 1, 1, 1, 1, 1, 1, 64, 256, 256, 256, 256, 256, 256, 256, 1, 1, 65, 65, 1, 1, 65, 65, 1, 1,
    1, 59, 256, 256, 256, 256, 1, 1, 1, 59, 256, 256, 256, 256, 1, 1, 1, 128, 1, 1, 1, 6, 1,
];

// A record of one step, of one secret with the name `a`.
static ONE_SECRET: [u8; 48] = [
    0, 0, 0, 1, 0, 1, 5, 0, 0, 0, 0, 0, 0, 0, 0, 0, 2, b'p', b'1', 0, 2, b'u', b'1', 0, 0, 0, 0,
    0x1d, 0xc0, 0x9e, 0xb0, 0, 0, 0, 0, 0x1d, 0xc0, 0x9e, 0xb0, 1, 0, 1, b'a', 0, 0, 0, 5, 0,
];

fn digit(letter: u8) -> u8
    ensures { result < 16 }
{
    match letter {
        b'0'..=b'9' => letter - b'0',
        b'a'..=b'f' => letter - b'a' + 10,
        _ => 0,
    }
}

// The bytes that a row has after its mark.
fn bytes_of(alloc: Global, row: &str) -> Result<Vec<u8>, Fail> {
    let mut bytes = Vec::new(alloc);
    let mut high = None;
    for letter in row.as_bytes().iter().skip(1) {
        match high {
            None => high = Some(*letter),
            Some(first) => {
                bytes.push(digit(first) * 16 + digit(*letter))?;
                high = None;
            }
        }
    }
    Ok(bytes)
}

// The record's bytes, with each of its steps spelled again. None where it is no record.
fn spelled_again(alloc: Global, record: &[u8]) -> Result<Option<Bytes>, NoMemory> {
    let Some(steps) = decode_body(alloc, record)? else {
        return Ok(None);
    };
    let mut out = Bytes::new(alloc);
    out.push_all(&(steps.as_slice().len() as u32).to_be_bytes())?;
    for step in steps.as_slice() {
        if step.is_in_range() {
            encode_step(step, &mut out)?;
        }
    }
    Ok(Some(out))
}

// Each row is a record where it is said to be one, and is spelled as it was.
fn are_as_said(alloc: Global, rows: &[&str]) -> Result<bool, Fail> {
    for row in rows {
        let bytes = bytes_of(alloc, row)?;
        let is_as_said = match spelled_again(alloc, &bytes)? {
            Some(again) => row.starts_with('+') && again.as_slice() == bytes.as_slice(),
            None => row.starts_with('-'),
        };
        if !is_as_said {
            return Ok(false);
        }
    }
    Ok(true)
}

#[test]
fn rows_are_read_and_spelled(rt: HostRuntime) -> Result<(), Fail> {
    let alloc = rt.alloc();
    for rows in parts() {
        assert!(rt; are_as_said(alloc, rows)?);
    }
    Ok(())
}

#[test]
fn changed_rows_are_told_apart(rt: HostRuntime) -> Result<(), Fail> {
    let alloc = rt.alloc();
    let parts = parts();
    let mut state = 1u64;
    let mut folded = 0u64;
    for _ in 0..2000u32 {
        state = (state % 0x8000_0000 * 1_103_515_245 + 12_345) % 0x8000_0000;
        let rows = parts[(state / 7 % 14) as usize];
        if rows.is_empty() {
            continue;
        }
        let mut bytes = bytes_of(alloc, rows[(state / 131 % rows.len() as u64) as usize])?;
        let len = bytes.len();
        if 0 < len {
            bytes[(state / 11 % len as u64) as usize] = (state / 65_536 % 256) as u8;
        }
        let found = decode_body(alloc, &bytes)?.is_some();
        folded = (folded % 1_000_000_007 * 3 + found as u64) % 1_000_000_007;
    }
    assert_eq!(rt; folded, MUTATED);
    Ok(())
}

#[test]
fn each_byte_counts(rt: HostRuntime) -> Result<(), Fail> {
    let alloc = rt.alloc();
    for end in 0..48usize {
        assert!(rt; decode_body(alloc, &ONE_SECRET[..end])?.is_none(), "{end}");
    }
    for (place, wanted) in ACCEPTED.iter().enumerate() {
        let mut count = 0u16;
        for value in 0..=255u8 {
            let mut bytes = ONE_SECRET;
            bytes[place] = value;
            if decode_body(alloc, &bytes)?.is_some() {
                count = count.saturating_add(1);
            }
        }
        assert_eq!(rt; count, *wanted, "{place}");
    }
    Ok(())
}

// A record of one change: a payload whose token has so many bytes.
fn payload_record(alloc: Global, len: u16) -> Result<Bytes, NoMemory> {
    let mut out = Bytes::of(alloc, &[0, 0, 0, 1, 0, 1, 6])?;
    out.push_all(&[0; 17])?;
    out.push_all(&[0, 0, 0, 1])?;
    out.push_all(&(len as u32).to_be_bytes())?;
    for _ in 0..len {
        out.push_all(&[b'g'])?;
    }
    Ok(out)
}

#[test]
fn tokens_have_their_longest(rt: HostRuntime) -> Result<(), Fail> {
    let alloc = rt.alloc();
    let longest = payload_record(alloc, 26_764)?;
    let again = spelled_again(alloc, longest.as_slice())?.ok_or("no record")?;
    assert!(rt; again.as_slice() == longest.as_slice());
    assert!(rt; decode_body(alloc, payload_record(alloc, 26_765)?.as_slice())?.is_none());
    Ok(())
}

#[test]
fn snapshots_are_read(rt: HostRuntime) -> Result<(), Fail> {
    let alloc = rt.alloc();
    let nothing = decode_base(alloc, &[0; 8])?.ok_or("no snapshot")?;
    assert_eq!(rt; nothing.as_slice().len(), 0);
    assert!(rt; decode_base(alloc, &[0; 7])?.is_none());
    assert!(rt; decode_base(alloc, &[0; 9])?.is_none());
    assert!(rt; decode_base(alloc, &[255; 8])?.is_none());
    let mut one = Bytes::of(alloc, &[0, 0, 0, 0, 0, 0, 0, 1])?;
    one.push_all(&ONE_SECRET[6..])?;
    let one = decode_base(alloc, one.as_slice())?.ok_or("no snapshot")?;
    assert_eq!(rt; one.as_slice().len(), 1);
    Ok(())
}

// The spelling of a change in a snapshot, in pieces of seven bytes.
fn in_pieces(alloc: Global, change: &BaseChange<'_>) -> Result<Bytes, NoMemory>
    requires { IsBaseInRange change.now }
{
    let mut out = Bytes::new(alloc);
    let len = base_len(change);
    let mut from = 0;
    for _ in 0..len {
        if from < len {
            let mut room = [0; 7];
            let count = base_piece(change, from, &mut room);
            out.push_all(&room[..count])?;
            from += count;
        }
    }
    Ok(out)
}

// A snapshot of one change.
fn snapshot_of(alloc: Global, change: &[u8]) -> Result<Bytes, NoMemory> {
    let mut snapshot = Bytes::of(alloc, &[0, 0, 0, 0, 0, 0, 0, 1])?;
    snapshot.push_all(change)?;
    Ok(snapshot)
}

#[test]
fn rows_go_out_in_pieces(rt: HostRuntime) -> Result<(), Fail> {
    let alloc = rt.alloc();
    let key = WrappedKey {
        project: Name::read("p1".as_bytes()).ok_or("a project")?,
        number: 1,
        wrapped: [7; 140],
    };
    assert!(rt; key.is_in_range());
    let bytes = in_pieces(alloc, &BaseChange::Key(&key))?;
    assert_eq!(rt; bytes.as_slice().len(), 149);
    assert!(rt;
        bytes
            .as_slice()
            .starts_with(&[1, 0, 2, b'p', b'1', 0, 0, 0, 1])
    );
    let snapshot = snapshot_of(alloc, bytes.as_slice())?;
    assert!(rt; decode_base(alloc, snapshot.as_slice())?.is_some());
    let put = SecretPut {
        id: 5,
        project: Name::read("p1".as_bytes()).ok_or("a project")?,
        creator: Name::read("u1".as_bytes()).ok_or("a creator")?,
        created: 1,
        updated: 2,
        name: None,
        algorithm: Some(Text::of(alloc, "aes")?),
        bit_length: Some(256),
        mode: None,
        kind: SecretKind::Public,
        expiration: None,
    };
    let row = put.into_row(alloc, 77);
    let again = SecretPut::of(&row, count_of(row.id))?;
    assert!(rt; again.is_in_range());
    let bytes = in_pieces(alloc, &BaseChange::Secret(&row))?;
    let mut step = Step::new(alloc);
    step.push(Change::SecretPut(again))?;
    let mut spelled = Bytes::new(alloc);
    assert!(rt; step.is_in_range());
    encode_step(&step, &mut spelled)?;
    assert!(rt; spelled.as_slice().ends_with(bytes.as_slice()));
    assert_eq!(rt;
        spelled.as_slice().len(),
        bytes.as_slice().len().saturating_add(2)
    );
    Ok(())
}

#[test]
fn containers_become_rows(rt: HostRuntime) -> Result<(), Fail> {
    let alloc = rt.alloc();
    let mut members = MemberList::new(alloc);
    for secret in 5..7u64 {
        members.push(Member {
            name: Some(Text::of(alloc, "m")?),
            secret,
        })?;
    }
    let put = ContainerPut {
        id: 4,
        project: Name::read("p1".as_bytes()).ok_or("a project")?,
        creator: Name::read("u1".as_bytes()).ok_or("a creator")?,
        created: 1,
        updated: 2,
        name: None,
        kind: ContainerKind::Generic,
        members,
    };
    assert!(rt; put.is_in_range());
    let row = put.into_row(alloc, 77)?;
    assert!(rt; row.id == id_of(77, 4));
    let secrets = row.secrets.as_slice();
    assert_eq!(rt; secrets.len(), 2);
    assert!(rt; secrets.iter().any(|member| member.1 == id_of(77, 6)));
    Ok(())
}
