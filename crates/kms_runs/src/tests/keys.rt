// The key file: what is read of it, and what is refused before the store is touched.
use super::init::{FRESH, leaves};
use super::{CREATED, EMPTY, KEYS, POST, serving};
use crate::row::ran;
use kms_host::{Count, NoMemory};
use kms_ring::{BadKey, BadLine};
use kms_serve::Status;
use std::alloc::Global;
use std::rt::HostRuntime;
use std::test::Fail;

// Whether a run over a fresh store and this key file ends so, having sent this, with the store as it was.
fn refused(alloc: Global, keys: Option<&[u8]>, status: Status) -> Result<bool, NoMemory> {
    let mut row = serving(&FRESH, POST, 65536);
    row.keys = keys;
    let (ended, host) = ran(alloc, row)?;
    Ok(ended == status && leaves(&host, EMPTY, &FRESH))
}

fn bad(line: u8, why: BadKey) -> Status {
    Status::BadKeyFile(BadLine { line, why })
}

#[test]
fn key_files_are_refused(rt: HostRuntime) -> Result<(), Fail> {
    let alloc = rt.alloc();
    let twice = super::joined(alloc, &[KEYS, KEYS])?;
    let short = super::joined(
        alloc,
        &[KEYS, b"AAECAwQFBgcICQoLDA0ODxAREhMUFRYXGBkaGxwdHh8"],
    )?;
    assert!(rt; refused(alloc, None, Status::KeyFileFault)?);
    assert!(rt; refused(alloc, Some(EMPTY), bad(1, BadKey::NotAKey))?);
    assert!(rt; refused(alloc, Some(b"no key\n"), bad(1, BadKey::NotAKey))?);
    assert!(rt; refused(alloc, Some(&short), bad(2, BadKey::NotAKey))?);
    assert!(rt; refused(alloc, Some(&twice), bad(2, BadKey::SameAs(1)))?);
    Ok(())
}

// Seventeen keys: the nth is 31 zeros and a byte, of which the text has the last two characters but one.
#[test]
fn a_seventeenth_key_is_refused(rt: HostRuntime) -> Result<(), Fail> {
    let alloc = rt.alloc();
    let mut text = Vec::new(alloc);
    for last in b"ABCDEFGHIJKLMNOPQ" {
        text.extend_from_slice(b"AAAAAAAAAAAAAAAAAAAAAAAAAAAAAAAAAAAAAAAAA")?;
        text.push(*last)?;
        text.extend_from_slice(b"A=\n")?;
    }
    assert!(rt; refused(alloc, Some(&text), bad(17, BadKey::TooMany))?);
    Ok(())
}

#[test]
fn a_key_file_fails(rt: HostRuntime) -> Result<(), Fail> {
    let alloc = rt.alloc();
    let mut row = serving(&FRESH, POST, 65536);
    row.fault = Some((Count::KeyFile, 1));
    let (ended, host) = ran(alloc, row)?;
    assert!(rt; ended == Status::KeyFileFault && leaves(&host, EMPTY, &FRESH));
    row.fault = Some((Count::KeyFile, 2));
    let (ended, host) = ran(alloc, row)?;
    assert!(rt; ended == Status::Done && host.sent(0) == CREATED);
    Ok(())
}
