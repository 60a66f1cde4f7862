// Key files by their answers, and project keys through rings.
use crate::{BadKey, BadLine, Ring};
use std::alloc::{AllocError, Global};
use std::rt::HostRuntime;
use std::test::Fail;

// Two keys, and the first one twice.
const TWO: &[u8] =
    b"cw_0x689RpI-jtRR7oE8h_eQsKImvJapLeSbXpwF4e4=\nAAECAwQFBgcICQoLDA0ODxAREhMUFRYXGBkaGxwdHh8=\n";

const TWICE: &[u8] =
    b"cw_0x689RpI-jtRR7oE8h_eQsKImvJapLeSbXpwF4e4=\ncw_0x689RpI-jtRR7oE8h_eQsKImvJapLeSbXpwF4e4=\n";

// A key's text behind its first character, and a line feed.
const REST: &[u8] = b"AECAwQFBgcICQoLDA0ODxAREhMUFRYXGBkaGxwdHh8=\n";

const IV: [u8; 16] = [0, 1, 2, 3, 4, 5, 6, 7, 8, 9, 10, 11, 12, 13, 14, 15];

fn fault_of(text: &[u8]) -> Option<BadLine> {
    match Ring::read(text) {
        Ok(_) => None,
        Err(bad) => Some(bad),
    }
}

fn bad(line: u8, why: BadKey) -> Option<BadLine> {
    Some(BadLine { line, why })
}

// A key file with a line for each of these characters.
fn file_of(alloc: Global, firsts: &[u8]) -> Result<Vec<u8>, AllocError> {
    let mut text = Vec::new(alloc);
    for first in firsts {
        text.push(*first)?;
        text.extend_from_slice(REST)?;
    }
    Ok(text)
}

#[test]
fn key_files_are_read(rt: HostRuntime) -> Result<(), Fail> {
    let alloc = rt.alloc();
    assert_eq!(rt; fault_of(TWO), None);
    assert_eq!(rt; fault_of(&TWO[..89]), None);
    assert_eq!(rt; fault_of(&TWO[..45]), None);
    assert_eq!(rt; fault_of(&TWO[..44]), None);
    assert_eq!(rt; fault_of(&TWO[..43]), bad(1, BadKey::NotAKey));
    assert_eq!(rt; fault_of(&TWO[..46]), bad(2, BadKey::NotAKey));
    assert_eq!(rt; fault_of(b""), bad(1, BadKey::NotAKey));
    assert_eq!(rt; fault_of(b"\n"), bad(1, BadKey::NotAKey));
    assert_eq!(rt; fault_of(TWICE), bad(2, BadKey::SameAs(1)));
    assert_eq!(rt; fault_of(&file_of(alloc, b"ABCDEFGHIJKLMNOP")?), None);
    assert_eq!(rt;
        fault_of(&file_of(alloc, b"ABCDEFGHIJKLMNOPQ")?),
        bad(17, BadKey::TooMany)
    );
    assert_eq!(rt;
        fault_of(&file_of(alloc, b"ABCDEFGHIJKLMNOPA")?),
        bad(17, BadKey::TooMany)
    );
    assert_eq!(rt;
        fault_of(&file_of(alloc, b"ABCDBEFG=")?),
        bad(5, BadKey::SameAs(2))
    );
    assert_eq!(rt;
        fault_of(&file_of(alloc, b"ABC=DEFC")?),
        bad(4, BadKey::NotAKey)
    );
    Ok(())
}

#[test]
fn project_keys_are_unwrapped(rt: HostRuntime) -> Result<(), Fail> {
    let both = Ring::read(TWO).map_err(|_| "no ring")?;
    let second = Ring::read(&TWO[45..]).map_err(|_| "no ring")?;
    let key = [7; 32];
    let old = second.wrap(499162800, IV, &key);
    let new = both.wrap(499162800, IV, &key);
    assert_eq!(rt; both.unwrap(&old), Some(key));
    assert_eq!(rt; both.unwrap(&new), Some(key));
    assert_eq!(rt; second.unwrap(&new), None);
    assert_eq!(rt;
        (both.under_first(&old), both.under_first(&new)),
        (false, true)
    );
    Ok(())
}
