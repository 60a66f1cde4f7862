use crate::{FernetKey, OpenFault, mac, seal, unseal, unwrap_key, wrap_key};
use std::test::Fail;

const KEY: &[u8] = b"cw_0x689RpI-jtRR7oE8h_eQsKImvJapLeSbXpwF4e4=";

const TOKEN: &[u8] =
    b"gAAAAAAdwJ6wAAECAwQFBgcICQoLDA0ODy021cpGVWKZ_eEwCGM4BLLF_5CV9dOPmrhuVUPgJobwOz7JcbmrR64jVmpU4IwqDA==";
// Three bytes more.
const UNEVEN: &[u8] =
    b"gAAAAAAdwJ6wAAECAwQFBgcICQoLDA0ODy021cpGVWKZ_eEwCGM4BLLF_5CV9dOPmrhuVUPgJobwOz7JcbmrR64jVmpU4IwqAAAADA==";
// Signed, but the last byte of the text is 12 and the one before it 11.
const UNPADDED: &[u8] =
    b"gAAAAAAdwJ6wAAECAwQFBgcICQoLDA0OD0A62wlCSCzl5ZSsDM3xI1pH1pX4pMNcy71z9zWwt57Dvn8nsFBePxRdLoNigl35BA==";

// The token that Python's `cryptography` makes of 50 bytes, with the key, time and vector of the others.
const LONG: &[u8] =
    b"gAAAAAAdwJ6wAAECAwQFBgcICQoLDA0OD_O8tvnwCccwg5FUR9yNc2AjeM-nC6QWypFO8nPo7eJqOMq6YkVVSogRKmjdi6FXSvRKSEUcD2znaaGKUKWvavfsLpQ__0wnh1yAHD5ZrRI07iGBeSBINOu5nUmzAolYWA==";
// The first letters of the faults of its fronts, by their lengths, as `answer_of` of
// tests/compare_crypto.py names them.
const CUTS: &[u8] =
    b"SBBBSBBBSBBBSBBBSBBBSBBBSBBBSBBBSBBBSBBBSBBBSBBBSBBBSBBBSBBBSBBBSBBBSBBBSBBBSBBBSBBBSBBBSBBBSBBBSBBBLBBBLBBBLBBBLBBBLBBBLBBBLBBBLBBBLBBBLBBBMBBBLBBBLBBBLBBBLBBBLBBB";
// Those of what it is with one character changed, by its place: to the next of the alphabet, or from
// `=` to `A`.
const CHANGED: &[u8] =
    b"VMMMMMMMMMMMMMMMMMMMMMMMMMMMMMMMMMMMMMMMMMMMMMMMMMMMMMMMMMMMMMMMMMMMMMMMMMMMMMMMMMMMMMMMMMMMMMMMMMMMMMMMMMMMMMMMMMMMMMMMMMMMMMMMMMMMMMMMMMMMMMMMMMMMMMMMMMMMMMMMMBLB";

const ALPHABET: &[u8] = b"ABCDEFGHIJKLMNOPQRSTUVWXYZabcdefghijklmnopqrstuvwxyz0123456789-_";

const IV: [u8; 16] = [0, 1, 2, 3, 4, 5, 6, 7, 8, 9, 10, 11, 12, 13, 14, 15];

// RFC 4231, test case 2, and the same text in two parts.
#[test]
fn codes_the_published_text(rt: HostRuntime) {
    let want = [
        0x5b, 0xdc, 0xc1, 0x46, 0xbf, 0x60, 0x75, 0x4e, 0x6a, 0x04, 0x24, 0x26, 0x08, 0x95, 0x75,
        0xc7, 0x5a, 0x00, 0x3f, 0x08, 0x9d, 0x27, 0x39, 0x83, 0x9d, 0xec, 0x58, 0xb9, 0x64, 0xec,
        0x38, 0x43,
    ];
    assert_eq!(rt; mac(b"Jefe", b"what do ya want for nothing?", b""), want);
    assert_eq!(rt; mac(b"Jefe", b"what do ya ", b"want for nothing?"), want);
}

// The token is the one that Python's `cryptography` makes of the same key, time and initialization
// vector.
#[test]
fn seals_and_opens(rt: HostRuntime) -> Result<(), Fail> {
    let alloc = rt.alloc();
    let key = FernetKey::read(KEY).ok_or("no key")?;
    let token = seal(alloc, &key, 499162800, IV, b"hello").map_err(|_| "no memory")?;
    assert_eq!(rt; token.as_slice(), TOKEN);
    let plain = unseal(alloc, &key, TOKEN).map_err(|_| "closed")?;
    assert_eq!(rt; plain.as_slice(), b"hello".as_slice());
    for (len, want) in [(0, 100), (15, 100), (16, 120), (17, 120), (20000, 26764)] {
        let text = vec![in alloc; b'x'; len]?;
        let token = seal(alloc, &key, 0, IV, &text).map_err(|_| "no memory")?;
        assert_eq!(rt; token.as_slice().len(), want);
        let plain = unseal(alloc, &key, token.as_slice()).map_err(|_| "closed")?;
        assert_eq!(rt; plain.as_slice(), text.as_slice());
    }
    Ok(())
}

#[test]
fn names_the_first_fault(rt: HostRuntime) -> Result<(), Fail> {
    let alloc = rt.alloc();
    let key = FernetKey::read(KEY).ok_or("no key")?;
    let other = FernetKey::of([7; 32]);
    for (at, to, want) in [
        (96, b'E', OpenFault::Mac),
        (97, b'B', OpenFault::Base64),
        (0, b'A', OpenFault::Version),
        (40, b'+', OpenFault::Base64),
        (60, b'A', OpenFault::Mac),
    ] {
        let mut text = TOKEN.to_vec(alloc)?;
        if at < text.len() {
            text[at] = to;
        }
        assert_eq!(rt; unseal(alloc, &key, &text).err(), Some(want));
    }
    for (text, want) in [
        (b"".as_slice(), OpenFault::Short),
        (&TOKEN[..96], OpenFault::Short),
        (&TOKEN[..98], OpenFault::Base64),
        (UNEVEN, OpenFault::Length),
        (UNPADDED, OpenFault::Padding),
    ] {
        assert_eq!(rt; unseal(alloc, &key, text).err(), Some(want));
    }
    assert_eq!(rt; unseal(alloc, &other, TOKEN).err(), Some(OpenFault::Mac));
    Ok(())
}

#[test]
fn wraps_and_unwraps(rt: HostRuntime) -> Result<(), Fail> {
    let master = FernetKey::read(KEY).ok_or("no key")?;
    let project_key = [9; 32];
    let wrapped = wrap_key(&master, 499162800, IV, &project_key);
    assert_eq!(rt; unwrap_key(&master, &wrapped), Some(project_key));
    assert_eq!(rt; unwrap_key(&FernetKey::of(project_key), &wrapped), None);
    assert_eq!(rt; FernetKey::read(&KEY[..43]).is_none(), true);
    assert_eq!(rt; master.bytes()[0], 0x73);
    Ok(())
}

fn named(letter: u8) -> Option<OpenFault> {
    match letter {
        b'B' => Some(OpenFault::Base64),
        b'S' => Some(OpenFault::Short),
        b'V' => Some(OpenFault::Version),
        b'L' => Some(OpenFault::Length),
        b'M' => Some(OpenFault::Mac),
        _ => None,
    }
}

fn next_symbol(symbol: u8) -> u8 {
    match ALPHABET.iter().position(|other| *other == symbol) {
        Some(place) => ALPHABET[(place + 1) % 64],
        None => b'A',
    }
}

#[test]
fn names_the_fault_of_each_cut_and_each_changed_byte(rt: HostRuntime) -> Result<(), Fail> {
    let alloc = rt.alloc();
    let key = FernetKey::read(KEY).ok_or("no key")?;
    assert_eq!(rt; (CUTS.len(), CHANGED.len()), (LONG.len(), LONG.len()));
    for (len, letter) in CUTS.iter().enumerate() {
        let front = LONG.get(..len).ok_or("no front")?;
        assert_eq!(rt; unseal(alloc, &key, front).err(), named(*letter));
    }
    let mut text = LONG.to_vec(alloc)?;
    for (at, letter) in CHANGED.iter().enumerate() {
        let was = *text.get(at).ok_or("no byte")?;
        text[at] = next_symbol(was);
        assert_eq!(rt; unseal(alloc, &key, &text).err(), named(*letter));
        for change in 1..=255u8 {
            text[at] = was ^ change;
            assert_eq!(rt; unseal(alloc, &key, &text).is_err(), true);
        }
        text[at] = was;
    }
    let plain = unseal(alloc, &key, &text).map_err(|_| "closed")?;
    assert_eq!(rt; plain.as_slice().len(), 50);
    Ok(())
}
