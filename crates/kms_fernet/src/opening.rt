// Opening (the Fernet specification, "Verifying").
ghost use Rattle.std.specs.Prelude.{◌≡◌, ◌≢◌, ◌↔◌, ℕ, ◌≤◌, length, take, replicate, IsTrue, MatchOption, IfOk, OnOk, IfErr, OnErr};
ghost use Rattle.kms_fernet.specs.Cbc.{EndsInPadding};
ghost use Rattle.kms_fernet.specs.Key.{DecodesWithin};
ghost use Rattle.kms_fernet.specs.Token.{IsFramed, IsSigned, OpensBytes, Opens, OpensToOne, OpensToNone, IsBytesFault, IsFault};

use crate::base64url::{decoded, decoded_len};
use crate::cbc::decipher;
use crate::key::{FernetKey, cipher, tag};
use crate::open_fault::OpenFault;
use kms_world::Bytes;
use std::alloc::Global;

// Whether two tags are the same. All bytes are read, whatever they are.
fn same_tag(tag: &[u8], other: &[u8; 32]) -> bool
    requires { length tag.now ≡ 32 }
    ensures { IsTrue result ↔ (tag.now ≡ other.now) }
{
    let mut difference = 0;
    for (i, byte) in tag.iter().enumerate() {
        difference |= *byte ^ other[i];
    }
    difference == 0
}

fn are_all(bytes: &[u8], value: u8) -> bool
    ensures { IsTrue result ↔ (bytes.now ≡ replicate (length bytes.now) value) }
{
    for byte in bytes {
        if *byte != value {
            return false;
        }
    }
    true
}

// How many bytes of padding end the text.
fn padding(text: &[u8]) -> Option<usize>
    requires { 16 ≤ length text.now }
    ensures { MatchOption result ((count : ℕ) → ¬ EndsInPadding text.now count) (λ count. EndsInPadding text.now count) }
{
    let value = text[text.len() - 1];
    if value == 0 || value > 16 {
        return None;
    }
    let count = value as usize;
    if are_all(&text[text.len() - count..], value) {
        Some(count)
    } else {
        None
    }
}

// Whether the bytes have the parts of a token and its tag.
fn check(key: &[u8; 32], raw: &[u8]) -> Result<(), OpenFault>
    ensures framed { OnOk result (IsFramed raw.now) }
    ensures signed { OnOk result (IsSigned key.now raw.now) }
    ensures err { IfErr result (IsBytesFault key.now raw.now) }
{
    if raw.len() < 73 {
        return Err(OpenFault::Short);
    }
    if raw[0] != 0x80 {
        return Err(OpenFault::Version);
    }
    if (raw.len() - 57) % 16 != 0 {
        return Err(OpenFault::Length);
    }
    let end = raw.len() - 32;
    let tag = tag(key, &raw[..end]);
    if !same_tag(&raw[end..], &tag) {
        return Err(OpenFault::Mac);
    }
    Ok(())
}

// Deciphers a token's bytes to their front, and says how many plain bytes stand there then.
fn open_bytes(key: &[u8; 32], raw: &mut [u8]) -> Result<usize, OpenFault>
    ensures within { IfOk result (λ n. n ≤ length raw.new) }
    ensures ok { IfOk result (λ n. OpensBytes key.now raw.old (take n raw.new)) }
    ensures err { IfErr result (IsBytesFault key.now raw.old) }
{
    check(key, raw)?;
    let len = raw.len() - 57;
    let mut iv = [0; 16];
    iv.copy_from_slice(&raw[9..25]);
    decipher(&cipher(key), &iv, raw, 25, len / 16);
    match padding(&raw[..len]) {
        Some(count) => Ok(len - count),
        None => Err(OpenFault::Padding),
    }
}

/// Opens a token at the front of the room, and says how many plain bytes stand there then.
pub(crate) fn open_into(key: &[u8; 32], token: &[u8], room: &mut [u8]) -> Result<usize, OpenFault>
    requires { DecodesWithin token.now (length room.old) }
    ensures within { IfOk result (λ n. n ≤ length room.new) }
    ensures ok { IfOk result (λ n. Opens key.now token.now (take n room.new)) }
    ensures only { IfOk result (λ n. OpensToOne key.now token.now (take n room.new)) }
    ensures err { IfErr result (IsFault key.now token.now) }
    ensures none { OnErr result (OpensToNone key.now token.now) }
{
    match decoded(token, room) {
        Some(n) => open_bytes(key, &mut room[..n]),
        None => Err(OpenFault::Base64),
    }
}

/// The plain bytes of a token under the key, or the first fault of its text. Memory is taken once,
/// for just the bytes that stand in the token.
pub fn unseal(alloc: Global, key: &FernetKey, token: &[u8]) -> Result<Bytes, OpenFault>
    ensures ok { IfOk result (λ plain. Opens key.now token.now plain) }
    ensures only { IfOk result (λ plain. OpensToOne key.now token.now plain) }
    ensures err { IfErr result (λ fault. fault ≢ OpenFault.NoMemory → IsFault key.now token.now fault) }
    ensures none { IfErr result (λ fault. fault ≢ OpenFault.NoMemory → OpensToNone key.now token.now) }
{
    let Ok(room) = vec![in alloc; 0u8; decoded_len(token)] else {
        return Err(OpenFault::NoMemory);
    };
    let mut room = room;
    match open_into(&key.bytes, token, &mut room) {
        Ok(len) => {
            room.truncate(len);
            Ok(Bytes::from_vec(room))
        }
        Err(fault) => Err(fault),
    }
}
