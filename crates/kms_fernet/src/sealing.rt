// Sealing (the Fernet specification, "Generating").
ghost use Rattle.std.specs.Prelude.{◌≡◌, ◌+◌, ◌-◌, ◌*◌, ◌/◌, ◌%◌, ◌≤◌, ◌++◌, length, take, drop, IfOk};
ghost use Rattle.kms_fernet.specs.Cbc.{padding_len, padded, cbc};
ghost use Rattle.kms_fernet.specs.Key.{base64url, enciphering_key};
ghost use Rattle.kms_fernet.specs.Token.{signed_part, token_bytes, IsToken};

use crate::cbc::encipher;
use crate::key::{FernetKey, cipher, tag};
use base64::engine::general_purpose::URL_SAFE;
use kms_world::{Bytes, NoMemory};
use std::alloc::Global;

// Writes the piece at a place.
fn put(out: &mut [u8], at: usize, piece: &[u8])
    requires { at + length piece.now ≤ length out.old }
    ensures { take (at + length piece.now) out.new ≡ take at out.old ++ piece.now }
{
    out[at..at + piece.len()].copy_from_slice(piece);
}

// Writes the text and its padding.
fn write_padded(plain: &[u8], out: &mut [u8])
    requires { length out.old ≡ length plain.now + padding_len (length plain.now) }
    ensures { out.new ≡ padded plain.now }
{
    let count = out.len() - plain.len();
    out[..plain.len()].copy_from_slice(plain);
    out[plain.len()..].fill(count as u8);
}

// Writes the base64url of the `len` bytes from `from` on over what stands at `to`.
fn encode_piece(text: &mut [u8], from: usize, len: usize, to: usize)
    requires most { len ≤ 48 }
    requires source { from + len ≤ length text.old }
    requires target { to + (len + 2) / 3 * 4 ≤ length text.old }
    ensures { text.new ≡ take to text.old ++ base64url (take len (drop from text.old))
        ++ drop (to + (len + 2) / 3 * 4) text.old }
{
    let mut piece = [0u8; 48];
    piece[..len].copy_from_slice(&text[from..from + len]);
    let _ = URL_SAFE.encode_slice(&piece[..len], &mut text[to..]);
}

// Turns the bytes that end the room into their base64url, which fills it. Piece by piece from the
// front, since what is written stays behind what is still to be read.
fn encode_in_place(text: &mut [u8], from: usize)
    requires inside { from ≤ length text.old }
    requires filled { length text.old ≡ (length text.old - from + 2) / 3 * 4 }
    ensures { text.new ≡ base64url (drop from text.old) }
{
    let len = text.len() - from;
    let whole = len / 48;
    for i in 0..whole {
        encode_piece(text, from + 48 * i, 48, 64 * i);
    }
    encode_piece(text, from + 48 * whole, len - 48 * whole, 64 * whole);
}

// Writes what is signed.
fn write_signed(key: &[u8; 32], moment: u64, iv: &[u8; 16], plain: &[u8], out: &mut [u8])
    requires { length out.old ≡ 25 + length plain.now + padding_len (length plain.now) }
    ensures { out.new ≡ signed_part moment iv.now (cbc (enciphering_key key.now) iv.now (padded plain.now)) }
{
    put(out, 0, &[0x80]);
    put(out, 1, &moment.to_be_bytes());
    put(out, 9, iv);
    write_padded(plain, &mut out[25..]);
    encipher(&cipher(key), iv, &mut out[25..]);
}

// Writes the bytes of a token.
fn write_bytes(key: &[u8; 32], moment: u64, iv: &[u8; 16], plain: &[u8], raw: &mut [u8])
    requires { length raw.old ≡ 57 + length plain.now + padding_len (length plain.now) }
    ensures { raw.new ≡ token_bytes key.now moment iv.now plain.now }
{
    let end = raw.len() - 32;
    write_signed(key, moment, iv, plain, &mut raw[..end]);
    let tag = tag(key, &raw[..end]);
    raw[end..].copy_from_slice(&tag);
}

// How many bytes stand in the token of so many plain bytes.
fn token_len(plain_len: usize) -> usize
    requires { plain_len ≤ 65536 }
    ensures { result ≡ 57 + plain_len + padding_len plain_len }
{
    57 + plain_len + (16 - plain_len % 16)
}

/// Writes the token of the plain bytes, which fills the room.
pub(crate) fn seal_into(key: &[u8; 32], moment: u64, iv: &[u8; 16], plain: &[u8], text: &mut [u8])
    requires most { length plain.now ≤ 65536 }
    requires room { length text.old ≡ (57 + length plain.now + padding_len (length plain.now) + 2) / 3 * 4 }
    ensures { IsToken key.now moment iv.now plain.now text.new }
{
    let from = text.len() - token_len(plain.len());
    write_bytes(key, moment, iv, plain, &mut text[from..]);
    encode_in_place(text, from);
}

/// The Fernet token of at most 65,536 plain bytes under the key, of the moment in seconds and the
/// initialization vector. Its memory is that of the token, taken at once.
pub fn seal(
    alloc: Global,
    key: &FernetKey,
    moment: u64,
    iv: [u8; 16],
    plain: &[u8],
) -> Result<Bytes, NoMemory>
    requires { length plain.now ≤ 65536 }
    ensures { IfOk result (λ text. IsToken key.now moment iv plain.now text) }
{
    let size = (token_len(plain.len()) + 2) / 3 * 4;
    let mut text = vec![in alloc; 0u8; size]?;
    seal_into(&key.bytes, moment, &iv, plain, &mut text);
    Ok(Bytes::from_vec(text))
}
