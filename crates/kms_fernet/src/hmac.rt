// HMAC with SHA-256 (RFC 2104).
ghost use Rattle.std.specs.Prelude.{◌≡◌, ◌-◌, ◌≤◌, ◌++◌, length, replicate};
ghost use Rattle.kms_fernet.specs.Hmac.{padded_key, masked, hmac};

use sha2::{Digest, Sha256};

// The bytes with zeros after them, as one block.
fn filled(bytes: &[u8]) -> [u8; 64]
    requires { length bytes.now ≤ 64 }
    ensures { result ≡ bytes.now ++ replicate (64 - length bytes.now) 0 }
{
    let mut block = [0u8; 64];
    block[..bytes.len()].copy_from_slice(bytes);
    block
}

// The key as one block, hashed first if it is longer.
fn block_key(key: &[u8]) -> [u8; 64]
    ensures { result ≡ padded_key key.now }
{
    if key.len() > 64 {
        filled(&Sha256::digest(key))
    } else {
        filled(key)
    }
}

// A block with each byte xor `mask`.
fn mask_block(block: &[u8; 64], mask: u8) -> [u8; 64]
    ensures { result ≡ masked mask block.now }
{
    let mut out = *block;
    for byte in out.iter_mut() {
        *byte ^= mask;
    }
    out
}

/// The HMAC-SHA-256 under the key of the first text and then the second (RFC 2104, section 2).
#[tactic(auto, unfolding(crate::specs::Hmac::hmac))]
pub fn mac(key: &[u8], first: &[u8], second: &[u8]) -> [u8; 32]
    ensures { result ≡ hmac key.now (first.now ++ second.now) }
{
    let block = block_key(key);
    let mut inner = Sha256::new();
    inner.update(&mask_block(&block, 0x36));
    inner.update(first);
    inner.update(second);
    let digest = inner.finalize();
    let mut outer = Sha256::new();
    outer.update(&mask_block(&block, 0x5c));
    outer.update(&digest);
    outer.finalize()
}
