use crate::sbox::{substituted, unsubstituted};
use crate::schedule::round_keys;
use crate::state::{added, mixed_columns, shifted_rows, unmixed_columns, unshifted_rows};
use std::marker::Model;

/// A key of AES-128, of 16 bytes, with its key schedule (FIPS 197). Contracts see its bytes.
#[derive(Drop)]
pub struct Key {
    round_keys: [[u8; 16]; 11],
}

impl Model for Key {
    ghost use Rattle.std.specs.Prelude.{ℕ, List, [], slice_index_or};
    ghost use Rattle.kms_aes.specs.KeyExpansion.{IsSchedule};
    ghost use Rattle.kms_aes.specs.Cipher.{IsBlock};

    ghost Value = { List ℕ };

    ghost view = { λ key. slice_index_or key.round_keys 0 [] };

    ghost invariant = { λ key.
        IsBlock (slice_index_or key.round_keys 0 []) × IsSchedule (slice_index_or key.round_keys 0 []) key.round_keys };
}

impl Key {
    ghost use Rattle.std.specs.Prelude.{◌≡◌, ℕ, List};
    ghost use Rattle.kms_aes.specs.Cipher.{IsBlock, encrypt};

    /// The key of these bytes.
    pub fn new(bytes: [u8; 16]) -> Key
        ensures { result ≡ bytes }
    {
        Key::expanded(&bytes)
    }

    /// The block enciphered (FIPS 197, section 5.1).
    pub fn encrypt(&self, block: [u8; 16]) -> [u8; 16]
        ensures block { IsBlock result }
        ensures enciphered { result ≡ encrypt self.now block }
    {
        self.encrypted(&block)
    }

    /// The block deciphered: the one block that is enciphered to this one.
    pub fn decrypt(&self, block: [u8; 16]) -> [u8; 16]
        ensures block { IsBlock result }
        ensures back { encrypt self.now result ≡ block }
        ensures only { (plain : List ℕ) → IsBlock plain → encrypt self.now plain ≡ block → plain ≡ result }
    {
        self.decrypted(&block)
    }

    fn expanded(bytes: &[u8; 16]) -> Key
        ensures { result ≡ bytes.now }
    {
        Key {
            round_keys: round_keys(bytes),
        }
    }

    fn encrypted(&self, block: &[u8; 16]) -> [u8; 16]
        ensures block { IsBlock result }
        ensures enciphered { result ≡ encrypt self.now block.now }
    {
        let mut state = added(block, &self.round_keys[0]);
        for round in 1..10 {
            let shifted = shifted_rows(&substituted(&state));
            let mixed = mixed_columns(&shifted);
            state = added(&mixed, &self.round_keys[round]);
        }
        added(&shifted_rows(&substituted(&state)), &self.round_keys[10])
    }

    // The inverse cipher (5.3): each step undoes the last one that is left.
    fn decrypted(&self, block: &[u8; 16]) -> [u8; 16]
        ensures block { IsBlock result }
        ensures back { encrypt self.now result ≡ block.now }
        ensures only { (plain : List ℕ) → IsBlock plain → encrypt self.now plain ≡ block.now → plain ≡ result }
    {
        let last = added(block, &self.round_keys[10]);
        let mut state = unsubstituted(&unshifted_rows(&last));
        for done in 0..9 {
            let mixed = added(&state, &self.round_keys[9 - done]);
            state = unsubstituted(&unshifted_rows(&unmixed_columns(&mixed)));
        }
        added(&state, &self.round_keys[0])
    }
}
