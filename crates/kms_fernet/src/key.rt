// Fernet keys and their texts.
ghost use Rattle.std.specs.Prelude.{◌≡◌};
ghost use Rattle.kms_fernet.specs.Hmac.{hmac};
ghost use Rattle.kms_fernet.specs.Key.{signing_key, enciphering_key, IsKeyText};

use crate::base64url::decoded;
use crate::hmac::mac;
use base64::engine::general_purpose::URL_SAFE;
use kms_aes::Key;
use std::marker::Model;

/// A Fernet key: 32 bytes, of which the first 16 sign and the last 16 encipher. Contracts see the
/// bytes.
#[derive(Clone, Copy)]
pub struct FernetKey {
    pub(crate) bytes: [u8; 32],
}

impl Model for FernetKey {
    ghost use Rattle.std.specs.Prelude.{ℕ, List};

    ghost Value = { List ℕ };

    ghost view = { λ key. key.bytes };

    ghost inverse = { λ bytes. record { bytes = bytes } };
}

impl FernetKey {
    ghost use Rattle.std.specs.Prelude.{◌≡◌, MatchOption, length, take, drop};
    ghost use Rattle.kms_aes.specs.Cipher.{IsBytes, IsBlock};
    ghost use Rattle.kms_fernet.specs.Hmac.{hmac};
    ghost use Rattle.kms_fernet.specs.Key.{IsKeyText, IsNoKeyText, signing_key, enciphering_key};

    /// The key whose text this is: the base64url of 32 bytes, which is 44 characters. `None` where
    /// it is no key's.
    pub fn read(text: &[u8]) -> Option<FernetKey>
        ensures { MatchOption result (IsNoKeyText text.now) (λ key. IsKeyText text.now key) }
    {
        if text.len() != 44 {
            return None;
        }
        let mut room = [0u8; 33];
        match decoded(text, &mut room) {
            Some(32) => {
                let mut bytes = [0u8; 32];
                bytes.copy_from_slice(&room[..32]);
                Some(FernetKey { bytes })
            }
            Some(_) => None,
            None => None,
        }
    }

    /// The key of these bytes.
    pub fn of(bytes: [u8; 32]) -> FernetKey
        ensures { result ≡ bytes }
    {
        FernetKey { bytes }
    }

    /// The bytes.
    pub fn bytes(&self) -> [u8; 32]
        ensures { result ≡ self.now }
    {
        self.bytes
    }
}

/// The half that enciphers, with its key schedule.
pub(crate) fn cipher(key: &[u8; 32]) -> Key
    ensures { result ≡ enciphering_key key.now }
{
    let mut bytes = [0; 16];
    bytes.copy_from_slice(&key[16..]);
    Key::new(bytes)
}

/// The tag of these bytes under the half that signs.
pub(crate) fn tag(key: &[u8; 32], signed: &[u8]) -> [u8; 32]
    ensures { result ≡ hmac (signing_key key.now) signed.now }
{
    mac(&key[..16], signed, &[])
}

/// The text of a key of these bytes.
pub(crate) fn key_text(key: &[u8; 32]) -> [u8; 44]
    ensures { IsKeyText result key.now }
{
    let mut text = [0u8; 44];
    let _ = URL_SAFE.encode_slice(key, &mut text);
    text
}
