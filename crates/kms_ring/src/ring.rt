// Master keys.
ghost use Rattle.std.specs.Prelude.{◌≡◌, ◌≤◌, length, MatchOption, IfOk, IfErr, true, false};
ghost use Rattle.kms_ring.specs.KeyFile.{AreKeys, IsKeyFile, IsBadLine};
ghost use Rattle.kms_ring.specs.Ring.{IsUnwrapped, IsUnderNone, IsUnderFirst, IsWrapped};

use crate::BadLine;
use crate::key_file::{first_line, unterminated};
use crate::keys::Keys;
use kms_fernet::{unwrap_key, wrap_key};
use std::marker::Model;

/// Master keys, 1 to 16, no two of them equal. What is wrapped is wrapped under the first; what was wrapped under another
/// is still unwrapped. Contracts see the list of their bytes.
#[derive(Drop)]
pub struct Ring {
    keys: Keys,
}

impl Model for Ring {
    ghost use Rattle.std.specs.Prelude.{ℕ, List};

    ghost Value = { List (List ℕ) };

    ghost use Rattle.kms_ring.specs.RingFields.{masters, AreMasters};

    ghost view = { masters };

    ghost invariant = { AreMasters };
}

impl Ring {
    /// The keys of a key file: its lines are the texts of 1 to 16 keys, the base64url of 32 bytes each, no two equal. The
    /// fault names its first bad line.
    pub fn read(text: &[u8]) -> Result<Ring, BadLine>
        ensures ok { IfOk result (λ ring. IsKeyFile text.now ring) }
        ensures err { IfErr result (λ bad. IsBadLine text.now bad) }
    {
        let mut keys = Keys::none();
        let mut rest = unterminated(text);
        loop {
            let (line, behind) = first_line(rest);
            keys.read_line(line)?;
            match behind {
                Some(behind) => rest = behind,
                None => return Ok(Ring { keys }),
            }
        }
    }

    /// How many keys there are: 1 to 16.
    pub fn count(&self) -> usize
        ensures count { result ≡ length self.now }
        ensures some { 1 ≤ result }
        ensures keys { AreKeys self.now }
    {
        self.keys.as_slice().len()
    }

    /// A project key as it is stored: the token under the first key of the project key's text, of the moment in seconds and
    /// the initialization vector.
    pub fn wrap(&self, moment: u64, iv: [u8; 16], project_key: &[u8; 32]) -> [u8; 140]
        ensures wrapped { IsWrapped self.now moment iv project_key.now result }
        ensures keys { AreKeys self.now }
    {
        wrap_key(&self.keys.as_slice()[0], moment, iv, project_key)
    }

    /// The project key whose wrapped form this is, under the first key that opens it. `None` where none does.
    pub fn unwrap(&self, wrapped: &[u8; 140]) -> Option<[u8; 32]>
        ensures key { MatchOption result (IsUnderNone self.now wrapped.now) (λ key. IsUnwrapped self.now wrapped.now key) }
        ensures keys { AreKeys self.now }
    {
        for master in self.keys.as_slice() {
            if let Some(key) = unwrap_key(master, wrapped) {
                return Some(key);
            }
        }
        None
    }

    /// Whether the first key opens this wrapped key.
    pub fn under_first(&self, wrapped: &[u8; 140]) -> bool
        ensures yes { result ≡ true → IsUnderFirst self.now wrapped.now }
        ensures no { result ≡ false → ¬ IsUnderFirst self.now wrapped.now }
    {
        unwrap_key(&self.keys.as_slice()[0], wrapped).is_some()
    }
}
