// A list of keys without memory.
ghost use Rattle.std.specs.Prelude.{◌≡◌, ◌+◌, ◌<◌, ◌≤◌, [], ◌∷◌, ◌++◌, length, position, Option, OnOk, IfErr};
ghost use Rattle.std.specs.Str.{bytes_eq};
ghost use Rattle.kms_ring.specs.KeyFile.{AreKeys, IsBadNext, AddsKey};

use crate::{BadKey, BadLine};
use kms_fernet::FernetKey;
use std::marker::Model;

const MOST: usize = 16;

/// Sixteen keys at most. Contracts see the list of their bytes.
#[derive(Drop)]
pub struct Keys {
    keys: [FernetKey; MOST],
    count: u8,
}

impl Model for Keys {
    ghost use Rattle.std.specs.Prelude.{ℕ, List};

    ghost Value = { List (List ℕ) };

    ghost use Rattle.kms_ring.specs.Keys.{listed, IsCounted};

    ghost view = { listed };

    ghost invariant = { IsCounted };
}

impl Keys {
    /// No keys.
    pub fn none() -> Keys
        ensures { result ≡ [] }
    {
        Keys {
            keys: [FernetKey::of([0; 32]); MOST],
            count: 0,
        }
    }

    /// The keys in their order.
    pub fn as_slice(&self) -> &[FernetKey]
        ensures value { result.now ≡ self.now }
        ensures most { length self.now ≤ 16 }
    {
        &self.keys[..self.count as usize]
    }

    // The place of a key.
    fn place_of(&self, key: &FernetKey) -> Option<usize>
        ensures { result ≡ position (λ other. bytes_eq other key.now) self.now }
    {
        self.as_slice()
            .iter()
            .position(|other| other.bytes() == key.bytes())
    }

    fn push(&mut self, key: FernetKey)
        requires { length self.old < 16 }
        ensures { self.new ≡ self.old ++ key ∷ [] }
    {
        self.keys[self.count as usize] = key;
        self.count += 1;
    }

    /// Puts the key whose text a line is behind the others. After a fault they are as before.
    pub fn read_line(&mut self, line: &[u8]) -> Result<(), BadLine>
        requires { AreKeys self.old }
        ensures ok { OnOk result (AddsKey self.old line.now self.new) }
        ensures err { IfErr result (IsBadNext self.old line.now) }
    {
        let number = self.count + 1;
        if self.count == 16 {
            return Err(BadLine {
                line: number,
                why: BadKey::TooMany,
            });
        }
        let Some(key) = FernetKey::read(line) else {
            return Err(BadLine {
                line: number,
                why: BadKey::NotAKey,
            });
        };
        if let Some(place) = self.place_of(&key) {
            return Err(BadLine {
                line: number,
                why: BadKey::SameAs(place as u8 + 1),
            });
        }
        self.push(key);
        Ok(())
    }
}
