// Lists of bytes that own their memory.
ghost use Rattle.std.specs.Prelude.{◌≡◌, ◌++◌, [], IfOk, OnOk, OnErr};

use std::alloc::{AllocError, AllocFailed, Global};
use std::marker::Model;

/// There was no memory. Nothing has changed.
#[derive(Clone, Copy, Debug, PartialEq, Eq)]
pub struct NoMemory;

impl From<AllocError> for NoMemory {
    fn from(_: AllocError) -> Self {
        NoMemory
    }
}

impl<T: Drop> From<AllocFailed<T>> for NoMemory {
    fn from(_: AllocFailed<T>) -> Self {
        NoMemory
    }
}

/// A list of bytes. Contracts see the list.
#[derive(Drop, Debug)]
pub struct Bytes {
    items: Vec<u8>,
}

impl Model for Bytes {
    ghost use Rattle.std.specs.Prelude.{List, ℕ};

    ghost Value = { List ℕ };

    ghost view = { λ b. b.items.items };
}

impl Bytes {
    /// No bytes; takes no memory.
    pub fn new(alloc: Global) -> Bytes
        ensures { result ≡ [] }
    {
        Bytes {
            items: Vec::new(alloc),
        }
    }

    /// A copy of these bytes.
    pub fn of(alloc: Global, bytes: &[u8]) -> Result<Bytes, NoMemory>
        ensures { IfOk result (λ b. b ≡ bytes.now) }
    {
        Ok(Bytes {
            items: bytes.to_vec(alloc)?,
        })
    }

    /// The bytes of a `Vec`, whose memory they keep.
    pub fn from_vec(items: Vec<u8>) -> Bytes
        ensures { result ≡ items.items }
    {
        Bytes { items }
    }

    /// The bytes as a slice.
    pub fn as_slice(&self) -> &[u8]
        ensures { result.now ≡ self.now }
    {
        &self.items
    }

    /// Puts the piece behind the bytes. After `NoMemory` they are as before.
    pub fn push_all(&mut self, piece: &[u8]) -> Result<(), NoMemory>
        ensures ok { OnOk result (self.new ≡ self.old ++ piece.now) }
        ensures err { OnErr result (self.new ≡ self.old) }
    {
        self.items.extend_from_slice(piece)?;
        Ok(())
    }
}
