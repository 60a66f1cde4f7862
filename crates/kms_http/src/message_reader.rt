// The reader of one stream.
ghost use Rattle.std.specs.Prelude.{◌≡◌, ◌+◌, ◌<◌, ◌≤◌, ◌^◌, ◌++◌, [], ◌==◌, length, drop, IfOk, OnOk, OnErr};
ghost use Rattle.kms_http.specs.MessageReads.{Reads};

use crate::message_front::{Found, read_front};
use crate::message_read::MessageRead;
use kms_world::NoMemory;
use std::alloc::Global;
use std::marker::Model;

/// Reads the messages of a stream from pieces, cut anywhere. Contracts see the bytes that it holds, and how many bytes
/// of messages went before them.
#[derive(Drop)]
pub struct MessageReader {
    alloc: Global,
    bytes: Vec<u8>,
    /// the bytes before this place were given
    start: usize,
    /// no empty line begins in so many bytes after it
    searched: usize,
    /// the message at the front has at least so many bytes; 0 where its head has no end yet
    wanted: usize,
    passed: u64,
}

impl Model for MessageReader {
    ghost use Rattle.kms_http.specs.Reading.{Reading};

    ghost Value = { Reading };

    ghost use Rattle.kms_http.specs.MessageReaderFields.{reading, IsCounted};

    ghost view = { reading };

    ghost invariant = { IsCounted };
}

// Takes away so many bytes at the front.
fn remove_front(bytes: &mut Vec<u8>, count: usize)
    requires { count ≤ length bytes.old.items }
    ensures { bytes.new.items ≡ drop count bytes.old.items }
{
    let rest = bytes.len() - count;
    bytes.rotate_left(count);
    bytes.truncate(rest);
}

impl MessageReader {
    /// A reader of a stream from its begin. Takes no memory.
    pub fn new(alloc: Global) -> MessageReader
        ensures { result ≡ record { held = []; passed = 0 } }
    {
        MessageReader {
            alloc,
            bytes: Vec::new(alloc),
            start: 0,
            searched: 0,
            wanted: 0,
            passed: 0,
        }
    }

    // The bytes held.
    fn rest(&self) -> &[u8]
        ensures { result.now ≡ self.now.held }
    {
        let (_, rest) = self.bytes.split_at(self.start);
        rest
    }

    // Drops the bytes that were given, once they are half of all.
    fn drop_given(&mut self)
        ensures { self.new ≡ self.old }
    {
        if self.start >= self.bytes.len() - self.start {
            remove_front(&mut self.bytes, self.start);
            self.start = 0;
        }
    }

    /// Puts a piece after the bytes held. After `NoMemory` they are as before.
    pub fn feed(&mut self, piece: &[u8]) -> Result<(), NoMemory>
        requires { self.old.passed + length self.old.held + length piece.now < 2 ^ 63 }
        ensures ok { OnOk result (self.new ≡ record { held = self.old.held ++ piece.now; passed = self.old.passed }) }
        ensures err { OnErr result (self.new ≡ self.old) }
    {
        self.drop_given();
        self.bytes.extend_from_slice(piece)?;
        Ok(())
    }

    /// Reads the message at the front of the bytes held, and drops its bytes. After all other answers, `NoMemory` too,
    /// they are as before.
    pub fn next(&mut self) -> Result<MessageRead, NoMemory>
        ensures ok { IfOk result (λ r. Reads r self.old self.new) }
        ensures err { OnErr result (self.new ≡ self.old) }
    {
        if self.held() < self.wanted {
            return Ok(MessageRead::More);
        }
        match read_front(self.alloc, self.rest(), self.searched)? {
            Found::Whole(message, used) => {
                self.start += used;
                self.searched = 0;
                self.wanted = 0;
                self.passed += used as u64;
                Ok(MessageRead::Message(message))
            }
            Found::Bad(refusal) => Ok(MessageRead::Bad(refusal)),
            Found::Headless => {
                self.searched = self.held().saturating_sub(3);
                Ok(MessageRead::More)
            }
            Found::Part(wanted) => {
                self.wanted = wanted;
                Ok(MessageRead::More)
            }
        }
    }

    /// How many bytes the messages given so far have.
    pub fn passed(&self) -> u64
        ensures value { result ≡ self.now.passed }
        ensures bound { result + length self.now.held < 2 ^ 63 }
    {
        self.passed
    }

    /// How many bytes are held.
    pub fn held(&self) -> usize
        ensures { result ≡ length self.now.held }
    {
        self.bytes.len() - self.start
    }

    /// Nothing is held.
    pub fn is_empty(&self) -> bool
        ensures { result ≡ (length self.now.held == 0) }
    {
        self.held() == 0
    }
}
