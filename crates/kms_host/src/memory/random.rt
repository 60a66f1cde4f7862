// Random bytes of a host in memory: those that were listed, and after them a plain count.
ghost use Rattle.std.specs.Prelude.{◌≡◌, ◌≤◌, OnOk, OnErr, length};
ghost use Rattle.kms_host.specs.Memory.{undrawn, byte_after, AreDrawn, drawing, listing_bytes, draws_for, with_draws};

use crate::{NoMemory, Purpose};
use std::alloc::Global;
use std::marker::Model;

// The bytes that are drawn for one purpose.
#[derive(Drop)]
struct Stream {
    listed: Vec<u8>,
    count: u64,
}

impl Model for Stream {
    ghost use Rattle.kms_host.specs.Memory.{Draws};

    ghost Value = { Draws };

    ghost view = { λ s. record { listed = s.listed.items; count = s.count } };
}

impl Stream {
    fn new(alloc: Global) -> Stream
        ensures { result ≡ undrawn }
    {
        Stream {
            listed: Vec::new(alloc),
            count: 0,
        }
    }

    // Lists bytes after the others.
    fn list(&mut self, bytes: &[u8]) -> Result<(), NoMemory>
        ensures ok { OnOk result (self.new ≡ listing_bytes bytes.now self.old) }
        ensures err { OnErr result (self.new ≡ self.old) }
    {
        self.listed.extend_from_slice(bytes)?;
        Ok(())
    }

    // The byte that is drawn after so many.
    fn byte_after(&self, drawn: u64) -> u8
        ensures { result ≡ byte_after drawn self.now }
    {
        let place = self.count.saturating_add(drawn);
        let plain = (place % 256) as u8;
        self.listed.get(place as usize).copied().unwrap_or(plain)
    }

    // Fills the room with the bytes that come next.
    fn fill(&mut self, room: &mut [u8])
        ensures bytes { AreDrawn self.old room.new }
        ensures length { length room.new ≡ length room.old }
        ensures after { self.new ≡ drawing (length room.old) self.old }
    {
        for place in 0..room.len() {
            room[place] = self.byte_after(place as u64);
        }
        self.count = self.count.saturating_add(room.len() as u64);
    }
}

/// The bytes that are drawn, by purpose.
#[derive(Drop)]
pub struct Streams {
    tag: Stream,
    iv: Stream,
    project_key: Stream,
    order_key: Stream,
}

impl Model for Streams {
    ghost use Rattle.kms_host.specs.Memory.{Randoms};

    ghost Value = { Randoms };

    ghost view = { λ s. record { tag = s.tag; iv = s.iv; project_key = s.project_key; order_key = s.order_key } };
}

impl Streams {
    /// Nothing listed, nothing drawn.
    pub fn new(alloc: Global) -> Streams
        ensures { result ≡ record { tag = undrawn; iv = undrawn; project_key = undrawn; order_key = undrawn } }
    {
        Streams {
            tag: Stream::new(alloc),
            iv: Stream::new(alloc),
            project_key: Stream::new(alloc),
            order_key: Stream::new(alloc),
        }
    }

    /// Lists bytes for a purpose, after those that were listed for it before.
    pub fn list(&mut self, purpose: Purpose, bytes: &[u8]) -> Result<(), NoMemory>
        ensures ok { OnOk result (self.new ≡ with_draws purpose (listing_bytes bytes.now (draws_for purpose self.old)) self.old) }
        ensures err { OnErr result (self.new ≡ self.old) }
    {
        match purpose {
            Purpose::Tag => self.tag.list(bytes),
            Purpose::Iv => self.iv.list(bytes),
            Purpose::ProjectKey => self.project_key.list(bytes),
            Purpose::OrderKey => self.order_key.list(bytes),
        }
    }

    /// Fills the room with the bytes that come next for a purpose.
    pub fn fill(&mut self, purpose: Purpose, room: &mut [u8])
        ensures bytes { AreDrawn (draws_for purpose self.old) room.new }
        ensures length { length room.new ≡ length room.old }
        ensures after { self.new ≡ with_draws purpose (drawing (length room.old) (draws_for purpose self.old)) self.old }
    {
        match purpose {
            Purpose::Tag => self.tag.fill(room),
            Purpose::Iv => self.iv.fill(room),
            Purpose::ProjectKey => self.project_key.fill(room),
            Purpose::OrderKey => self.order_key.fill(room),
        }
    }
}
