// The bytes that come on the lines.
ghost use Rattle.std.specs.Prelude.{◌≡◌, ◌<◌, IfOk, length, take, drop};
ghost use Rattle.kms_host.specs.History.{HasFirst};
ghost use Rattle.kms_host.specs.Memory.{present, advanced, present_on, advanced_on};

use crate::{Bytes, NoMemory};
use std::alloc::Global;
use std::marker::Model;

/// What comes on a line, cut into pieces of one length.
#[derive(Drop)]
pub struct Input {
    bytes: Bytes,
    piece: usize,
    at: usize,
}

impl Model for Input {
    ghost use Rattle.std.specs.Prelude.{◌≤◌, ◌<◌, length};
    ghost use Rattle.kms_host.specs.Memory.{Source};

    ghost Value = { Source };

    ghost view = { λ i. record { bytes = i.bytes; piece = i.piece; at = i.at } };

    ghost invariant = { λ i. (i.at ≤ length i.bytes) × (0 < i.piece) };
}

impl Input {
    pub fn new(alloc: Global, bytes: &[u8], piece: usize) -> Result<Input, NoMemory>
        requires { 0 < piece }
        ensures { IfOk result (λ i. i ≡ record { bytes = bytes.now; piece = piece; at = 0 }) }
    {
        Ok(Input {
            bytes: Bytes::of(alloc, bytes)?,
            piece,
            at: 0,
        })
    }

    /// Gives the rest of the present piece, as far as it fits.
    pub fn take(&mut self, room: &mut [u8]) -> usize
        ensures first { HasFirst (present self.old) room.new result }
        ensures after { self.new ≡ advanced result self.old }
    {
        let rest = &self.bytes.as_slice()[self.at..];
        let count = fill(front(rest, self.piece - self.at % self.piece), room);
        self.at += count;
        count
    }
}

// The first bytes, as far as there are so many.
fn front(bytes: &[u8], count: usize) -> &[u8]
    ensures { result.now ≡ take count bytes.now }
{
    &bytes[..count.min(bytes.len())]
}

// Fills the room from its start on, as far as the bytes reach, and answers how far.
fn fill(bytes: &[u8], room: &mut [u8]) -> usize
    ensures { HasFirst bytes.now room.new result }
{
    let count = bytes.len().min(room.len());
    room[..count].copy_from_slice(&bytes[..count]);
    count
}

/// Gives the rest of the present piece of a line, as far as it fits. A line that was not added is at its end.
pub fn pull(inputs: &mut [Input], line: u32, room: &mut [u8]) -> usize
    ensures first { HasFirst (present_on line inputs.old) room.new result }
    ensures after { inputs.new ≡ advanced_on line result inputs.old }
{
    let line = line as usize;
    if line < inputs.len() {
        inputs[line].take(room)
    } else {
        0
    }
}
