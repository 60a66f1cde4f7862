// Reading bytes from their front.
ghost use Rattle.std.specs.Prelude.{◌≡◌, ◌==◌, length, IfOk};
ghost use Rattle.std.specs.Int.{w16, w32, w64};
ghost use Rattle.kms_record.specs.Reading.{Finds, taken, byte_at, number_at};

use crate::read_error::Malformed;
use std::marker::Model;

/// Reads from the front of bytes. Contracts see the bytes that are left.
#[derive(Drop)]
pub struct Cursor<'a> {
    left: &'a [u8],
}

impl<'a> Model for Cursor<'a> {
    ghost use Rattle.std.specs.Prelude.{List, ℕ};

    ghost Value = { List ℕ };

    ghost view = { λ c. c.left.now };
}

impl<'a> Cursor<'a> {
    pub fn new(bytes: &'a [u8]) -> Cursor<'a>
        ensures { result ≡ bytes.now }
    {
        Cursor { left: bytes }
    }

    /// Nothing is left.
    pub fn is_empty(&self) -> bool
        ensures { result ≡ (length self.now == 0) }
    {
        self.left.is_empty()
    }

    /// The next bytes, so many.
    #[tactic(auto, unfolding(crate::specs::Reading::taken))]
    pub fn take(&mut self, count: usize) -> Result<&'a [u8], Malformed>
        ensures gives { Finds (λ x. (x.now, self.new)) result (taken count self.old) }
        ensures length { IfOk result (λ x. length x.now ≡ count) }
    {
        if self.left.len() < count {
            return Err(Malformed);
        }
        let (front, rest) = self.left.split_at(count);
        self.left = rest;
        Ok(front)
    }

    #[tactic(auto, unfolding(crate::specs::Reading::byte_at))]
    pub fn byte(&mut self) -> Result<u8, Malformed>
        ensures { Finds (λ x. (x, self.new)) result (byte_at self.old) }
    {
        match self.left {
            [] => Err(Malformed),
            [first, rest @ ..] => {
                self.left = rest;
                Ok(*first)
            }
        }
    }

    #[tactic(auto, unfolding(crate::specs::Reading::number_at))]
    pub fn two_bytes(&mut self) -> Result<u16, Malformed>
        ensures { Finds (λ x. (x, self.new)) result (number_at w16 self.old) }
    {
        let bytes = self.take(2)?;
        Ok(u16::from_be_bytes([bytes[0], bytes[1]]))
    }

    #[tactic(auto, unfolding(crate::specs::Reading::number_at))]
    pub fn four_bytes(&mut self) -> Result<u32, Malformed>
        ensures { Finds (λ x. (x, self.new)) result (number_at w32 self.old) }
    {
        let bytes = self.take(4)?;
        Ok(u32::from_be_bytes([bytes[0], bytes[1], bytes[2], bytes[3]]))
    }

    #[tactic(auto, unfolding(crate::specs::Reading::number_at))]
    pub fn eight_bytes(&mut self) -> Result<u64, Malformed>
        ensures { Finds (λ x. (x, self.new)) result (number_at w64 self.old) }
    {
        let bytes = self.take(8)?;
        Ok(u64::from_be_bytes([
            bytes[0], bytes[1], bytes[2], bytes[3], bytes[4], bytes[5], bytes[6], bytes[7],
        ]))
    }
}
