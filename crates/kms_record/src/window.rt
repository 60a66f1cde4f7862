// A part of what is written.
ghost use Rattle.std.specs.Prelude.{◌≡◌, ◌≤◌, ◌-◌, [], length};
ghost use Rattle.kms_record.specs.Window.{shown};

use std::marker::Model;

/// How many bytes a window shows at most.
pub const WINDOW: usize = 1024;

/// What is written passes by: so many bytes go unseen, and of those after them a window shows the first 1,024. It takes
/// no memory. Contracts see how many bytes still go unseen, and those that are shown.
#[derive(Drop)]
pub(crate) struct Window {
    unseen: usize,
    count: usize,
    bytes: [u8; 1024],
}

impl Model for Window {
    ghost use Rattle.std.specs.Prelude.{◌≤◌, take};
    ghost use Rattle.kms_record.specs.Window.{Shown};

    ghost Value = { Shown };

    ghost view = { λ w. record { unseen = w.unseen; bytes = take w.count w.bytes } };

    ghost invariant = { λ w. w.count ≤ 1024 };
}

impl Window {
    /// Nothing was written yet, and so many bytes will go unseen.
    pub(crate) fn after(unseen: usize) -> Window
        ensures { result ≡ record { unseen = unseen; bytes = [] } }
    {
        Window {
            unseen,
            count: 0,
            bytes: [0; 1024],
        }
    }

    /// Writes these bytes.
    pub(crate) fn put(&mut self, piece: &[u8])
        ensures { self.new ≡ shown self.old piece.now }
    {
        let passed = self.unseen.min(piece.len());
        let seen = &piece[passed..];
        let more = seen.len().min(WINDOW - self.count);
        let end = self.count + more;
        self.bytes[self.count..end].copy_from_slice(&seen[..more]);
        self.unseen -= passed;
        self.count = end;
    }

    /// How many bytes still go unseen.
    pub(crate) fn unseen(&self) -> usize
        ensures { result ≡ self.now.unseen }
    {
        self.unseen
    }

    /// The bytes that are shown.
    pub(crate) fn as_slice(&self) -> &[u8]
        ensures shown { result.now ≡ self.now.bytes }
        ensures most { length result.now ≤ 1024 }
    {
        &self.bytes[..self.count]
    }
}
