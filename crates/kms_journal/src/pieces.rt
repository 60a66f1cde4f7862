// A snapshot that is given piece by piece.
ghost use Rattle.std.specs.Prelude.{◌≡◌, ◌++◌, ◌<◌, ◌≤◌, ℕ, List, length, take};
ghost use Rattle.kms_journal.specs.Pieces.{Snapshot};

/// A snapshot of what a store stands for, whose bytes are given piece by piece, in their order. Takes no memory.
pub trait Pieces {
    /// The whole snapshot.
    ghost snapshot: { Self → Snapshot };

    /// The bytes that are still to be given.
    ghost left: { Self → List ℕ };

    /// How many ids were given when the snapshot is taken.
    fn ids(&self) -> u64
        ensures { result ≡ (snapshot self.now).ids };

    /// How many steps the snapshot stands for.
    fn steps(&self) -> u64
        ensures { result ≡ (snapshot self.now).steps };

    /// The length of the whole snapshot, in bytes.
    fn total(&self) -> u64
        ensures { result ≡ length (snapshot self.now).bytes };

    /// Puts the next bytes at the front of the room, and answers how many: at least one while bytes are left and there is
    /// room.
    fn piece(&mut self, room: &mut [u8]) -> usize
        ensures bound { result ≤ length room.new }
        ensures given { take result room.new ++ left self.new ≡ left self.old }
        ensures some { 0 < length room.old → 0 < length (left self.old) → 0 < result }
        ensures same { snapshot self.new ≡ snapshot self.old };
}

/// A snapshot whose bytes are at hand.
#[derive(Drop)]
pub(crate) struct AtHand<'a> {
    /// How many ids were given.
    pub ids: u64,
    /// How many steps it stands for.
    pub steps: u64,
    /// All its bytes.
    pub bytes: &'a [u8],
    /// Those that are still to be given.
    pub rest: &'a [u8],
}

impl<'a> Pieces for AtHand<'a> {
    ghost snapshot = { λ p. record { ids = p.ids; steps = p.steps; bytes = p.bytes.now } };

    ghost left = { λ p. p.rest.now };

    fn ids(&self) -> u64 {
        self.ids
    }

    fn steps(&self) -> u64 {
        self.steps
    }

    fn total(&self) -> u64 {
        self.bytes.len() as u64
    }

    fn piece(&mut self, room: &mut [u8]) -> usize {
        let count = self.rest.len().min(room.len());
        room[..count].copy_from_slice(&self.rest[..count]);
        self.rest = &self.rest[count..];
        count
    }
}
