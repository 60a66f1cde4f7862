// The snapshot of what a store keeps, piece by piece.
ghost use Rattle.std.specs.Prelude.{◌≡◌, ◌≤◌, ◌-◌, ◌^◌, ◌++◌, length, take, drop, min, IfSome, MatchOption};
ghost use Rattle.kms_store.specs.Snapshot.{snapshot_after};
ghost use Rattle.kms_store.specs.Stands.{IsSnapshotOf};

use crate::Tables;
use crate::measure::size_of;
use crate::spelling::Spelling;
use kms_journal::Pieces;
use std::marker::Model;

/// The snapshot of tables, whose bytes are given one after the other: the number of its changes in eight bytes, of which
/// so many were given, and the changes. It takes no memory. Contracts see the whole snapshot, and the bytes that are left.
#[derive(Drop)]
pub(crate) struct SnapshotWalk<'a> {
    tables: &'a Tables,
    steps: u64,
    bytes: u64,
    head: [u8; 8],
    given: usize,
    changes: Spelling<'a>,
}

impl<'a> Model for SnapshotWalk<'a> {
    ghost use Rattle.kms_store.specs.Snapshot.{Walked};
    ghost use Rattle.kms_store.specs.SnapshotFields.{walked, IsWalk};

    ghost Value = { Walked };

    ghost view = { walked };

    ghost invariant = { IsWalk };
}

// The next bytes of a head of which so many were given.
fn give_head(head: &[u8; 8], given: usize, room: &mut [u8]) -> usize
    requires { given ≤ 8 }
    ensures count { result ≡ min (length room.old) (8 - given) }
    ensures bytes { room.new ≡ take result (drop given head.now) ++ drop result room.old }
{
    let count = room.len().min(8 - given);
    room[..count].copy_from_slice(&head[given..given + count]);
    count
}

impl<'a> SnapshotWalk<'a> {
    /// The snapshot of the tables, which stands for so many steps. Nothing of it is given yet. None where it has 2^64 bytes
    /// or more.
    pub(crate) fn of(tables: &'a Tables, steps: u64) -> Option<SnapshotWalk<'a>>
        ensures walk { MatchOption result
            (2 ^ 64 ≤ length (snapshot_after steps tables.now.kept).bytes)
            (λ walk. walk ≡ record { snapshot = snapshot_after steps tables.now.kept; left = (snapshot_after steps tables.now.kept).bytes }) }
        ensures leads { IfSome result (λ _. IsSnapshotOf tables.now.kept.state.tag tables.now.kept.state.ids (snapshot_after steps tables.now.kept).bytes tables.now.kept) }
    {
        let size = size_of(tables)?;
        Some(SnapshotWalk {
            tables,
            steps,
            bytes: size.bytes,
            head: size.changes.to_be_bytes(),
            given: 0,
            changes: Spelling::of(tables),
        })
    }
}

impl<'a> Pieces for SnapshotWalk<'a> {
    ghost snapshot = { λ w. w.snapshot };

    ghost left = { λ w. w.left };

    fn ids(&self) -> u64 {
        self.tables.ids()
    }

    fn steps(&self) -> u64 {
        self.steps
    }

    fn total(&self) -> u64 {
        self.bytes
    }

    fn piece(&mut self, room: &mut [u8]) -> usize {
        if self.given < 8 {
            let count = give_head(&self.head, self.given, room);
            self.given += count;
            count
        } else {
            self.changes.give(room)
        }
    }
}
