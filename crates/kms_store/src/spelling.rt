// The changes of a snapshot as bytes, piece by piece.
ghost use Rattle.std.specs.Prelude.{◌≡◌, ◌<◌, ◌≤◌, ◌^◌, ◌++◌, length, take};
ghost use Rattle.std.specs.List.{flat_map};
ghost use Rattle.kms_record.specs.Grammar.{change_bytes};
ghost use Rattle.kms_kept.specs.Snapshot.{snapshot_of};
ghost use Rattle.kms_kept.specs.Sound.{IsSound};

use crate::Tables;
use crate::rows_left::RowsLeft;
use kms_record::{BaseChange, base_len, base_piece};
use std::marker::Model;

/// The spelling of the changes of rows, of which the first may have been begun: so many of its bytes were given. Contracts
/// see the bytes that are still to be given.
#[derive(Drop)]
pub(crate) struct Spelling<'a> {
    change: Option<BaseChange<'a>>,
    from: usize,
    rows: RowsLeft<'a>,
}

impl<'a> Model for Spelling<'a> {
    ghost use Rattle.std.specs.Prelude.{ℕ, List};
    ghost use Rattle.kms_store.specs.SpellingFields.{spelled_left, IsSpelling};

    ghost Value = { List ℕ };

    ghost view = { spelled_left };

    ghost invariant = { IsSpelling };
}

impl<'a> Spelling<'a> {
    /// The changes of the tables' snapshot.
    pub(crate) fn of(tables: &'a Tables) -> Spelling<'a>
        ensures all { result ≡ flat_map change_bytes (snapshot_of tables.now.kept) }
        ensures sound { IsSound tables.now.kept }
        ensures tag { tables.now.kept.state.tag < 2 ^ 60 }
    {
        let mut rows = tables.rows_left();
        let change = rows.next();
        Spelling {
            change,
            from: 0,
            rows,
        }
    }

    // The next bytes of one change, some of them while some are left.
    fn give_some(&mut self, room: &mut [u8]) -> usize
        requires { 0 < length room.old }
        ensures bound { result ≤ length room.new }
        ensures given { take result room.new ++ self.new ≡ self.old }
        ensures some { 0 < length self.old → 0 < result }
    {
        let Some(change) = self.change else {
            return 0;
        };
        let count = base_piece(&change, self.from, room);
        if count < base_len(&change) - self.from {
            self.from += count;
        } else {
            self.change = self.rows.next();
            self.from = 0;
        }
        count
    }

    /// Puts the next bytes at the front of the room, and answers how many: as many as it takes, or all that are left.
    pub(crate) fn give(&mut self, room: &mut [u8]) -> usize
        ensures bound { result ≤ length room.new }
        ensures given { take result room.new ++ self.new ≡ self.old }
        ensures some { 0 < length room.old → 0 < length self.old → 0 < result }
    {
        let mut at = 0;
        while at < room.len() {
            let more = self.give_some(&mut room[at..]);
            if more == 0 {
                return at;
            }
            at += more;
        }
        at
    }
}
