// Where the rows of keys stand.
ghost use Rattle.std.specs.Prelude.{◌≡◌, ◌<◌, ◌≤◌, if◌then◌else◌, map, vec_len, vec_capacity};
ghost use Rattle.kms_store.specs.Keyed.{lowered, lowered_entry};
ghost use Rattle.kms_store.specs.Tally.{number_in, Ascend};

use crate::index_key::IndexKey;
use crate::tally::{Entry, take};

fn lower_entry<K>(entry: &mut Entry<K>, gone: usize)
    ensures { entry.new ≡ lowered_entry gone entry.old }
{
    if gone < entry.number {
        entry.number -= 1;
    }
}

// Each greater number is one less.
fn lower<K>(entries: &mut [Entry<K>], gone: usize)
    ensures { entries.new ≡ map (lowered_entry gone) entries.old }
{
    for entry in entries.iter_mut() {
        lower_entry(entry, gone);
    }
}

/// The row of a key goes from its place, and those after it move.
pub(crate) fn drop_place<K: IndexKey + Copy>(entries: &mut Vec<Entry<K>>, key: &K, number: usize)
    requires ascend { Ascend K.below entries.old.items }
    requires number { number_in K.is key.now entries.old.items ≡ number }
    ensures ascend { Ascend K.below entries.new.items }
    ensures numbers { (k : K) → number_in K.is k entries.new.items ≡ (if K.is k key.now then 0 else lowered number (number_in K.is k entries.old.items)) }
    ensures len { vec_len entries.new ≤ vec_len entries.old }
    ensures capacity { vec_capacity entries.old ≤ vec_capacity entries.new }
{
    take(entries, key, number);
    lower(entries, number);
}
