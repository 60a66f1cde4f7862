// A number for each of some keys, as how many rows a project has.
ghost use Rattle.std.specs.Prelude.{◌≡◌, ◌<◌, ◌≤◌, ◌+◌, ◌-◌, ◌^◌, ℕ, List, true, false, length, if◌then◌else◌, IfOk, vec_len, vec_capacity, slice_index_or};
ghost use Rattle.std.specs.List.{insert, remove};
ghost use Rattle.std.specs.List.Sorted.{IsPartitionPoint};
ghost use Rattle.std.specs.Result.{IfErr};
ghost use Rattle.kms_store.specs.Tally.{number_in, Ascend, StandsAt, GoesAt};

use crate::index_key::IndexKey;
use kms_world::Name;

/// The number that a key has.
#[derive(Clone, Copy, Debug, PartialEq, Eq)]
pub(crate) struct Entry<K> {
    pub(crate) key: K,
    pub(crate) number: usize,
}

/// How many rows a project has.
pub(crate) type ProjectRows = Entry<Name>;

// Where the key's entry stands, or would stand, by halves.
fn point<K: IndexKey>(entries: &[Entry<K>], key: &K) -> usize
    requires { Ascend K.below entries.now }
    ensures bound { result ≤ length entries.now }
    ensures parted { IsPartitionPoint (λ e. K.below e.key key.now ≡ true) (λ e. K.below e.key key.now ≡ false) entries.now result }
{
    entries.partition_point(|entry: &Entry<K>| entry.key.comes_before(key))
}

// The place of the key's entry, or else where it would go.
fn place<K: IndexKey>(entries: &[Entry<K>], key: &K) -> Result<usize, usize>
    requires { Ascend K.below entries.now }
    ensures there { IfOk result (StandsAt key.now entries.now) }
    ensures missing { IfErr result (GoesAt K.below key.now entries.now) }
{
    let at = point(entries, key);
    if at < entries.len() && key.is_key(&entries[at].key) {
        Ok(at)
    } else {
        Err(at)
    }
}

/// The number that a key has, or 0 where it has no entry.
pub(crate) fn number_in<K: IndexKey>(entries: &[Entry<K>], key: &K) -> usize
    requires { Ascend K.below entries.now }
    ensures { result ≡ number_in K.is key.now entries.now }
{
    match place(entries, key) {
        Ok(at) => entries[at].number,
        Err(_) => 0,
    }
}

fn insert_reserved<K: Drop>(entries: &mut Vec<Entry<K>>, at: usize, entry: Entry<K>)
    requires place { at ≤ length entries.old.items }
    requires space { vec_len entries.old < vec_capacity entries.old }
    ensures items { entries.new.items ≡ insert entries.old.items at entry }
    ensures len { vec_len entries.new ≤ vec_len entries.old + 1 }
    ensures capacity { vec_capacity entries.old ≤ vec_capacity entries.new }
{
    let inserted = entries.insert(at, entry);
    prove!(inserted.is_ok());
}

/// A key's number grows. It takes no memory.
pub(crate) fn add<K: IndexKey + Copy>(entries: &mut Vec<Entry<K>>, key: &K, number: usize)
    requires ascend { Ascend K.below entries.old.items }
    requires space { vec_len entries.old < vec_capacity entries.old }
    requires most { number_in K.is key.now entries.old.items + number < 2 ^ 64 }
    ensures ascend { Ascend K.below entries.new.items }
    ensures numbers { (k : K) → number_in K.is k entries.new.items ≡ number_in K.is k entries.old.items + (if K.is k key.now then number else 0) }
    ensures len { vec_len entries.new ≤ vec_len entries.old + 1 }
    ensures capacity { vec_capacity entries.old ≤ vec_capacity entries.new }
{
    match place(entries, key) {
        Ok(at) => {
            let old = entries[at].number;
            entries[at] = Entry {
                key: *key,
                number: old + number,
            };
        }
        Err(at) => {
            let entry = Entry { key: *key, number };
            insert_reserved(entries, at, entry);
        }
    }
}

/// A key's number falls. An entry whose number would be 0 goes.
pub(crate) fn take<K: IndexKey + Copy>(entries: &mut Vec<Entry<K>>, key: &K, number: usize)
    requires ascend { Ascend K.below entries.old.items }
    requires least { number ≤ number_in K.is key.now entries.old.items }
    ensures ascend { Ascend K.below entries.new.items }
    ensures numbers { (k : K) → number_in K.is k entries.new.items + (if K.is k key.now then number else 0) ≡ number_in K.is k entries.old.items }
    ensures len { vec_len entries.new ≤ vec_len entries.old }
    ensures capacity { vec_capacity entries.old ≤ vec_capacity entries.new }
{
    if let Ok(at) = place(entries, key) {
        let old = entries[at].number;
        if old == number {
            entries.remove(at);
        } else {
            entries[at] = Entry {
                key: *key,
                number: old - number,
            };
        }
    }
}
