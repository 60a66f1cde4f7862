// Wrapped keys by project and number.
ghost use Rattle.std.specs.Prelude.{◌≡◌, ◌<◌, ◌≤◌, ◌+◌, ◌&&◌, ◌||◌, ◌==◌, not, true, false, nat_lt, length, if◌then◌else◌, option_copied, vec_len, vec_capacity};
ghost use Rattle.std.specs.List.{insert, list_all, list_any, position};
ghost use Rattle.std.specs.List.Sorted.{IsPartitionPoint};
ghost use Rattle.std.specs.Str.{bytes_eq};
ghost use Rattle.kms_world.specs.Effect.{change_rows, drop_rows};
ghost use Rattle.kms_kept.specs.Kept.{insert_key, is_key, is_key_below, key_of};
ghost use Rattle.kms_kept.specs.KeyNumbers.{KeysAscend};
ghost use Rattle.kms_store.specs.Keys.{named_key};

use kms_record::WrappedKey;
use kms_world::Name;

// The key comes before each of the project with this number or a greater one.
fn comes_before(key: &WrappedKey, project: &Name, number: u32) -> bool
    ensures { result ≡ is_key_below key.now (named_key project.now number) }
{
    key.project.as_str() < project.as_str()
        || (key.project.as_bytes() == project.as_bytes() && key.number < number)
}

// Where the key of the project with this number stands, or would stand, by halves.
fn key_point(keys: &[WrappedKey], project: &Name, number: u32) -> usize
    requires { KeysAscend keys.now }
    ensures bound { result ≤ length keys.now }
    ensures parted { IsPartitionPoint (λ k. is_key_below k (named_key project.now number) ≡ true) (λ k. is_key_below k (named_key project.now number) ≡ false) keys.now result }
{
    keys.partition_point(|key| comes_before(key, project, number))
}

/// The key of a project with this number.
pub(crate) fn key_in<'a>(
    keys: &'a [WrappedKey],
    project: &Name,
    number: u32,
) -> Option<&'a WrappedKey>
    requires { KeysAscend keys.now }
    ensures { option_copied result ≡ key_of project.now number keys.now }
{
    let at = key_point(keys, project, number);
    if at < keys.len() && is_key(&keys[at], project, number) {
        Some(&keys[at])
    } else {
        None
    }
}

fn is_of(key: &WrappedKey, project: &Name) -> bool
    ensures { result ≡ bytes_eq project.now key.now.project }
{
    project.as_bytes() == key.project.as_bytes()
}

/// A project's new key has a greater number than its others.
pub(crate) fn is_latest(keys: &[WrappedKey], new: &WrappedKey) -> bool
    requires { KeysAscend keys.now }
    ensures { result ≡ list_all (λ other. not (bytes_eq new.now.project other.project) || nat_lt other.number new.now.number) keys.now }
{
    let at = key_point(keys, &new.project, new.number);
    if at < keys.len() {
        !is_of(&keys[at], &new.project)
    } else {
        true
    }
}

/// The project has a key with another number.
pub(crate) fn has_another(keys: &[WrappedKey], project: &Name, number: u32) -> bool
    ensures { result ≡ list_any (λ key. bytes_eq project.now key.project && not (number == key.number)) keys.now }
{
    keys.iter().any(|key| project.as_bytes() == key.project.as_bytes() && number != key.number)
}

fn is_key(key: &WrappedKey, project: &Name, number: u32) -> bool
    ensures { result ≡ is_key project.now number key.now }
{
    project.as_bytes() == key.project.as_bytes() && number == key.number
}

/// Drops a key of a project.
pub(crate) fn drop_key(keys: &mut Vec<WrappedKey>, project: &Name, number: u32)
    ensures items { keys.new.items ≡ drop_rows (is_key project.now number) keys.old.items }
    ensures len { vec_len keys.new ≤ vec_len keys.old }
    ensures capacity { vec_capacity keys.old ≤ vec_capacity keys.new }
{
    keys.retain(|key| !is_key(key, project, number));
}

fn rewrap(key: &mut WrappedKey, with: &WrappedKey)
    ensures { key.new ≡ (if is_key with.now.project with.now.number key.old then record key.old { wrapped = with.now.wrapped } else key.old) }
{
    if is_key(key, &with.project, with.number) {
        key.wrapped = with.wrapped;
    }
}

/// A key is wrapped as this one is.
pub(crate) fn rewrap_key(keys: &mut [WrappedKey], with: &WrappedKey)
    ensures { keys.new ≡ change_rows (is_key with.now.project with.now.number) (λ other. record other { wrapped = with.now.wrapped }) keys.old }
{
    for key in keys.iter_mut() {
        rewrap(key, with);
    }
}

fn is_key_below(a: &WrappedKey, b: &WrappedKey) -> bool
    ensures { result ≡ is_key_below a.now b.now }
{
    a.project.as_str() < b.project.as_str()
        || (a.project.as_bytes() == b.project.as_bytes() && a.number < b.number)
}

// Where the key goes: before the first that comes after it, by halves.
fn key_place(keys: &[WrappedKey], key: &WrappedKey) -> usize
    requires { KeysAscend keys.now }
    ensures bound { result ≤ length keys.now }
    ensures place { insert keys.now result key.now ≡ insert_key key.now keys.now }
{
    keys.partition_point(|other| !is_key_below(key, other))
}

fn insert_reserved(keys: &mut Vec<WrappedKey>, at: usize, key: WrappedKey)
    requires place { at ≤ length keys.old.items }
    requires space { vec_len keys.old < vec_capacity keys.old }
    ensures items { keys.new.items ≡ insert keys.old.items at key }
    ensures len { vec_len keys.new ≤ vec_len keys.old + 1 }
    ensures capacity { vec_capacity keys.old ≤ vec_capacity keys.new }
{
    let inserted = keys.insert(at, key);
    prove!(inserted.is_ok());
}

/// Puts a key at its place by project and number. It takes no memory.
pub(crate) fn insert_key(keys: &mut Vec<WrappedKey>, key: WrappedKey)
    requires ascend { KeysAscend keys.old.items }
    requires space { vec_len keys.old < vec_capacity keys.old }
    ensures items { keys.new.items ≡ insert_key key keys.old.items }
    ensures len { vec_len keys.new ≤ vec_len keys.old + 1 }
    ensures capacity { vec_capacity keys.old ≤ vec_capacity keys.new }
{
    let at = key_place(keys, &key);
    insert_reserved(keys, at, key);
}
