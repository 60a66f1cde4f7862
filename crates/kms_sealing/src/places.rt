// Places in the table of wrapped keys, which stand by project and number. Each is found by halves.
ghost use Rattle.std.specs.Prelude.{◌≡◌, ◌<◌, ◌≤◌, ◌&&◌, ◌||◌, not, true, false, length, slice_index_or, IfSome, IfNone};
ghost use Rattle.std.specs.List.{insert};
ghost use Rattle.std.specs.List.Sorted.{IsPartitionPoint};
ghost use Rattle.std.specs.Str.{bytes_eq};
ghost use Rattle.kms_world.specs.Pairs.{is_below};
ghost use Rattle.kms_record.specs.declared.key.WrappedKey.{WrappedKey};
ghost use Rattle.kms_kept.specs.Kept.{insert_key, is_key, is_key_below, key_of};
ghost use Rattle.kms_kept.specs.KeyNumbers.{KeysAscend};
ghost use Rattle.kms_store.specs.Keys.{named_key};
ghost use Rattle.kms_sealing.specs.Places.{has_key, IsLatest};
ghost use Rattle.kms_sealing.specs.Sealed.{wrapped_row};

use crate::NewKey;
use kms_record::WrappedKey;
use kms_world::Name;

// The key comes before each of the project with this number or a greater one.
fn comes_before(row: &WrappedKey, project: &Name, number: u32) -> bool
    ensures { result ≡ is_key_below row.now (named_key project.now number) }
{
    row.project.as_str() < project.as_str()
        || (row.project.as_bytes() == project.as_bytes() && row.number < number)
}

fn is_it(row: &WrappedKey, project: &Name, number: u32) -> bool
    ensures { result ≡ is_key project.now number row.now }
{
    project.as_bytes() == row.project.as_bytes() && number == row.number
}

// Where the key of the project with this number stands, or would stand.
fn key_point(rows: &[WrappedKey], project: &Name, number: u32) -> usize
    requires { KeysAscend rows.now }
    ensures bound { result ≤ length rows.now }
    ensures parted { IsPartitionPoint (λ row. is_key_below row (named_key project.now number) ≡ true) (λ row. is_key_below row (named_key project.now number) ≡ false) rows.now result }
{
    rows.partition_point(|row| comes_before(row, project, number))
}

/// Where the key of a project with this number stands.
pub(crate) fn place_of(rows: &[WrappedKey], project: &Name, number: u32) -> Option<usize>
    requires { KeysAscend rows.now }
    ensures within { IfSome result (λ at. at < length rows.now) }
    ensures found { IfSome result (λ at. (d : WrappedKey) → key_of project.now number rows.now ≡ Some (slice_index_or rows.now at d)) }
    ensures missing { IfNone result (key_of project.now number rows.now ≡ None) }
{
    let at = key_point(rows, project, number);
    if at < rows.len() && is_it(&rows[at], project, number) {
        Some(at)
    } else {
        None
    }
}

fn is_after(row: &WrappedKey, project: &Name) -> bool
    ensures { result ≡ is_below project.now row.now.project }
{
    project.as_str() < row.project.as_str()
}

// Where the keys of the projects after this one begin.
fn end_point(rows: &[WrappedKey], project: &Name) -> usize
    requires { KeysAscend rows.now }
    ensures bound { result ≤ length rows.now }
    ensures parted { IsPartitionPoint (λ row. not (is_below project.now row.project) ≡ true) (λ row. not (is_below project.now row.project) ≡ false) rows.now result }
{
    rows.partition_point(|row| !is_after(row, project))
}

fn is_of(row: &WrappedKey, project: &Name) -> bool
    ensures { result ≡ bytes_eq project.now row.now.project }
{
    project.as_bytes() == row.project.as_bytes()
}

/// Where the project's key of the greatest number stands.
pub(crate) fn latest(rows: &[WrappedKey], project: &Name) -> Option<usize>
    requires { KeysAscend rows.now }
    ensures within { IfSome result (λ at. at < length rows.now) }
    ensures latest { IfSome result (λ at. (d : WrappedKey) → IsLatest project.now rows.now (slice_index_or rows.now at d)) }
    ensures none { IfNone result (has_key project.now rows.now ≡ false) }
{
    let end = end_point(rows, project);
    if 0 < end && is_of(&rows[end - 1], project) {
        Some(end - 1)
    } else {
        None
    }
}

// The new key comes before this one.
fn is_new_below(new: &NewKey, row: &WrappedKey) -> bool
    ensures { result ≡ is_key_below (wrapped_row new.now) row.now }
{
    new.project.as_str() < row.project.as_str()
        || (new.project.as_bytes() == row.project.as_bytes() && new.number < row.number)
}

/// Where a new key goes: before the first that comes after it.
pub(crate) fn place_for(rows: &[WrappedKey], new: &NewKey) -> usize
    requires { KeysAscend rows.now }
    ensures bound { result ≤ length rows.now }
    ensures place { insert rows.now result (wrapped_row new.now) ≡ insert_key (wrapped_row new.now) rows.now }
{
    rows.partition_point(|row| !is_new_below(new, row))
}
