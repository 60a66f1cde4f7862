// The order of secrets by a query's keys.
ghost use Rattle.std.specs.Prelude.{◌≡◌};
ghost use Rattle.std.specs.Option.{option_cmp};
ghost use Rattle.kms_page.specs.Order as spec;

use crate::{Rows, SortKey};
use kms_world::{SecretRow, Text};
use std::cmp::Ordering;

fn text_cmp(a: &Option<Text>, b: &Option<Text>) -> Ordering
    ensures { result ≡ option_cmp spec.text_cmp a.now b.now }
{
    match (a, b) {
        (None, None) => Ordering::Equal,
        (None, Some(_)) => Ordering::Less,
        (Some(_), None) => Ordering::Greater,
        (Some(a), Some(b)) => a.as_str().cmp(&b.as_str()),
    }
}

fn key_cmp(key: SortKey, a: &SecretRow, b: &SecretRow) -> Ordering
    ensures { result ≡ spec.key_cmp key a.now b.now }
{
    match key {
        SortKey::Name => text_cmp(&a.name, &b.name),
        SortKey::Alg => text_cmp(&a.algorithm, &b.algorithm),
        SortKey::Bits => a.bit_length.cmp(&b.bit_length),
        SortKey::Mode => text_cmp(&a.mode, &b.mode),
        SortKey::SecretType => a.kind.word().cmp(&b.kind.word()),
        SortKey::Created => a.created.cmp(&b.created),
        SortKey::Updated => a.updated.cmp(&b.updated),
        SortKey::Expiration => a.expiration.cmp(&b.expiration),
    }
}

fn sort_cmp(sort: (SortKey, bool), a: &SecretRow, b: &SecretRow) -> Ordering
    ensures { result ≡ spec.sort_cmp sort a.now b.now }
{
    if sort.1 {
        key_cmp(sort.0, b, a)
    } else {
        key_cmp(sort.0, a, b)
    }
}

fn row_cmp(sorts: &[(SortKey, bool)], a: &SecretRow, b: &SecretRow) -> Ordering
    ensures { result ≡ spec.row_cmp sorts.now a.now b.now }
{
    for sort in sorts {
        let order = sort_cmp(*sort, a, b);
        if order != Ordering::Equal {
            return order;
        }
    }
    Ordering::Equal
}

// Two places by their rows; a place without a row comes first.
pub fn place_cmp<R: Rows>(rows: &R, sorts: &[(SortKey, bool)], p: usize, q: usize) -> Ordering
    ensures { result ≡ spec.place_cmp (R.listed rows.now) sorts.now p q }
{
    match (rows.row(p), rows.row(q)) {
        (Some(a), Some(b)) => row_cmp(sorts, a, b),
        (a, b) => a.is_some().cmp(&b.is_some()),
    }
}
