// Bodies of metadata, and of one pair of it.
ghost use Rattle.std.specs.Prelude.{◌≡◌, Ok, map, OnOk, IfOk};
ghost use Rattle.std.specs.List.{list_all};
ghost use Rattle.kms_world.specs.Checked.{IsUnlessNoMemory};
ghost use Rattle.kms_secret.specs.Ascending.{is_next, if_ascending};
ghost use Rattle.kms_secret.specs.Metadata as spec;

use crate::fields::{MOST_BYTES, text_copied};
use crate::key::{is_key, lower, read_key};
use kms_world::{CheckFault, Field, MetadataBody, NoMemory, PairBody, Pairs, Refusal, Text};
use std::alloc::Global;
use std::cmp::Ordering;

const MOST_PAIRS: usize = 100;

const BAD_METADATA: CheckFault = CheckFault::Refused(Refusal::BadBody(Field::Metadata));

fn is_value(value: &Text) -> bool
    ensures { result ≡ spec.is_value value.now }
{
    value.as_str().len() <= MOST_BYTES
}

fn key_by(alloc: Global, key: &Option<Text>) -> Result<Text, CheckFault>
    ensures { IsUnlessNoMemory result (spec.key_by key.now) }
{
    let Some(text) = key else {
        return Err(CheckFault::Refused(Refusal::BadBody(Field::Key)));
    };
    match read_key(alloc, text.as_str()) {
        Ok(Some(key)) => Ok(key),
        Ok(None) => Err(CheckFault::Refused(Refusal::BadBody(Field::Key))),
        Err(_) => Err(CheckFault::NoMemory),
    }
}

fn value_by(value: &Option<Text>) -> Result<Text, CheckFault>
    ensures { IsUnlessNoMemory result (spec.value_by value.now) }
{
    match value {
        Some(value) if is_value(value) => text_copied(value),
        _ => Err(CheckFault::Refused(Refusal::BadBody(Field::Value))),
    }
}

/// The pair that a body asks for, its key in lower case (ASCII). The error is the first rule that the body breaks: the key
/// has 1 to 255 bytes of `A-Z a-z 0-9 - _ .`, the value at most 255 bytes.
pub fn check_pair(alloc: Global, body: &PairBody) -> Result<(Text, Text), CheckFault>
    ensures { IsUnlessNoMemory result (spec.checked_pair body.now) }
{
    let key = key_by(alloc, &body.key)?;
    let value = value_by(&body.value)?;
    Ok((key, value))
}

fn is_pair(pair: &(Text, Text)) -> bool
    ensures { result ≡ spec.is_pair pair.now }
{
    is_key(pair.0.as_str()) && is_value(&pair.1)
}

fn are_pairs(pairs: &[(Text, Text)]) -> bool
    ensures { result ≡ list_all spec.is_pair pairs.now }
{
    pairs.iter().all(|pair| is_pair(pair))
}

fn lowered(alloc: Global, pair: &(Text, Text)) -> Result<(Text, Text), NoMemory>
    ensures { IfOk result (λ lowered. lowered ≡ spec.lowered pair.now) }
{
    let key = lower(alloc, pair.0.as_str())?;
    let value = pair.1.clone()?;
    Ok((key, value))
}

// The pairs under their keys in lower case.
fn all_lowered(alloc: Global, pairs: &[(Text, Text)]) -> Result<Vec<(Text, Text)>, NoMemory>
    ensures { IfOk result (λ all. all.items ≡ map spec.lowered pairs.now) }
{
    let mut all = Vec::new(alloc);
    for pair in pairs {
        all.push(lowered(alloc, pair)?)?;
    }
    Ok(all)
}

fn key_cmp(a: &(Text, Text), b: &(Text, Text)) -> Ordering
    ensures { result ≡ spec.key_cmp a.now b.now }
{
    a.0.as_str().cmp(&b.0.as_str())
}

// Puts pairs in the order of their keys.
fn sort_by_key(pairs: &mut Vec<(Text, Text)>) -> Result<(), NoMemory>
    ensures { OnOk result (pairs.new.items ≡ spec.by_key pairs.old.items) }
{
    pairs.sort_by(|a, b| key_cmp(a, b))?;
    Ok(())
}

// Whether a pair comes after the last of these.
fn is_next(pairs: &[(Text, Text)], pair: &(Text, Text)) -> bool
    ensures { result ≡ is_next pairs.now pair.now }
{
    match pairs.last() {
        None => true,
        Some(last) => last.0.as_str() < pair.0.as_str(),
    }
}

// The pairs, where their keys ascend.
fn ascending(alloc: Global, pairs: Vec<(Text, Text)>) -> Result<Option<Pairs>, NoMemory>
    ensures { IfOk result (λ kept. kept ≡ if_ascending pairs.items) }
{
    let mut kept = Pairs::new(alloc);
    for pair in pairs {
        if !is_next(kept.as_slice(), &pair) {
            return Ok(None);
        }
        kept.push(pair)?;
    }
    Ok(Some(kept))
}

// The pairs by their keys in lower case, where no key stands twice.
fn by_key(alloc: Global, pairs: &[(Text, Text)]) -> Result<Option<Pairs>, NoMemory>
    ensures { IfOk result (λ kept. kept ≡ spec.kept pairs.now) }
{
    let mut all = all_lowered(alloc, pairs)?;
    sort_by_key(&mut all)?;
    ascending(alloc, all)
}

fn metadata_by(alloc: Global, pairs: &[(Text, Text)]) -> Result<Pairs, CheckFault>
    ensures { IsUnlessNoMemory result (spec.metadata_by pairs.now) }
{
    if pairs.len() > MOST_PAIRS || !are_pairs(pairs) {
        return Err(BAD_METADATA);
    }
    match by_key(alloc, pairs) {
        Ok(Some(pairs)) => Ok(pairs),
        Ok(None) => Err(BAD_METADATA),
        Err(_) => Err(CheckFault::NoMemory),
    }
}

/// The metadata that a body asks for: its pairs under their keys in lower case (ASCII), in the order of these. The error is
/// `BadBody` of `metadata` where there is none, or it has more than 100 pairs, a key that isn't 1 to 255 bytes of
/// `A-Z a-z 0-9 - _ .`, a value of more than 255 bytes, or two keys that are equal in lower case.
pub fn check_metadata(alloc: Global, body: &MetadataBody) -> Result<Pairs, CheckFault>
    ensures { IsUnlessNoMemory result (spec.checked_metadata body.now) }
{
    match &body.metadata {
        Some(pairs) => metadata_by(alloc, pairs.as_slice()),
        None => Err(BAD_METADATA),
    }
}
