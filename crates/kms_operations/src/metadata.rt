// Operations on the metadata of secrets.
ghost use Rattle.std.specs.Prelude.{◌≡◌, ◌<◌, IfOk, Ok, find, length, nat_lt, option_and_then, option_copied};
ghost use Rattle.std.specs.Str.{bytes_eq};
ghost use Rattle.kms_model.specs.Done.{there};
ghost use Rattle.kms_model.specs.Metadata as spec;
ghost use Rattle.kms_operations.specs.Found.{Finds};
ghost use Rattle.kms_operations.specs.Outcome.{Comes, IsPossible};
ghost use Rattle.kms_secret.specs.Key.{key_of};
ghost use Rattle.kms_secret.specs.Metadata.{has_key};
ghost use Rattle.kms_world.specs.Checked.{IsUnlessNoMemory};

use crate::Outcome;
use crate::body::given;
use crate::count::count_of;
use crate::pairs::{copied, with_pair, without_key};
use crate::secrets::{live_secret, secret_for};
use kms_record::{Change, MetadataPut};
use kms_secret::{check_metadata, check_pair, read_key};
use kms_store::Tables;
use kms_world::{
    Action, Answer, Caller, CheckFault, Field, Id, Link, MetadataBody, PairBody, Pairs, Refusal,
    Text,
};
use std::alloc::Global;

const MOST_PAIRS: usize = 100;

// The key that a text in a path names.
fn key_of(alloc: Global, text: &Option<Text>) -> Result<Option<Text>, CheckFault>
    ensures { IsUnlessNoMemory result (Ok (option_and_then key_of text.now)) }
{
    let Some(text) = text else {
        return Ok(None);
    };
    match read_key(alloc, text.as_str()) {
        Ok(key) => Ok(key),
        Err(_) => Err(CheckFault::NoMemory),
    }
}

// The pair with this key.
fn pair_with<'a>(key: &Text, pairs: &'a [(Text, Text)]) -> Option<&'a (Text, Text)>
    ensures { option_copied result ≡ find (λ p. bytes_eq key.now p.0) pairs.now }
{
    pairs.iter().find(|pair| key.as_str() == pair.0.as_str())
}

// The pair whose key a text in a path names.
fn pair_for<'a>(
    alloc: Global,
    text: &Option<Text>,
    pairs: &'a [(Text, Text)],
) -> Result<&'a (Text, Text), CheckFault>
    ensures { Finds result (there (spec.pair_of text.now pairs.now)) }
{
    let Some(key) = key_of(alloc, text)? else {
        return Err(CheckFault::Refused(Refusal::NoObject));
    };
    match pair_with(&key, pairs) {
        Some(pair) => Ok(pair),
        None => Err(CheckFault::Refused(Refusal::NoObject)),
    }
}

fn has_key(key: &Text, pairs: &[(Text, Text)]) -> bool
    ensures { result ≡ has_key key.now pairs.now }
{
    pairs.iter().any(|pair| key.as_str() == pair.0.as_str())
}

fn has_room(pairs: &[(Text, Text)]) -> bool
    ensures { result ≡ nat_lt (length pairs.now) 100 }
{
    pairs.len() < MOST_PAIRS
}

fn same_key(a: &Text, b: &Text) -> bool
    ensures { result ≡ bytes_eq a.now b.now }
{
    a.as_str() == b.as_str()
}

// One pair more is taken, with this key.
fn may_add(key: &Text, pairs: &[(Text, Text)]) -> Result<(), CheckFault>
    ensures { IsUnlessNoMemory result (spec.may_add key.now pairs.now) }
{
    if !has_room(pairs) {
        return Err(CheckFault::Refused(Refusal::BadBody(Field::Metadata)));
    }
    if has_key(key, pairs) {
        return Err(CheckFault::Refused(Refusal::Conflict));
    }
    Ok(())
}

// The pairs with this one, if there is memory.
fn put_among(alloc: Global, pair: &(Text, Text), pairs: &Pairs) -> Result<Pairs, CheckFault>
    ensures { IsUnlessNoMemory result (Ok (spec.with_pair pair.now pairs.now)) }
{
    match with_pair(alloc, pair, pairs) {
        Ok(pairs) => Ok(pairs),
        Err(_) => Err(CheckFault::NoMemory),
    }
}

// The pairs but for the one with this key, if there is memory.
fn others(alloc: Global, key: &Text, pairs: &Pairs) -> Result<Pairs, CheckFault>
    ensures { IsUnlessNoMemory result (Ok (spec.without_key key.now pairs.now)) }
{
    match without_key(alloc, key, pairs) {
        Ok(pairs) => Ok(pairs),
        Err(_) => Err(CheckFault::NoMemory),
    }
}

// A copy of a pair, if there is memory.
fn one_copied(pair: &(Text, Text)) -> Result<(Text, Text), CheckFault>
    ensures { IsUnlessNoMemory result (Ok pair.now) }
{
    match copied(pair) {
        Ok(copy) => Ok(copy),
        Err(_) => Err(CheckFault::NoMemory),
    }
}

// A copy of all pairs.
fn all_copied(pairs: &Pairs) -> Result<Pairs, CheckFault>
    ensures { IsUnlessNoMemory result (Ok pairs.now) }
{
    match pairs.copied() {
        Ok(copy) => Ok(copy),
        Err(_) => Err(CheckFault::NoMemory),
    }
}

pub fn shown(
    rows: &Tables,
    caller: &Caller,
    id: Option<Id>,
    moment: u64,
) -> Result<Outcome, CheckFault>
    ensures comes { Comes rows.now.kept.state.tag result (spec.metadata_shown rows.now.kept.state caller.now id moment) }
    ensures possible { IfOk result (IsPossible rows.now.kept) }
{
    let found = live_secret(rows, id, moment);
    let secret = secret_for(rows, caller, Action::SecretGet, found)?;
    Ok(Outcome {
        answer: Answer::Metadata(all_copied(&secret.row().metadata)?),
        change: None,
    })
}

pub fn put(
    alloc: Global,
    rows: &Tables,
    caller: &Caller,
    id: Option<Id>,
    body: Result<MetadataBody, Refusal>,
    moment: u64,
) -> Result<Outcome, CheckFault>
    requires time { moment < 253402300800 }
    ensures comes { Comes rows.now.kept.state.tag result (spec.metadata_put rows.now.kept.state caller.now id body moment) }
    ensures possible { IfOk result (IsPossible rows.now.kept) }
{
    let found = live_secret(rows, id, moment);
    let secret = secret_for(rows, caller, Action::SecretWrite, found)?;
    let body = given(body)?;
    let pairs = check_metadata(alloc, &body)?;
    let id = secret.row().id;
    Ok(Outcome {
        answer: Answer::Link {
            status: 201,
            link: Link::Metadata,
            id,
        },
        change: Some(Change::MetadataPut(MetadataPut {
            secret: count_of(id),
            updated: moment,
            pairs,
        })),
    })
}

pub fn post_pair(
    alloc: Global,
    rows: &Tables,
    caller: &Caller,
    id: Option<Id>,
    body: Result<PairBody, Refusal>,
    moment: u64,
) -> Result<Outcome, CheckFault>
    requires time { moment < 253402300800 }
    ensures comes { Comes rows.now.kept.state.tag result (spec.pair_posted rows.now.kept.state caller.now id body moment) }
    ensures possible { IfOk result (IsPossible rows.now.kept) }
{
    let found = live_secret(rows, id, moment);
    let secret = secret_for(rows, caller, Action::SecretWrite, found)?;
    let body = given(body)?;
    let pair = check_pair(alloc, &body)?;
    may_add(&pair.0, secret.row().metadata.as_slice())?;
    let pairs = put_among(alloc, &pair, &secret.row().metadata)?;
    Ok(Outcome {
        answer: Answer::Pair {
            status: 201,
            key: pair.0,
            value: pair.1,
        },
        change: Some(Change::MetadataPut(MetadataPut {
            secret: count_of(secret.row().id),
            updated: moment,
            pairs,
        })),
    })
}

pub fn show_pair(
    alloc: Global,
    rows: &Tables,
    caller: &Caller,
    id: Option<Id>,
    key: &Option<Text>,
    moment: u64,
) -> Result<Outcome, CheckFault>
    ensures comes { Comes rows.now.kept.state.tag result (spec.pair_shown rows.now.kept.state caller.now id key.now moment) }
    ensures possible { IfOk result (IsPossible rows.now.kept) }
{
    let found = live_secret(rows, id, moment);
    let secret = secret_for(rows, caller, Action::SecretGet, found)?;
    let pair = pair_for(alloc, key, secret.row().metadata.as_slice())?;
    let (key, value) = one_copied(pair)?;
    Ok(Outcome {
        answer: Answer::Pair {
            status: 200,
            key,
            value,
        },
        change: None,
    })
}

pub fn put_pair(
    alloc: Global,
    rows: &Tables,
    caller: &Caller,
    id: Option<Id>,
    key: &Option<Text>,
    body: Result<PairBody, Refusal>,
    moment: u64,
) -> Result<Outcome, CheckFault>
    requires time { moment < 253402300800 }
    ensures comes { Comes rows.now.kept.state.tag result (spec.pair_put rows.now.kept.state caller.now id key.now body moment) }
    ensures possible { IfOk result (IsPossible rows.now.kept) }
{
    let found = live_secret(rows, id, moment);
    let secret = secret_for(rows, caller, Action::SecretWrite, found)?;
    let old = pair_for(alloc, key, secret.row().metadata.as_slice())?;
    let body = given(body)?;
    let pair = check_pair(alloc, &body)?;
    if !same_key(&pair.0, &old.0) {
        return Err(CheckFault::Refused(Refusal::BadBody(Field::Key)));
    }
    let pairs = put_among(alloc, &pair, &secret.row().metadata)?;
    Ok(Outcome {
        answer: Answer::Pair {
            status: 200,
            key: pair.0,
            value: pair.1,
        },
        change: Some(Change::MetadataPut(MetadataPut {
            secret: count_of(secret.row().id),
            updated: moment,
            pairs,
        })),
    })
}

pub fn delete_pair(
    alloc: Global,
    rows: &Tables,
    caller: &Caller,
    id: Option<Id>,
    key: &Option<Text>,
    moment: u64,
) -> Result<Outcome, CheckFault>
    requires time { moment < 253402300800 }
    ensures comes { Comes rows.now.kept.state.tag result (spec.pair_deleted rows.now.kept.state caller.now id key.now moment) }
    ensures possible { IfOk result (IsPossible rows.now.kept) }
{
    let found = live_secret(rows, id, moment);
    let secret = secret_for(rows, caller, Action::SecretWrite, found)?;
    let pair = pair_for(alloc, key, secret.row().metadata.as_slice())?;
    let pairs = others(alloc, &pair.0, &secret.row().metadata)?;
    Ok(Outcome {
        answer: Answer::Empty(204),
        change: Some(Change::MetadataPut(MetadataPut {
            secret: count_of(secret.row().id),
            updated: moment,
            pairs,
        })),
    })
}
