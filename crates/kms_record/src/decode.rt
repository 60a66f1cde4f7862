// Bytes to steps and snapshots.
ghost use Rattle.std.specs.Prelude.{◌≡◌, List, IfOk, MatchOption};
ghost use Rattle.kms_record.specs.declared.change.Change.{Change as Changed};
ghost use Rattle.kms_record.specs.Grammar.{IsRecord, IsSnapshot};
ghost use Rattle.kms_record.specs.Reading.{Gives, many};
ghost use Rattle.kms_record.specs.GrammarReading.{change_at, step_at, record_of, snapshot_of};

use crate::acl::read_acl_put;
use crate::consumer::{read_consumer_added, read_consumer_dropped};
use crate::container::read_container_put;
use crate::cursor::Cursor;
use crate::key::{read_key_dropped, read_wrapped_key};
use crate::metadata::read_metadata_put;
use crate::order::read_order_put;
use crate::payload::{read_payload_put, read_token_replaced};
use crate::quota::read_quota_put;
use crate::read_error::ReadError;
use crate::secret_put::read_secret_put;
use crate::{Change, Changes, Step, Steps, fields};
use kms_world::NoMemory;
use std::alloc::Global;

#[tactic(auto, unfolding(crate::specs::Reading::alternatives_at))]
fn read_change(alloc: Global, cursor: &mut Cursor<'_>) -> Result<Change, ReadError>
    ensures { Gives (λ x. (x, cursor.new)) result (change_at cursor.old) }
{
    match cursor.byte()? {
        1 => Ok(Change::KeyAdded(read_wrapped_key(cursor)?)),
        2 => Ok(Change::KeyRewrapped(read_wrapped_key(cursor)?)),
        3 => Ok(Change::TokenReplaced(read_token_replaced(alloc, cursor)?)),
        4 => Ok(Change::KeyDropped(read_key_dropped(cursor)?)),
        5 => Ok(Change::SecretPut(read_secret_put(alloc, cursor)?)),
        6 => Ok(Change::PayloadPut(read_payload_put(alloc, cursor)?)),
        7 => Ok(Change::MetadataPut(read_metadata_put(alloc, cursor)?)),
        8 => Ok(Change::ContainerPut(read_container_put(alloc, cursor)?)),
        9 => Ok(Change::ConsumerAdded(read_consumer_added(alloc, cursor)?)),
        10 => Ok(Change::ConsumerDropped(read_consumer_dropped(alloc, cursor)?)),
        11 => Ok(Change::AclPut(read_acl_put(alloc, cursor)?)),
        12 => Ok(Change::AclDropped(fields::id(cursor)?)),
        13 => Ok(Change::OrderPut(read_order_put(alloc, cursor)?)),
        14 => Ok(Change::QuotaPut(read_quota_put(cursor)?)),
        15 => Ok(Change::Deleted(fields::id(cursor)?)),
        _ => Err(ReadError::Malformed),
    }
}

fn read_changes(alloc: Global, cursor: &mut Cursor<'_>, count: u16) -> Result<Step, ReadError>
    ensures { Gives (λ x. (x, cursor.new)) result (many change_at count cursor.old) }
{
    let mut step = Step::new(alloc);
    for _ in 0..count {
        step.push(read_change(alloc, cursor)?)?;
    }
    Ok(step)
}

#[tactic(auto, unfolding(crate::specs::GrammarReading::step_at))]
fn read_step(alloc: Global, cursor: &mut Cursor<'_>) -> Result<Step, ReadError>
    ensures { Gives (λ x. (x, cursor.new)) result (step_at cursor.old) }
{
    let count = cursor.two_bytes()?;
    if count == 0 {
        return Err(ReadError::Malformed);
    }
    read_changes(alloc, cursor, count)
}

fn read_steps(alloc: Global, cursor: &mut Cursor<'_>, count: u32) -> Result<Steps, ReadError>
    ensures { Gives (λ x. (x, cursor.new)) result (many step_at count cursor.old) }
{
    let mut steps = Steps::new(alloc);
    for _ in 0..count {
        steps.push(read_step(alloc, cursor)?)?;
    }
    Ok(steps)
}

#[tactic(auto, unfolding(crate::specs::GrammarReading::record_of))]
fn read_record(alloc: Global, body: &[u8]) -> Result<Steps, ReadError>
    ensures { Gives (λ x. x) result (record_of body.now) }
{
    let mut cursor = Cursor::new(body);
    let count = cursor.four_bytes()?;
    if count == 0 {
        return Err(ReadError::Malformed);
    }
    let steps = read_steps(alloc, &mut cursor, count)?;
    if !cursor.is_empty() {
        return Err(ReadError::Malformed);
    }
    Ok(steps)
}

fn read_all_changes(
    alloc: Global,
    cursor: &mut Cursor<'_>,
    count: u64,
) -> Result<Changes, ReadError>
    ensures { Gives (λ x. (x, cursor.new)) result (many change_at count cursor.old) }
{
    let mut changes = Changes::new(alloc);
    for _ in 0..count {
        changes.push(read_change(alloc, cursor)?)?;
    }
    Ok(changes)
}

#[tactic(auto, unfolding(crate::specs::GrammarReading::snapshot_of))]
fn read_snapshot(alloc: Global, body: &[u8]) -> Result<Changes, ReadError>
    ensures { Gives (λ x. x) result (snapshot_of body.now) }
{
    let mut cursor = Cursor::new(body);
    let count = cursor.eight_bytes()?;
    let changes = read_all_changes(alloc, &mut cursor, count)?;
    if !cursor.is_empty() {
        return Err(ReadError::Malformed);
    }
    Ok(changes)
}

/// The steps of a record. None exactly where the bytes are no record. It takes memory for what was read, never for
/// what a count claims.
pub fn decode_body(alloc: Global, body: &[u8]) -> Result<Option<Steps>, NoMemory>
    ensures { IfOk result (λ read. MatchOption read
        ((steps : List (List Changed)) → ¬ IsRecord body.now steps)
        (λ steps. IsRecord body.now steps)) }
{
    match read_record(alloc, body) {
        Ok(steps) => Ok(Some(steps)),
        Err(ReadError::Malformed) => Ok(None),
        Err(ReadError::NoMemory) => Err(NoMemory),
    }
}

/// The changes of a snapshot. None exactly where the bytes are no snapshot; the one of an empty store has no changes.
pub fn decode_base(alloc: Global, body: &[u8]) -> Result<Option<Changes>, NoMemory>
    ensures { IfOk result (λ read. MatchOption read
        ((changes : List Changed) → ¬ IsSnapshot body.now changes)
        (λ changes. IsSnapshot body.now changes)) }
{
    match read_snapshot(alloc, body) {
        Ok(changes) => Ok(Some(changes)),
        Err(ReadError::Malformed) => Ok(None),
        Err(ReadError::NoMemory) => Err(NoMemory),
    }
}
