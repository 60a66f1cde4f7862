// The metadata of secrets.
ghost use Rattle.std.specs.Prelude.{◌≡◌, ◌↔◌, ◌≤◌, length, IsTrue};
ghost use Rattle.std.specs.List.{flat_map, list_all, AllByRecursion};
ghost use Rattle.kms_world.specs.Pairs.{is_below};
ghost use Rattle.kms_record.specs.Fields.{list_bytes};
ghost use Rattle.kms_record.specs.Metadata.{pair_bytes, IsPairInRange, IsPairTyped, ArePairsInRange, ArePairsTyped};
ghost use Rattle.kms_record.specs.Reading.{Gives, many, passing};
ghost use Rattle.kms_record.specs.MetadataReading.{pair_at, are_ascending, pairs_at, metadata_put_at};
ghost use Rattle.kms_record.specs.Window.{shown};

use crate::cursor::Cursor;
use crate::read_error::ReadError;
use crate::window::Window;
use crate::{fields, range, spell};
use kms_world::{Pairs, Text};
use std::alloc::Global;

/// A secret gets this metadata, in the place of all that it had.
#[derive(Drop, Debug)]
pub struct MetadataPut {
    /// the count of the secret's id under the store's tag, below 2^62
    pub secret: u64,
    /// in seconds since 1970, below the year 10000
    pub updated: u64,
    /// at most 100; keys and values have at most 255 bytes
    pub pairs: Pairs,
}

/// Reads the fields.
#[tactic(auto, unfolding(crate::specs::MetadataReading::metadata_put_at))]
pub fn read_metadata_put(alloc: Global, cursor: &mut Cursor<'_>) -> Result<MetadataPut, ReadError>
    ensures { Gives (λ x. (x, cursor.new)) result (metadata_put_at cursor.old) }
{
    Ok(MetadataPut {
        secret: fields::id(cursor)?,
        updated: fields::time(cursor)?,
        pairs: read_pairs(alloc, cursor)?,
    })
}

impl MetadataPut {
    ghost use Rattle.std.specs.Prelude.{◌≡◌, ◌↔◌, IsTrue};
    ghost use Rattle.kms_record.specs.Window.{shown};
    ghost use Rattle.kms_record.specs.Metadata.{metadata_put_bytes, IsMetadataPutInRange, IsMetadataPutTyped};

    /// Its numbers and lengths are in their ranges.
    pub fn is_in_range(&self) -> bool
        ensures { IsTrue result ↔ IsMetadataPutInRange self.now }
    {
        range::is_id(self.secret)
            && range::is_time(self.updated)
            && are_pairs_in_range(self.pairs.as_slice())
    }

    /// Writes the fields.
    #[tactic(auto, using(crate::proofs::WindowLaws::shown_twice), unfolding(crate::specs::Metadata::metadata_put_bytes))]
    pub(crate) fn write(&self, out: &mut Window)
        requires { IsMetadataPutInRange self.now }
        ensures spelled { out.new ≡ shown out.old (metadata_put_bytes self.now) }
        ensures typed { IsMetadataPutTyped self.now }
    {
        spell::number(out, self.secret);
        spell::number(out, self.updated);
        write_pairs(out, &self.pairs);
    }
}

#[tactic(auto, unfolding(crate::specs::MetadataReading::pair_at))]
fn read_pair(alloc: Global, cursor: &mut Cursor<'_>) -> Result<(Text, Text), ReadError>
    ensures { Gives (λ x. (x, cursor.new)) result (pair_at cursor.old) }
{
    let key = fields::short_text(alloc, cursor)?;
    let value = fields::short_text(alloc, cursor)?;
    Ok((key, value))
}

fn comes_before(pair: &(Text, Text), key: &Text) -> bool
    ensures { result ≡ is_below pair.now.0 key.now }
{
    pair.0.as_str() < key.as_str()
}

// Each key comes before this one.
fn are_below(pairs: &[(Text, Text)], key: &Text) -> bool
    ensures { result ≡ list_all (λ p. is_below p.0 key.now) pairs.now }
{
    pairs.iter().all(|pair| comes_before(pair, key))
}

fn read_ascending(alloc: Global, cursor: &mut Cursor<'_>, count: u8) -> Result<Pairs, ReadError>
    ensures { Gives (λ x. (x, cursor.new)) result (passing are_ascending (many pair_at count) cursor.old) }
{
    let mut pairs = Pairs::new(alloc);
    for _ in 0..count {
        let pair = read_pair(alloc, cursor)?;
        if !are_below(pairs.as_slice(), &pair.0) {
            return Err(ReadError::Malformed);
        }
        pairs.push(pair)?;
    }
    Ok(pairs)
}

#[tactic(auto, unfolding(crate::specs::Reading::list_at))]
fn read_pairs(alloc: Global, cursor: &mut Cursor<'_>) -> Result<Pairs, ReadError>
    ensures { Gives (λ x. (x, cursor.new)) result (pairs_at cursor.old) }
{
    let count = fields::list_count(cursor)?;
    read_ascending(alloc, cursor, count)
}

fn is_pair_in_range(pair: &(Text, Text)) -> bool
    ensures { IsTrue result ↔ IsPairInRange pair.now }
{
    range::is_short_text(&pair.0) && range::is_short_text(&pair.1)
}

fn is_each_pair_in_range(pairs: &[(Text, Text)]) -> bool
    ensures { IsTrue result ↔ AllByRecursion IsPairInRange pairs.now }
{
    for pair in pairs {
        if !is_pair_in_range(pair) {
            return false;
        }
    }
    true
}

/// There are at most 100 pairs, of keys and values of at most 255 bytes.
pub(crate) fn are_pairs_in_range(pairs: &[(Text, Text)]) -> bool
    ensures { IsTrue result ↔ ArePairsInRange pairs.now }
{
    pairs.len() <= 100 && is_each_pair_in_range(pairs)
}

#[tactic(auto, using(crate::proofs::WindowLaws::shown_twice), unfolding(crate::specs::Metadata::pair_bytes))]
fn write_pair(out: &mut Window, pair: &(Text, Text))
    requires { IsPairInRange pair.now }
    ensures spelled { out.new ≡ shown out.old (pair_bytes pair.now) }
    ensures typed { IsPairTyped pair.now }
{
    spell::text(out, &pair.0);
    spell::text(out, &pair.1);
}

fn write_each_pair(out: &mut Window, pairs: &[(Text, Text)])
    requires { AllByRecursion IsPairInRange pairs.now }
    ensures spelled { out.new ≡ shown out.old (flat_map pair_bytes pairs.now) }
    ensures typed { AllByRecursion IsPairTyped pairs.now }
{
    for pair in pairs {
        write_pair(out, pair);
    }
}

/// Writes the number of pairs, and the pairs.
#[tactic(auto, using(crate::proofs::WindowLaws::shown_twice))]
pub(crate) fn write_pairs(out: &mut Window, pairs: &Pairs)
    requires { ArePairsInRange pairs.now }
    ensures spelled { out.new ≡ shown out.old (list_bytes pair_bytes pairs.now) }
    ensures typed { ArePairsTyped pairs.now }
{
    let pairs = pairs.as_slice();
    spell::byte(out, pairs.len() as u8);
    write_each_pair(out, pairs);
}
