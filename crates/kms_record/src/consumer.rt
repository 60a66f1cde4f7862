// Consumers of containers.
ghost use Rattle.std.specs.Prelude.{◌≡◌};
ghost use Rattle.kms_record.specs.Reading.{Gives};
ghost use Rattle.kms_record.specs.ConsumerReading.{consumer_added_at, consumer_dropped_at};

use crate::cursor::Cursor;
use crate::read_error::ReadError;
use crate::window::Window;
use crate::{fields, range, spell};
use kms_world::{ConsumerRow, Text, id_of};
use std::alloc::Global;

/// A container gets a consumer.
#[derive(Drop, Debug)]
pub struct ConsumerAdded {
    /// the count of the container's id under the store's tag, below 2^62
    pub container: u64,
    /// at most 255 bytes
    pub name: Text,
    /// at most 255 bytes
    pub url: Text,
    /// in seconds since 1970, below the year 10000
    pub created: u64,
}

/// Reads the fields.
#[tactic(auto, unfolding(crate::specs::ConsumerReading::consumer_added_at))]
pub fn read_consumer_added(
    alloc: Global,
    cursor: &mut Cursor<'_>,
) -> Result<ConsumerAdded, ReadError>
    ensures { Gives (λ x. (x, cursor.new)) result (consumer_added_at cursor.old) }
{
    Ok(ConsumerAdded {
        container: fields::id(cursor)?,
        name: fields::short_text(alloc, cursor)?,
        url: fields::short_text(alloc, cursor)?,
        created: fields::time(cursor)?,
    })
}

impl ConsumerAdded {
    ghost use Rattle.std.specs.Prelude.{◌≡◌, ◌<◌, ◌^◌, ◌↔◌, IsTrue};
    ghost use Rattle.kms_record.specs.ChangeEffect.{consumer_at};
    ghost use Rattle.kms_record.specs.Window.{shown};
    ghost use Rattle.kms_record.specs.Consumer.{consumer_added_bytes, IsConsumerAddedInRange, IsConsumerAddedTyped};

    /// The row that it puts under the store's tag.
    pub fn into_row(self, tag: u64) -> ConsumerRow
        requires tag { tag < 2 ^ 60 }
        requires range { IsConsumerAddedInRange self }
        ensures { result ≡ consumer_at tag self }
    {
        ConsumerRow {
            container: id_of(tag, self.container),
            name: self.name,
            url: self.url,
            created: self.created,
        }
    }

    /// Its numbers and lengths are in their ranges.
    pub fn is_in_range(&self) -> bool
        ensures { IsTrue result ↔ IsConsumerAddedInRange self.now }
    {
        range::is_id(self.container)
            && range::is_short_text(&self.name)
            && range::is_short_text(&self.url)
            && range::is_time(self.created)
    }

    /// Writes the fields.
    #[tactic(auto, using(crate::proofs::WindowLaws::shown_twice), unfolding(crate::specs::Consumer::consumer_added_bytes))]
    pub(crate) fn write(&self, out: &mut Window)
        requires { IsConsumerAddedInRange self.now }
        ensures spelled { out.new ≡ shown out.old (consumer_added_bytes self.now) }
        ensures typed { IsConsumerAddedTyped self.now }
    {
        spell::number(out, self.container);
        spell::text(out, &self.name);
        spell::text(out, &self.url);
        spell::number(out, self.created);
    }
}

/// A consumer goes.
#[derive(Drop, Debug)]
pub struct ConsumerDropped {
    /// the count of the container's id under the store's tag, below 2^62
    pub container: u64,
    pub name: Text,
    pub url: Text,
}

/// Reads the fields.
#[tactic(auto, unfolding(crate::specs::ConsumerReading::consumer_dropped_at))]
pub fn read_consumer_dropped(
    alloc: Global,
    cursor: &mut Cursor<'_>,
) -> Result<ConsumerDropped, ReadError>
    ensures { Gives (λ x. (x, cursor.new)) result (consumer_dropped_at cursor.old) }
{
    Ok(ConsumerDropped {
        container: fields::id(cursor)?,
        name: fields::short_text(alloc, cursor)?,
        url: fields::short_text(alloc, cursor)?,
    })
}

impl ConsumerDropped {
    ghost use Rattle.std.specs.Prelude.{◌≡◌, ◌↔◌, IsTrue};
    ghost use Rattle.kms_record.specs.Window.{shown};
    ghost use Rattle.kms_record.specs.Consumer.{consumer_dropped_bytes, IsConsumerDroppedInRange, IsConsumerDroppedTyped};

    /// Its numbers and lengths are in their ranges.
    pub fn is_in_range(&self) -> bool
        ensures { IsTrue result ↔ IsConsumerDroppedInRange self.now }
    {
        range::is_id(self.container)
            && range::is_short_text(&self.name)
            && range::is_short_text(&self.url)
    }

    /// Writes the fields.
    #[tactic(auto, using(crate::proofs::WindowLaws::shown_twice), unfolding(crate::specs::Consumer::consumer_dropped_bytes))]
    pub(crate) fn write(&self, out: &mut Window)
        requires { IsConsumerDroppedInRange self.now }
        ensures spelled { out.new ≡ shown out.old (consumer_dropped_bytes self.now) }
        ensures typed { IsConsumerDroppedTyped self.now }
    {
        spell::number(out, self.container);
        spell::text(out, &self.name);
        spell::text(out, &self.url);
    }
}
