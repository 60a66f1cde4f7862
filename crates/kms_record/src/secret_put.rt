// A secret is put.
ghost use Rattle.std.specs.Prelude.{◌≡◌};
ghost use Rattle.kms_record.specs.Reading.{Gives};
ghost use Rattle.kms_record.specs.SecretPutReading.{secret_put_at};

use crate::cursor::Cursor;
use crate::read_error::ReadError;
use crate::window::Window;
use crate::{fields, range, spell};
use kms_world::{Bytes, Name, NoMemory, Pairs, SecretKind, SecretRow, Text, copied, id_of};
use std::alloc::Global;

/// A secret comes, without payload and metadata. Times are whole seconds since 1970, below the year 10000; texts have
/// at most 255 bytes; a bit length is 1 to 32,767.
#[derive(Drop, Debug)]
pub struct SecretPut {
    /// the count of its id under the store's tag, below 2^62
    pub id: u64,
    pub project: Name,
    /// the user who made it
    pub creator: Name,
    pub created: u64,
    pub updated: u64,
    pub name: Option<Text>,
    pub algorithm: Option<Text>,
    pub bit_length: Option<u16>,
    pub mode: Option<Text>,
    pub kind: SecretKind,
    /// from this time on the secret isn't there any more
    pub expiration: Option<u64>,
}

/// Reads the fields.
#[tactic(auto, unfolding(crate::specs::SecretPutReading::secret_put_at))]
pub fn read_secret_put(alloc: Global, cursor: &mut Cursor<'_>) -> Result<SecretPut, ReadError>
    ensures { Gives (λ x. (x, cursor.new)) result (secret_put_at cursor.old) }
{
    Ok(SecretPut {
        id: fields::id(cursor)?,
        project: fields::name(cursor)?,
        creator: fields::name(cursor)?,
        created: fields::time(cursor)?,
        updated: fields::time(cursor)?,
        name: fields::optional_text(alloc, cursor)?,
        algorithm: fields::optional_text(alloc, cursor)?,
        bit_length: fields::optional_bit_length(cursor)?,
        mode: fields::optional_text(alloc, cursor)?,
        kind: fields::secret_kind(cursor)?,
        expiration: fields::optional_time(cursor)?,
    })
}

impl SecretPut {
    ghost use Rattle.std.specs.Prelude.{◌≡◌, ◌<◌, ◌^◌, ◌++◌, ◌↔◌, IsTrue, IfOk, OnOk};
    ghost use Rattle.kms_record.specs.Window.{shown};
    ghost use Rattle.kms_record.specs.SecretPut.{secret_put_bytes, IsInRange, IsTextual, row_of, put_of};

    /// What puts this row's attributes under the id of this count.
    pub fn of(row: &SecretRow, count: u64) -> Result<SecretPut, NoMemory>
        ensures { IfOk result (λ put. put ≡ put_of count row.now) }
    {
        Ok(SecretPut {
            id: count,
            project: row.project,
            creator: row.creator,
            created: row.created,
            updated: row.updated,
            name: copied(&row.name)?,
            algorithm: copied(&row.algorithm)?,
            bit_length: row.bit_length,
            mode: copied(&row.mode)?,
            kind: row.kind,
            expiration: row.expiration,
        })
    }

    /// The row that it puts under the store's tag.
    pub fn into_row(self, alloc: Global, tag: u64) -> SecretRow
        requires tag { tag < 2 ^ 60 }
        requires id { self.id < 2 ^ 62 }
        ensures { result ≡ row_of tag self }
    {
        SecretRow {
            id: id_of(tag, self.id),
            project: self.project,
            creator: self.creator,
            created: self.created,
            updated: self.updated,
            name: self.name,
            algorithm: self.algorithm,
            bit_length: self.bit_length,
            mode: self.mode,
            kind: self.kind,
            expiration: self.expiration,
            payload: None,
            metadata: Pairs::new(alloc),
        }
    }

    /// Its numbers and lengths are in their ranges.
    pub fn is_in_range(&self) -> bool
        ensures { IsTrue result ↔ IsInRange self.now }
    {
        range::is_id(self.id)
            && range::is_short_name(&self.project)
            && range::is_short_name(&self.creator)
            && range::is_time(self.created)
            && range::is_time(self.updated)
            && range::is_short(&self.name)
            && range::is_short(&self.algorithm)
            && range::is_optional_bit_length(self.bit_length)
            && range::is_short(&self.mode)
            && range::is_expiration(self.expiration)
    }

    /// Writes the fields.
    #[tactic(auto, using(crate::proofs::WindowLaws::shown_twice), unfolding(crate::specs::SecretPut::secret_put_bytes))]
    pub(crate) fn write(&self, out: &mut Window)
        requires { IsInRange self.now }
        ensures spelled { out.new ≡ shown out.old (secret_put_bytes self.now) }
        ensures textual { IsTextual self.now }
    {
        spell::number(out, self.id);
        spell::name(out, &self.project);
        spell::name(out, &self.creator);
        spell::number(out, self.created);
        spell::number(out, self.updated);
        spell::optional_text(out, &self.name);
        spell::optional_text(out, &self.algorithm);
        spell::optional_bit_length(out, self.bit_length);
        spell::optional_text(out, &self.mode);
        spell::secret_kind(out, self.kind);
        spell::optional_time(out, self.expiration);
    }
}
