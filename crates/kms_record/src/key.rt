// The wrapped keys of projects.
ghost use Rattle.std.specs.Prelude.{◌≡◌};
ghost use Rattle.kms_record.specs.Reading.{Finds};
ghost use Rattle.kms_record.specs.KeyReading.{wrapped_key_at, key_dropped_at};

use crate::cursor::Cursor;
use crate::read_error::Malformed;
use crate::window::Window;
use crate::{fields, range, spell};
use kms_world::Name;

/// A key of a project, wrapped under a master key.
#[derive(Drop, Debug)]
pub struct WrappedKey {
    pub project: Name,
    /// the number of the project's key
    pub number: u32,
    pub wrapped: [u8; 140],
}

/// Reads the fields.
#[tactic(auto, unfolding(crate::specs::KeyReading::wrapped_key_at))]
pub fn read_wrapped_key(cursor: &mut Cursor<'_>) -> Result<WrappedKey, Malformed>
    ensures { Finds (λ x. (x, cursor.new)) result (wrapped_key_at cursor.old) }
{
    Ok(WrappedKey {
        project: fields::name(cursor)?,
        number: cursor.four_bytes()?,
        wrapped: fields::wrapped(cursor)?,
    })
}

impl WrappedKey {
    ghost use Rattle.std.specs.Prelude.{◌≡◌, ◌↔◌, IsTrue};
    ghost use Rattle.kms_record.specs.Window.{shown};
    ghost use Rattle.kms_record.specs.Key.{wrapped_key_bytes, IsWrappedKeyInRange, IsWrappedKeyTyped};

    /// Its numbers and lengths are in their ranges.
    pub fn is_in_range(&self) -> bool
        ensures { IsTrue result ↔ IsWrappedKeyInRange self.now }
    {
        range::is_short_name(&self.project)
    }

    /// Writes the fields.
    #[tactic(auto, using(crate::proofs::WindowLaws::shown_twice), unfolding(crate::specs::Key::wrapped_key_bytes))]
    pub(crate) fn write(&self, out: &mut Window)
        requires { IsWrappedKeyInRange self.now }
        ensures spelled { out.new ≡ shown out.old (wrapped_key_bytes self.now) }
        ensures typed { IsWrappedKeyTyped self.now }
    {
        spell::name(out, &self.project);
        spell::long_number(out, self.number);
        out.put(&self.wrapped);
    }
}

/// A key of a project goes.
#[derive(Drop, Debug)]
pub struct KeyDropped {
    pub project: Name,
    pub number: u32,
}

/// Reads the fields.
#[tactic(auto, unfolding(crate::specs::KeyReading::key_dropped_at))]
pub fn read_key_dropped(cursor: &mut Cursor<'_>) -> Result<KeyDropped, Malformed>
    ensures { Finds (λ x. (x, cursor.new)) result (key_dropped_at cursor.old) }
{
    Ok(KeyDropped {
        project: fields::name(cursor)?,
        number: cursor.four_bytes()?,
    })
}

impl KeyDropped {
    ghost use Rattle.std.specs.Prelude.{◌≡◌, ◌↔◌, IsTrue};
    ghost use Rattle.kms_record.specs.Window.{shown};
    ghost use Rattle.kms_record.specs.Key.{key_dropped_bytes, IsKeyDroppedInRange, IsKeyDroppedTyped};

    /// Its numbers and lengths are in their ranges.
    pub fn is_in_range(&self) -> bool
        ensures { IsTrue result ↔ IsKeyDroppedInRange self.now }
    {
        range::is_short_name(&self.project)
    }

    /// Writes the fields.
    #[tactic(auto, using(crate::proofs::WindowLaws::shown_twice), unfolding(crate::specs::Key::key_dropped_bytes))]
    pub(crate) fn write(&self, out: &mut Window)
        requires { IsKeyDroppedInRange self.now }
        ensures spelled { out.new ≡ shown out.old (key_dropped_bytes self.now) }
        ensures typed { IsKeyDroppedTyped self.now }
    {
        spell::name(out, &self.project);
        spell::long_number(out, self.number);
    }
}
