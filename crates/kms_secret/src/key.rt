// Keys of metadata.
ghost use Rattle.std.specs.Prelude.{◌≡◌, IfOk};
ghost use Rattle.std.specs.List.{list_all};
ghost use Rattle.std.specs.Str.{str_to_ascii_lowercase};
ghost use Rattle.kms_world.specs.Name.{is_name_byte};
ghost use Rattle.kms_secret.specs.Key as spec;

use crate::fields::MOST_BYTES;
use kms_world::{NoMemory, Text, is_name_byte};
use std::alloc::Global;

fn are_key_bytes(key: &[u8]) -> bool
    ensures { result ≡ list_all is_name_byte key.now }
{
    key.iter().all(|b| is_name_byte(*b))
}

/// Whether a text has the form of a key.
pub fn is_key(key: &str) -> bool
    ensures { result ≡ spec.is_key key.now }
{
    let key = key.as_bytes();
    !key.is_empty() && key.len() <= MOST_BYTES && are_key_bytes(key)
}

/// A text in lower case (ASCII).
pub fn lower(alloc: Global, text: &str) -> Result<Text, NoMemory>
    ensures { IfOk result (λ lower. lower ≡ str_to_ascii_lowercase text.now) }
{
    let lower = text.to_ascii_lowercase(alloc)?;
    Text::of(alloc, lower.as_str())
}

/// The key of metadata that a text names, in a body or in a path: the text in lower case (ASCII). `Ok(None)` exactly where the
/// text isn't 1 to 255 bytes of `A-Z a-z 0-9 - _ .`.
pub fn read_key(alloc: Global, text: &str) -> Result<Option<Text>, NoMemory>
    ensures { IfOk result (λ key. key ≡ spec.key_of text.now) }
{
    if !is_key(text) {
        return Ok(None);
    }
    Ok(Some(lower(alloc, text)?))
}
