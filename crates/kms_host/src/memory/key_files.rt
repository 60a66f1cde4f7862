// Key files by their names.
ghost use Rattle.std.specs.Prelude.{◌≡◌, None, if◌then◌else◌, option_copied, find};
ghost use Rattle.std.specs.Str.{bytes_eq};
ghost use Rattle.kms_host.specs.KeyFiles.{named};

use crate::Bytes;

fn found<'a>(key_files: &'a [(Bytes, Bytes)], name: &str) -> Option<&'a (Bytes, Bytes)>
    ensures { option_copied result ≡ find (λ f. bytes_eq f.0 name.now) key_files.now }
{
    key_files
        .iter()
        .find(|file| file.0.as_slice() == name.as_bytes())
}

/// The text of the key file of this name, unless the call for it is refused.
pub fn text_of<'a>(key_files: &'a [(Bytes, Bytes)], name: &str, refused: bool) -> Option<&'a [u8]>
    ensures { option_copied result ≡ (if refused then None else named name.now key_files.now) }
{
    if refused {
        return None;
    }
    match found(key_files, name) {
        Some(file) => Some(file.1.as_slice()),
        None => None,
    }
}
