// Names of projects and users.
ghost use Rattle.std.specs.Prelude.{◌≡◌, ◌≤◌, ◌-◌, ◌++◌, length, replicate, if◌then◌else◌, Some, None, true};
ghost use Rattle.std.specs.List.{list_all};
ghost use Rattle.kms_world.specs.Name.{is_name, is_name_byte};

use std::marker::Model;

/// A name of a project or a user: 1 to 64 bytes of `A-Z a-z 0-9 - _ .`. Contracts see its bytes.
#[derive(Clone, Copy, Debug, PartialEq, Eq)]
pub struct Name {
    bytes: [u8; 64],
    len: u8,
}

impl Model for Name {
    ghost use Rattle.std.specs.Prelude.{ℕ, List};

    ghost Value = { List ℕ };

    ghost use Rattle.kms_world.specs.NameFields.{text_of, fields_of, fields_back, IsPadded};

    ghost view = { text_of };

    ghost invariant = { IsPadded };

    ghost inverse = { fields_of };

    ghost inverse_ok = { fields_back };
}

/// Whether a byte may stand in a name: `A-Z a-z 0-9 - _ .`.
pub const fn is_name_byte(b: u8) -> bool
    ensures { result ≡ is_name_byte b }
{
    (b'A' <= b && b <= b'Z')
        || (b'a' <= b && b <= b'z')
        || (b'0' <= b && b <= b'9')
        || b == b'-'
        || b == b'_'
        || b == b'.'
}

fn all_name_bytes(text: &[u8]) -> bool
    ensures { result ≡ list_all is_name_byte text.now }
{
    text.iter().all(|b| is_name_byte(*b))
}

/// Whether a text is a name: 1 to 64 bytes, each of which may stand in one.
pub fn is_name(text: &[u8]) -> bool
    ensures { result ≡ is_name text.now }
{
    1 <= text.len() && text.len() <= 64 && all_name_bytes(text)
}

fn padded(text: &[u8]) -> [u8; 64]
    requires { length text.now ≤ 64 }
    ensures { result ≡ text.now ++ replicate (64 - length text.now) 0 }
{
    let mut bytes = [0u8; 64];
    for (i, b) in text.iter().enumerate() {
        bytes[i] = *b;
    }
    bytes
}

impl Name {
    /// The name that this text is. None exactly where it is no name.
    pub fn read(text: &[u8]) -> Option<Name>
        ensures { result ≡ (if is_name text.now then Some text.now else None) }
    {
        if !is_name(text) {
            return None;
        }
        Some(Name {
            bytes: padded(text),
            len: text.len() as u8,
        })
    }

    /// The bytes of the name.
    pub fn as_bytes(&self) -> &[u8]
        ensures bytes { result.now ≡ self.now }
        ensures name { is_name self.now ≡ true }
    {
        &self.bytes[..self.len as usize]
    }

    /// The name as a string slice: its bytes are ASCII.
    pub fn as_str(&self) -> &str
        ensures { result.now ≡ self.now }
    {
        std::str::from_utf8(&self.bytes[..self.len as usize]).unwrap()
    }
}
