// Ids as texts.
ghost use Rattle.std.specs.Prelude.{◌≡◌};
ghost use Rattle.kms_text.specs.IdText.{id_text_of, read_id_of};

use kms_world::Id;
use uuid::Uuid;

/// The text of an id: 36 characters in the form 8-4-4-4-12, in lower case (RFC 9562 section 4). Takes no memory.
pub fn id_text(id: Id) -> [u8; 36]
    ensures { result ≡ id_text_of id }
{
    let mut buffer = Uuid::encode_buffer();
    let text = Uuid::from_u128(id.0).hyphenated().encode_lower(&mut buffer);
    let mut out = [0; 36];
    out.copy_from_slice(text.as_bytes());
    out
}

/// The id of a text, or `None` exactly where the text isn't 36 characters in the form 8-4-4-4-12 with hexadecimal
/// digits of either case (RFC 9562 section 4). Takes no memory.
#[tactic(auto, unfolding(crate::specs::IdText::read_id_of))]
pub fn read_id(text: &[u8]) -> Option<Id>
    ensures { result ≡ read_id_of text.now }
{
    if text.len() != 36 {
        return None;
    }
    let Ok(text) = std::str::from_utf8(text) else {
        return None;
    };
    match Uuid::parse_str(text) {
        Ok(uuid) => Some(Id(uuid.as_u128())),
        Err(_) => None,
    }
}
