// Whether the line ends after a message (RFC 9112 section 9.6).
ghost use Rattle.std.specs.Prelude.{◌≡◌, ◌==◌, ◌||◌};
ghost use Rattle.kms_http.specs.Framing as spec;

use crate::elements::has_element;
use crate::fields::{Fields, is_same_name};

fn is_closing(name: &[u8], value: &[u8]) -> bool
    ensures { result ≡ spec.is_closing (name.now, value.now) }
{
    is_same_name(name, b"connection") && has_element(b"close", value)
}

fn any_closes(fields: &Fields) -> bool
    ensures { result ≡ spec.any_closes fields.now }
{
    for place in 0..fields.len() {
        let (name, value) = fields.at(place);
        if is_closing(name, value) {
            return true;
        }
    }
    false
}

/// Whether a message with this minor version and these fields asks that the line ends after it.
#[tactic(auto, unfolding(crate::specs::Framing::closes))]
pub fn closes(minor: u8, fields: &Fields) -> bool
    ensures { result ≡ spec.closes minor fields.now }
{
    minor == 0 || any_closes(fields)
}
