// The media types that a client accepts (RFC 9110 section 12.5.1).
ghost use Rattle.std.specs.Prelude.{◌≡◌};
ghost use Rattle.std.specs.Str.{str_eq_ignore_ascii_case};
ghost use Rattle.kms_model.specs.Accept as spec;

use kms_elements::{ElementTest, length_before, some_element, trim};
use kms_world::{Media2, Text};

// An element without its parameters.
fn range_of(element: &[u8]) -> &[u8]
    ensures { result.now ≡ spec.range_of element.now }
{
    let (range, _) = element.split_at(length_before(b';', element));
    trim(range)
}

fn same_word(a: &[u8], b: &[u8]) -> bool
    ensures { result ≡ str_eq_ignore_ascii_case a.now b.now }
{
    a.eq_ignore_ascii_case(b)
}

fn type_of(media: Media2) -> &'static str
    ensures { result.now ≡ spec.type_of media }
{
    match media {
        Media2::Json => "application/json",
        Media2::TextPlain => "text/plain",
        Media2::OctetStream => "application/octet-stream",
    }
}

fn main_type_of(media: Media2) -> &'static str
    ensures { result.now ≡ spec.main_type_of media }
{
    match media {
        Media2::Json => "application/*",
        Media2::TextPlain => "text/*",
        Media2::OctetStream => "application/*",
    }
}

fn is_range_of(media: Media2, range: &[u8]) -> bool
    ensures { result ≡ spec.is_range_of media range.now }
{
    same_word(range, "*/*".as_bytes())
        || same_word(range, main_type_of(media).as_bytes())
        || same_word(range, type_of(media).as_bytes())
}

fn admits_in(media: Media2, element: &[u8]) -> bool
    ensures { result ≡ spec.admits_in media element.now }
{
    is_range_of(media, range_of(element))
}

// An element admits an answer of this type.
#[derive(Clone, Copy)]
struct Answered(Media2);

impl ElementTest for Answered {
    ghost use Rattle.kms_model.specs.Accept.{admits_in};

    ghost admits = { λ a. admits_in a.0 };

    fn passes(&self, element: &[u8]) -> bool {
        admits_in(self.0, element)
    }
}

// An answer of this type is accepted by these Accept fields; without one each is.
pub fn admits(accept: &Option<Text>, media: Media2) -> bool
    ensures { result ≡ spec.admits accept.now media }
{
    match accept {
        None => true,
        Some(accept) => some_element(&Answered(media), accept.as_str().as_bytes()),
    }
}
