// Media types of payloads, as clients may write them.
ghost use Rattle.std.specs.Prelude.{◌≡◌};
ghost use Rattle.std.specs.Option.{option_and_then};
ghost use Rattle.kms_secret.specs.Media as spec;

use kms_world::{Media, Text};

// Whether a text is this in lower case and without spaces. Takes no memory.
fn has_form(form: &[u8], text: &[u8]) -> bool
    ensures { result ≡ spec.has_form form.now text.now }
{
    let mut rest = form;
    for b in text {
        if *b == b' ' {
            continue;
        }
        match rest {
            [first, others @ ..] if *first == b.to_ascii_lowercase() => rest = others,
            _ => return false,
        }
    }
    rest.is_empty()
}

// The media type that a text names.
fn media_named(text: &[u8]) -> Option<Media>
    ensures { result ≡ spec.media_of text.now }
{
    if has_form(b"text/plain", text) || has_form(b"text/plain;charset=utf-8", text) {
        Some(Media::TextPlain)
    } else if has_form(b"application/octet-stream", text) {
        Some(Media::OctetStream)
    } else {
        None
    }
}

/// The media type that a field names, where it is there.
pub fn media_of(text: &Option<Text>) -> Option<Media>
    ensures { result ≡ option_and_then spec.media_of text.now }
{
    match text {
        None => None,
        Some(text) => media_named(text.as_str().as_bytes()),
    }
}
