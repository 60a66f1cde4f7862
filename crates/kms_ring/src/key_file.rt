// The lines of a key file.
ghost use Rattle.std.specs.Prelude.{◌≡◌, ◌<◌, ◌≤◌, length, IfSome};
ghost use Rattle.std.specs.List.{position_or_len};
ghost use Rattle.kms_ring.specs.KeyFile.{is_line_feed, unterminated, StandsFirst};

/// The text without the line feed that ends it, if one does.
pub fn unterminated(text: &[u8]) -> &[u8]
    ensures { result.now ≡ unterminated text.now }
{
    match text.split_last() {
        Some((b'\n', front)) => front,
        _ => text,
    }
}

// The place of the first line feed, or of the end.
fn line_feed(rest: &[u8]) -> usize
    ensures place { result ≡ position_or_len is_line_feed rest.now }
    ensures in_range { result ≤ length rest.now }
{
    match rest.iter().position(|byte| *byte == b'\n') {
        Some(place) => place,
        None => rest.len(),
    }
}

/// The first line of what is left, and what is left behind it: `None` where it is the last.
pub fn first_line(rest: &[u8]) -> (&[u8], Option<&[u8]>)
    ensures first { StandsFirst rest.now result.0.now result.1 }
    ensures shorter { IfSome result.1 (λ behind. length behind.now < length rest.now) }
{
    let end = line_feed(rest);
    if end < rest.len() {
        (&rest[..end], Some(&rest[end + 1..]))
    } else {
        (rest, None)
    }
}
