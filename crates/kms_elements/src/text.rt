// Texts without white space around them, and what stands before a byte.
ghost use Rattle.std.specs.Prelude.{◌≡◌, ◌≤◌, ◌==◌, ◌||◌, length, reverse};
ghost use Rattle.httparse.specs.Grammar.{is_ows, skip_ows, trim_ows};
ghost use Rattle.kms_elements.specs.Elements as spec;

fn is_ows(b: u8) -> bool
    ensures { result ≡ is_ows b }
{
    b == b' ' || b == b'\t'
}

fn trim_start(bytes: &[u8]) -> &[u8]
    ensures { result.now ≡ skip_ows bytes.now }
{
    let mut rest = bytes;
    while let [b, more @ ..] = rest {
        if !is_ows(*b) {
            break;
        }
        rest = more;
    }
    rest
}

fn trim_end(bytes: &[u8]) -> &[u8]
    ensures { reverse result.now ≡ skip_ows (reverse bytes.now) }
{
    let mut rest = bytes;
    while let [more @ .., b] = rest {
        if !is_ows(*b) {
            break;
        }
        rest = more;
    }
    rest
}

/// The text without the spaces and tabs in front and at the end.
pub fn trim(bytes: &[u8]) -> &[u8]
    ensures { result.now ≡ trim_ows bytes.now }
{
    trim_end(trim_start(bytes))
}

/// How many bytes stand before the first one that is this; all of them where none is.
pub fn length_before(end: u8, bytes: &[u8]) -> usize
    ensures value { result ≡ spec.length_before end bytes.now }
    ensures bound { result ≤ length bytes.now }
{
    let mut count = 0;
    let mut rest = bytes;
    while let [b, more @ ..] = rest {
        if *b == end {
            break;
        }
        count += 1;
        rest = more;
    }
    count
}
