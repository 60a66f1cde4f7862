// Texts at the front of bytes.
ghost use Rattle.std.specs.Prelude.{◌≡◌, option_copied};
ghost use Rattle.kms_http.specs.HeadEnd as spec;

/// The bytes behind the text, where they begin with it.
#[tactic(auto, unfolding(crate::specs::HeadEnd::past))]
pub fn past<'a>(text: &[u8], bytes: &'a [u8]) -> Option<&'a [u8]>
    ensures { option_copied result ≡ spec.past text.now bytes.now }
{
    let mut wanted = text;
    let mut rest = bytes;
    while let [x, xs @ ..] = wanted {
        let [y, ys @ ..] = rest else {
            return None;
        };
        if *x != *y {
            return None;
        }
        wanted = xs;
        rest = ys;
    }
    Some(rest)
}
