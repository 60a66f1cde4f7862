// Texts with digits at fixed places.
ghost use Rattle.std.specs.Prelude.{◌≡◌, ◌<◌, ◌+◌, length, slice_index, IsTrue, MatchBool, ℕ, true, false};
ghost use Rattle.std.specs.Char.{is_ascii_digit};
ghost use Rattle.kms_text.specs.TimeForms.{fits, has_form, two_at};

// Whether a character may stand where the form has this one, in which 0 is any digit.
fn fits_place(place: u8, c: u8) -> bool
    ensures { result ≡ fits place c }
{
    if place == b'0' {
        c.is_ascii_digit()
    } else {
        c == place
    }
}

// Whether each character fits the form at its place.
fn all_fit(form: &[u8], text: &[u8]) -> bool
    requires { length form.now ≡ length text.now }
    ensures { MatchBool result
        ((k : ℕ) → k < length form.now → fits (slice_index form.now k) (slice_index text.now k) ≡ true)
        ((k : ℕ) × (k < length form.now) × (fits (slice_index form.now k) (slice_index text.now k) ≡ false)) }
{
    form.iter()
        .zip(text)
        .all(|(place, c)| fits_place(*place, *c))
}

// Whether the text has this form.
pub fn is_of_form(form: &[u8], text: &[u8]) -> bool
    ensures { result ≡ has_form form.now text.now }
{
    form.len() == text.len() && all_fit(form, text)
}

// The number that the two digits from a place on write.
pub fn two_digits_at(text: &[u8], at: usize) -> u8
    requires there { at + 1 < length text.now }
    requires tens { IsTrue (is_ascii_digit (slice_index text.now at)) }
    requires ones { IsTrue (is_ascii_digit (slice_index text.now (at + 1))) }
    ensures value { result ≡ two_at text.now at }
    ensures small { result < 100 }
{
    (text[at] - b'0') * 10 + (text[at + 1] - b'0')
}
