// Words among the comma elements of a field's value.
ghost use Rattle.std.specs.Prelude.{◌≡◌};
ghost use Rattle.std.specs.Str.{str_eq_ignore_ascii_case};
ghost use Rattle.kms_http.specs.Elements as spec;

use kms_elements::{ElementTest, some_element, trim};

fn same_word(a: &[u8], b: &[u8]) -> bool
    ensures { result ≡ str_eq_ignore_ascii_case a.now b.now }
{
    a.eq_ignore_ascii_case(b)
}

fn is_word(word: &[u8], element: &[u8]) -> bool
    ensures { result ≡ spec.is_word word.now element.now }
{
    same_word(trim(element), word)
}

// An element is this word.
#[derive(Clone, Copy)]
struct Word<'a> {
    word: &'a [u8],
}

impl ElementTest for Word<'_> {
    ghost use Rattle.kms_http.specs.Elements.{is_word};

    ghost admits = { λ w. is_word w.word.now };

    fn passes(&self, element: &[u8]) -> bool {
        is_word(self.word, element)
    }
}

/// Whether one of the elements is this word, in any case and with white space around it.
pub fn has_element(word: &[u8], value: &[u8]) -> bool
    ensures { result ≡ spec.has_element word.now value.now }
{
    some_element(&Word { word }, value)
}
