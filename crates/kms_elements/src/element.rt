// Whether one of the elements passes a test.
ghost use Rattle.std.specs.Prelude.{◌≡◌};
ghost use Rattle.std.specs.List.{list_any};
ghost use Rattle.kms_elements.specs.Elements.{elements};

use crate::length_before;

/// A test of one element.
pub trait ElementTest {
    ghost use Rattle.std.specs.Prelude.{◌≡◌, ℕ, List, Bool};

    /// the elements that pass
    ghost admits: { Self → List ℕ → Bool };

    /// The element passes. It comes as it stands between two commas, with white space around it.
    fn passes(&self, element: &[u8]) -> bool
        ensures { result ≡ admits self.now element.now };
}

/// One of the texts between the commas of a value passes the test. A value without a comma is one element, also where it is
/// empty.
pub fn some_element<T: ElementTest>(test: &T, value: &[u8]) -> bool
    ensures { result ≡ list_any (T.admits test.now) (elements value.now) }
{
    let mut rest = value;
    loop {
        let end = length_before(b',', rest);
        let (element, _) = rest.split_at(end);
        if test.passes(element) {
            return true;
        }
        if end == rest.len() {
            return false;
        }
        let (_, more) = rest.split_at(end + 1);
        rest = more;
    }
}
