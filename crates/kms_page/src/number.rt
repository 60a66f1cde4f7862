// Numbers in queries.
ghost use Rattle.std.specs.Prelude.{◌≡◌, ◌≤◌, IfSome};
ghost use Rattle.std.specs.Char.{is_ascii_digit};
ghost use Rattle.std.specs.List.{list_all};
ghost use Rattle.kms_page.specs.Number as spec;

fn is_digits(text: &[u8]) -> bool
    ensures { result ≡ list_all is_ascii_digit text.now }
{
    text.iter().all(|b| b.is_ascii_digit())
}

// The number that decimal digits show, up to 4,294,967,295. `None` exactly where the text is no such number.
pub fn number_of(text: &str) -> Option<u32>
    ensures { result ≡ spec.number_of text.now }
{
    if !is_digits(text.as_bytes()) {
        return None;
    }
    text.parse::<u32>().ok()
}

const MOST_ON_A_PAGE: u32 = 100;

// A limit: 1 or more, and 100 where it is more than that.
pub fn limit_of(text: &str) -> Option<u32>
    ensures value { result ≡ spec.limit_of text.now }
    ensures range { IfSome result (λ n. (1 ≤ n) × (n ≤ 100)) }
{
    match number_of(text)? {
        0 => None,
        n => Some(n.min(MOST_ON_A_PAGE)),
    }
}
