// Base64 with the URL-safe alphabet, padding and zero trailing bits (RFC 4648, section 5).
ghost use Rattle.std.specs.Prelude.{◌≡◌, ℕ, ◌≤◌, List, MatchOption, IfSome, length, take};
ghost use Rattle.kms_fernet.specs.Key.{IsBase64url, IsNoBase64url, DecodesWithin};

use base64::engine::general_purpose::URL_SAFE;

/// How many bytes have this base64url: three for each four characters, less the padding at its end.
pub(crate) fn decoded_len(text: &[u8]) -> usize
    ensures { (bytes : List ℕ) → IsBase64url text.now bytes → result ≡ length bytes }
{
    let len = text.len();
    if len < 4 {
        return 0;
    }
    let whole = len / 4 * 3;
    if text[len - 1] != b'=' {
        whole
    } else if text[len - 2] != b'=' {
        whole - 1
    } else {
        whole - 2
    }
}

/// Writes the bytes whose base64url this is at the front of the room, and says how many. `None`
/// where the text is the base64url of no bytes.
pub(crate) fn decoded(text: &[u8], room: &mut [u8]) -> Option<usize>
    requires { DecodesWithin text.now (length room.old) }
    ensures spelled { MatchOption result (IsNoBase64url text.now) (λ n. IsBase64url text.now (take n room.new)) }
    ensures within { IfSome result (λ n. n ≤ length room.new) }
{
    match URL_SAFE.decode_slice(text, room) {
        Ok(n) => Some(n),
        Err(_) => None,
    }
}
