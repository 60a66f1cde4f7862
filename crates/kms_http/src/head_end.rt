// The end of a head.
ghost use Rattle.std.specs.Prelude.{◌≡◌, ◌≤◌, IfSome, length, take};
ghost use Rattle.kms_http.specs.HeadEnd as spec;
ghost use Rattle.kms_http.specs.Quiet.{IsQuiet};

use crate::past::past;

// How many bytes the head has: those up to and with the first CR LF CR LF. None where there is none.
#[tactic(auto, using(crate::proofs::PastLaws::past_length), unfolding(crate::specs::HeadEnd::head_len))]
fn head_len(bytes: &[u8]) -> Option<usize>
    ensures value { result ≡ spec.head_len bytes.now }
    ensures bound { IfSome result (λ n. (4 ≤ n) × (n ≤ length bytes.now)) }
{
    let mut count = 0;
    let mut rest = bytes;
    while let [_, more @ ..] = rest {
        if past(b"\r\n\r\n", rest).is_some() {
            return Some(count + 4);
        }
        count += 1;
        rest = more;
    }
    None
}

/// A head has at most so many bytes.
pub const HEAD_LIMIT: usize = 16384;

// The bytes among which a head has to end.
fn limited(bytes: &[u8]) -> &[u8]
    ensures { result.now ≡ take spec.head_limit bytes.now }
{
    if bytes.len() < HEAD_LIMIT {
        bytes
    } else {
        &bytes[..HEAD_LIMIT]
    }
}

/// How many bytes the head has, up to and with the first CR LF CR LF (RFC 9112 section 2.1), where the first 16,384 bytes
/// hold a whole one. The head's end is looked for from this place on, before which no empty line begins.
pub fn head_at(bytes: &[u8], from: usize) -> Option<usize>
    requires within { from ≤ length bytes.now }
    requires limit { from ≤ spec.head_limit }
    requires quiet { IsQuiet from bytes.now }
    ensures value { result ≡ spec.head_len (take spec.head_limit bytes.now) }
    ensures bound { IfSome result (λ n. n ≤ length bytes.now) }
{
    let searched = limited(bytes);
    let (_, rest) = searched.split_at(from);
    match head_len(rest) {
        None => None,
        Some(count) => Some(count + from),
    }
}
