// One request head.
ghost use Rattle.std.specs.Prelude.{◌≡◌, ◌≤◌, MatchOption, None, Some};
ghost use Rattle.std.specs.Str.{IsUtf8};
ghost use Rattle.httparse.specs.Grammar.{RequestHead};
ghost use Rattle.httparse.specs.Spans.{IsRequestAt, IsRequestWithin, span_bytes};
ghost use Rattle.kms_http.specs.Heads as spec;
ghost use Rattle.kms_http.specs.Messages as message;

use httparse::Status;
use httparse::spans::{HeaderSpan, RequestSpans, parse_request};

/// How many line feeds the bytes have.
pub fn line_feeds(bytes: &[u8]) -> usize
    ensures { result ≡ message.line_feeds bytes.now }
{
    bytes.iter().filter(|b| **b == b'\n').count()
}

/// The request head that the bytes are, as a whole.
pub fn whole_head(bytes: &[u8], headers: &mut [HeaderSpan; 64]) -> Option<RequestSpans>
    requires { message.line_feeds bytes.now ≤ message.feed_limit }
    ensures { MatchOption result (spec.whole_head bytes.now ≡ None)
        (λ spans. IsRequestWithin bytes.now headers.new spans
        × IsUtf8 (span_bytes bytes.now spans.method) × IsUtf8 (span_bytes bytes.now spans.path)
        × (head : RequestHead) × (spec.whole_head bytes.now ≡ Some head) × IsRequestAt bytes.now headers.new spans head) }
{
    match parse_request(bytes, headers) {
        Ok(Status::Complete(spans)) => {
            if spans.len == bytes.len() {
                Some(spans)
            } else {
                None
            }
        }
        Ok(Status::Partial) => None,
        Err(_) => None,
    }
}
