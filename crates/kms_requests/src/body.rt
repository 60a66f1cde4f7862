// The object that a body is.
ghost use Rattle.std.specs.Prelude.{◌≡◌, ◌==◌, take, drop, codes};
ghost use Rattle.std.specs.List.{before_first, list_all};
ghost use Rattle.std.specs.Str.{str_eq_ignore_ascii_case};
ghost use Rattle.serde_json.specs.View.{view};
ghost use Rattle.kms_requests.specs.Body.{is_blank, past_blanks, is_json_type, is_json, object_or_fault, body_of, body_object};
ghost use Rattle.kms_requests.specs.Fields.{Gives};

use crate::fields::BodyFault;
use kms_world::{Field, Refusal, Text};
use serde_json::Value;
use std::alloc::Global;

fn is_blank(b: u8) -> bool
    ensures { result ≡ is_blank b }
{
    b == b' ' || b == b'\t'
}

fn past_blanks(bytes: &[u8]) -> &[u8]
    ensures { result.now ≡ past_blanks bytes.now }
{
    let mut rest = bytes;
    while let [b, more @ ..] = rest {
        if !is_blank(*b) {
            break;
        }
        rest = more;
    }
    rest
}

fn all_blank(bytes: &[u8]) -> bool
    ensures { result ≡ list_all is_blank bytes.now }
{
    bytes.iter().all(|b| is_blank(*b))
}

// What stands before a media type's parameters.
fn without_parameters(text: &str) -> &str
    ensures { result.now ≡ before_first (λ b. b == 59) text.now }
{
    match text.split_once(';') {
        Some((front, _)) => front,
        None => text,
    }
}

// As many bytes as the word has, or all where there are fewer.
fn word_in(bytes: &[u8]) -> &[u8]
    ensures { result.now ≡ take 16 bytes.now }
{
    &bytes[..bytes.len().min(16)]
}

fn behind_word(bytes: &[u8]) -> &[u8]
    ensures { result.now ≡ drop 16 bytes.now }
{
    &bytes[bytes.len().min(16)..]
}

fn is_word(bytes: &[u8]) -> bool
    ensures { result ≡ str_eq_ignore_ascii_case bytes.now (codes "application/json") }
{
    bytes.eq_ignore_ascii_case(b"application/json")
}

fn is_json_type(text: &[u8]) -> bool
    ensures { result ≡ is_json_type text.now }
{
    let rest = past_blanks(text);
    is_word(word_in(rest)) && all_blank(behind_word(rest))
}

#[tactic(auto, unfolding(crate::specs::Body::is_json))]
fn is_json(content_type: &Option<Text>) -> bool
    ensures { result ≡ is_json content_type.now }
{
    match content_type {
        None => true,
        Some(text) => is_json_type(without_parameters(text.as_str()).as_bytes()),
    }
}

// The object that the bytes are.
#[tactic(auto, using(crate::proofs::BodyLaws::an_object, crate::proofs::BodyLaws::another_value, crate::proofs::BodyLaws::not_read))]
fn object_in(alloc: Global, bytes: &[u8]) -> Result<Value, BodyFault>
    ensures { Gives view result (object_or_fault (body_of bytes.now)) }
{
    match Value::from_slice(alloc, bytes) {
        Ok(value) => {
            if value.is_object() {
                Ok(value)
            } else {
                Err(BodyFault::Refused(Refusal::BadBody(Field::Body)))
            }
        }
        Err(error) => {
            if error.is_memory() {
                Err(BodyFault::NoMemory)
            } else {
                Err(BodyFault::Refused(Refusal::BadBody(Field::Body)))
            }
        }
    }
}

// The object of a body with this Content-Type.
pub(crate) fn body(
    alloc: Global,
    content_type: &Option<Text>,
    bytes: &[u8],
) -> Result<Value, BodyFault>
    ensures { Gives view result (body_object content_type.now bytes.now) }
{
    if !is_json(content_type) {
        return Err(BodyFault::Refused(Refusal::WrongType));
    }
    object_in(alloc, bytes)
}
