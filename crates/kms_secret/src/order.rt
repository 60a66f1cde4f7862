// Bodies of new orders.
ghost use Rattle.kms_world.specs.Checked.{IsUnlessNoMemory};
ghost use Rattle.kms_secret.specs.Order as spec;

use crate::fields::{expiration, optional_text, required_bit_length, required_text};
use kms_world::{CheckFault, Field, Media, MetaBody, OrderBody, Refusal, Text};

/// What a client chooses of the key that is ordered. Texts have at most 255 bytes.
#[derive(Drop, Debug)]
pub struct NewOrder {
    /// at least one byte
    pub algorithm: Text,
    /// 1 to 32,767
    pub bit_length: u16,
    pub mode: Option<Text>,
    pub name: Option<Text>,
    /// whole seconds since 1970
    pub expiration: Option<u64>,
}

fn type_by(word: &Text) -> Result<(), CheckFault>
    ensures { IsUnlessNoMemory result (spec.type_by word.now) }
{
    let word = word.as_str();
    if word == "key" {
        Ok(())
    } else if word == "asymmetric" || word == "certificate" {
        Err(CheckFault::Refused(Refusal::NotOffered))
    } else {
        Err(CheckFault::Refused(Refusal::BadBody(Field::TypeName)))
    }
}

fn are_bytes(content_type: &Option<Text>) -> Result<(), CheckFault>
    ensures { IsUnlessNoMemory result (spec.bytes_by content_type.now) }
{
    match content_type {
        Some(word) if word.as_str() != Media::OctetStream.word() => {
            Err(CheckFault::Refused(Refusal::BadBody(Field::PayloadContentType)))
        }
        _ => Ok(()),
    }
}

fn order_by(meta: &MetaBody, moment: u64) -> Result<NewOrder, CheckFault>
    ensures { IsUnlessNoMemory result (spec.order_by meta.now moment) }
{
    let algorithm = required_text(Field::Algorithm, &meta.algorithm)?;
    let bit_length = required_bit_length(meta.bit_length)?;
    let mode = optional_text(Field::Mode, &meta.mode)?;
    let name = optional_text(Field::Name, &meta.name)?;
    are_bytes(&meta.payload_content_type)?;
    let expiration = expiration(&meta.expiration, moment)?;
    Ok(NewOrder {
        algorithm,
        bit_length,
        mode,
        name,
        expiration,
    })
}

/// The order that a body asks for at this moment, in whole seconds since 1970. The error is the first rule that the body
/// breaks: the type is `key` (`NotOffered` where it is `asymmetric` or `certificate`, whatever else stands there); there is
/// a meta; its algorithm has 1 to 255 bytes, its bit length is 1 to 32,767, its mode and name have at most 255 bytes; its
/// media type is absent or `application/octet-stream`; its expiration is a time (`read_time`) later than the moment.
pub fn check_order(body: &OrderBody, moment: u64) -> Result<NewOrder, CheckFault>
    ensures { IsUnlessNoMemory result (spec.checked_order body.now moment) }
{
    let Some(word) = &body.kind else {
        return Err(CheckFault::Refused(Refusal::BadBody(Field::TypeName)));
    };
    type_by(word)?;
    match &body.meta {
        Some(meta) => order_by(meta, moment),
        None => Err(CheckFault::Refused(Refusal::BadBody(Field::Meta))),
    }
}
