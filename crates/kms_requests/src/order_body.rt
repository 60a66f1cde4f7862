// The body of a new order.
ghost use Rattle.std.specs.Prelude.{◌≡◌, IfOk};
ghost use Rattle.serde_json.specs.View.{view};
ghost use Rattle.kms_requests.specs.Fields.{Gives};
ghost use Rattle.kms_requests.specs.OrderBody as spec;
ghost use Rattle.std.specs.Prelude.{option_map};

use crate::body::body;
use crate::fields::{BodyFault, number, object, text};
use kms_world::{Field, MetaBody, NoMemory, OrderBody, Refusal, Text};
use serde_json::Value;
use std::alloc::Global;

#[tactic(auto, unfolding(crate::specs::OrderBody::meta_of))]
fn meta(alloc: Global, d: &Value) -> Result<MetaBody, BodyFault>
    ensures { Gives (λ b. b) result (spec.meta_of (view d.now)) }
{
    Ok(MetaBody {
        algorithm: text(alloc, d, Field::Algorithm)?,
        bit_length: number(d, Field::BitLength)?,
        mode: text(alloc, d, Field::Mode)?,
        name: text(alloc, d, Field::Name)?,
        payload_content_type: text(alloc, d, Field::PayloadContentType)?,
        expiration: text(alloc, d, Field::Expiration)?,
    })
}

fn optional_meta(alloc: Global, d: Option<&Value>) -> Result<Option<MetaBody>, BodyFault>
    ensures { Gives (λ b. b) result (spec.optional_meta (option_map (λ v. view v.now) d.entry)) }
{
    match d {
        None => Ok(None),
        Some(d) => Ok(Some(meta(alloc, d)?)),
    }
}

#[tactic(auto, unfolding(crate::specs::OrderBody::order_of))]
fn order(alloc: Global, d: &Value) -> Result<OrderBody, BodyFault>
    ensures { Gives (λ b. b) result (spec.order_of (view d.now)) }
{
    let kind = text(alloc, d, Field::TypeName)?;
    let given = object(d, Field::Meta)?;
    Ok(OrderBody {
        kind,
        meta: optional_meta(alloc, given)?,
    })
}

fn said(alloc: Global, content_type: &Option<Text>, bytes: &[u8]) -> Result<OrderBody, BodyFault>
    ensures { Gives (λ b. b) result (spec.order_body content_type.now bytes.now) }
{
    let object = body(alloc, content_type, bytes)?;
    order(alloc, &object)
}

// The body of a new order, or the refusal that reading it gives.
pub(crate) fn order_body(
    alloc: Global,
    content_type: &Option<Text>,
    bytes: &[u8],
) -> Result<Result<OrderBody, Refusal>, NoMemory>
    ensures { IfOk result (λ said. said ≡ spec.order_body content_type.now bytes.now) }
{
    match said(alloc, content_type, bytes) {
        Ok(body) => Ok(Ok(body)),
        Err(BodyFault::Refused(refusal)) => Ok(Err(refusal)),
        Err(BodyFault::NoMemory) => Err(NoMemory),
    }
}
