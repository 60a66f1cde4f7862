// The body of a consumer that registers, or goes.
ghost use Rattle.std.specs.Prelude.{◌≡◌, IfOk};
ghost use Rattle.serde_json.specs.View.{view};
ghost use Rattle.kms_requests.specs.Fields.{Gives};
ghost use Rattle.kms_requests.specs.ConsumerBody as spec;

use crate::body::body;
use crate::fields::{BodyFault, text};
use kms_world::{ConsumerBody, Field, NoMemory, Refusal, Text};
use serde_json::Value;
use std::alloc::Global;

#[tactic(auto, unfolding(crate::specs::ConsumerBody::consumer_of))]
fn consumer(alloc: Global, d: &Value) -> Result<ConsumerBody, BodyFault>
    ensures { Gives (λ b. b) result (spec.consumer_of (view d.now)) }
{
    Ok(ConsumerBody {
        name: text(alloc, d, Field::Name)?,
        url: text(alloc, d, Field::Url)?,
    })
}

fn said(alloc: Global, content_type: &Option<Text>, bytes: &[u8]) -> Result<ConsumerBody, BodyFault>
    ensures { Gives (λ b. b) result (spec.consumer_body content_type.now bytes.now) }
{
    let object = body(alloc, content_type, bytes)?;
    consumer(alloc, &object)
}

// The body of a consumer that registers, or goes, or the refusal that reading it gives.
pub(crate) fn consumer_body(
    alloc: Global,
    content_type: &Option<Text>,
    bytes: &[u8],
) -> Result<Result<ConsumerBody, Refusal>, NoMemory>
    ensures { IfOk result (λ said. said ≡ spec.consumer_body content_type.now bytes.now) }
{
    match said(alloc, content_type, bytes) {
        Ok(body) => Ok(Ok(body)),
        Err(BodyFault::Refused(refusal)) => Ok(Err(refusal)),
        Err(BodyFault::NoMemory) => Err(NoMemory),
    }
}
