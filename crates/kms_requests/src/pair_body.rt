// The body of one pair of a secret's metadata.
ghost use Rattle.std.specs.Prelude.{◌≡◌, IfOk};
ghost use Rattle.serde_json.specs.View.{view};
ghost use Rattle.kms_requests.specs.Fields.{Gives};
ghost use Rattle.kms_requests.specs.PairBody as spec;

use crate::body::body;
use crate::fields::{BodyFault, text};
use kms_world::{Field, NoMemory, PairBody, Refusal, Text};
use serde_json::Value;
use std::alloc::Global;

#[tactic(auto, unfolding(crate::specs::PairBody::pair_of))]
fn pair(alloc: Global, d: &Value) -> Result<PairBody, BodyFault>
    ensures { Gives (λ b. b) result (spec.pair_of (view d.now)) }
{
    Ok(PairBody {
        key: text(alloc, d, Field::Key)?,
        value: text(alloc, d, Field::Value)?,
    })
}

fn said(alloc: Global, content_type: &Option<Text>, bytes: &[u8]) -> Result<PairBody, BodyFault>
    ensures { Gives (λ b. b) result (spec.pair_body content_type.now bytes.now) }
{
    let object = body(alloc, content_type, bytes)?;
    pair(alloc, &object)
}

// The body of one pair of a secret's metadata, or the refusal that reading it gives.
pub(crate) fn pair_body(
    alloc: Global,
    content_type: &Option<Text>,
    bytes: &[u8],
) -> Result<Result<PairBody, Refusal>, NoMemory>
    ensures { IfOk result (λ said. said ≡ spec.pair_body content_type.now bytes.now) }
{
    match said(alloc, content_type, bytes) {
        Ok(body) => Ok(Ok(body)),
        Err(BodyFault::Refused(refusal)) => Ok(Err(refusal)),
        Err(BodyFault::NoMemory) => Err(NoMemory),
    }
}
