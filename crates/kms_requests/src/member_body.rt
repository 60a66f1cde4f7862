// The body of a member that a container is to get or lose.
ghost use Rattle.std.specs.Prelude.{◌≡◌, IfOk};
ghost use Rattle.serde_json.specs.View.{view};
ghost use Rattle.kms_requests.specs.Fields.{Gives};
ghost use Rattle.kms_requests.specs.MemberBody as spec;

use crate::body::body;
use crate::fields::{BodyFault, text};
use kms_world::{Field, MemberBody, NoMemory, Refusal, Text};
use serde_json::Value;
use std::alloc::Global;

#[tactic(auto, unfolding(crate::specs::MemberBody::member_of))]
fn member(alloc: Global, d: &Value) -> Result<MemberBody, BodyFault>
    ensures { Gives (λ b. b) result (spec.member_of (view d.now)) }
{
    Ok(MemberBody {
        name: text(alloc, d, Field::Name)?,
        secret_ref: text(alloc, d, Field::SecretRef)?,
    })
}

fn said(alloc: Global, content_type: &Option<Text>, bytes: &[u8]) -> Result<MemberBody, BodyFault>
    ensures { Gives (λ b. b) result (spec.member_body content_type.now bytes.now) }
{
    let object = body(alloc, content_type, bytes)?;
    member(alloc, &object)
}

// The body of a member that a container is to get or lose, or the refusal that reading it gives.
pub(crate) fn member_body(
    alloc: Global,
    content_type: &Option<Text>,
    bytes: &[u8],
) -> Result<Result<MemberBody, Refusal>, NoMemory>
    ensures { IfOk result (λ said. said ≡ spec.member_body content_type.now bytes.now) }
{
    match said(alloc, content_type, bytes) {
        Ok(body) => Ok(Ok(body)),
        Err(BodyFault::Refused(refusal)) => Ok(Err(refusal)),
        Err(BodyFault::NoMemory) => Err(NoMemory),
    }
}
