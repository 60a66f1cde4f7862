// The body of a new secret.
ghost use Rattle.std.specs.Prelude.{◌≡◌, IfOk};
ghost use Rattle.serde_json.specs.View.{view};
ghost use Rattle.kms_requests.specs.Fields.{Gives};
ghost use Rattle.kms_requests.specs.SecretBody as spec;

use crate::body::body;
use crate::fields::{BodyFault, number, text};
use kms_world::{Field, NoMemory, Refusal, SecretBody, Text};
use serde_json::Value;
use std::alloc::Global;

#[tactic(auto, unfolding(crate::specs::SecretBody::secret_of))]
fn secret(alloc: Global, d: &Value) -> Result<SecretBody, BodyFault>
    ensures { Gives (λ b. b) result (spec.secret_of (view d.now)) }
{
    Ok(SecretBody {
        name: text(alloc, d, Field::Name)?,
        algorithm: text(alloc, d, Field::Algorithm)?,
        bit_length: number(d, Field::BitLength)?,
        mode: text(alloc, d, Field::Mode)?,
        secret_type: text(alloc, d, Field::SecretType)?,
        expiration: text(alloc, d, Field::Expiration)?,
        payload: text(alloc, d, Field::Payload)?,
        payload_content_type: text(alloc, d, Field::PayloadContentType)?,
        payload_content_encoding: text(alloc, d, Field::PayloadContentEncoding)?,
    })
}

fn said(alloc: Global, content_type: &Option<Text>, bytes: &[u8]) -> Result<SecretBody, BodyFault>
    ensures { Gives (λ b. b) result (spec.secret_body content_type.now bytes.now) }
{
    let object = body(alloc, content_type, bytes)?;
    secret(alloc, &object)
}

// The body of a new secret, or the refusal that reading it gives.
pub(crate) fn secret_body(
    alloc: Global,
    content_type: &Option<Text>,
    bytes: &[u8],
) -> Result<Result<SecretBody, Refusal>, NoMemory>
    ensures { IfOk result (λ said. said ≡ spec.secret_body content_type.now bytes.now) }
{
    match said(alloc, content_type, bytes) {
        Ok(body) => Ok(Ok(body)),
        Err(BodyFault::Refused(refusal)) => Ok(Err(refusal)),
        Err(BodyFault::NoMemory) => Err(NoMemory),
    }
}
