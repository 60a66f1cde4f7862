// The body of a project's quotas.
ghost use Rattle.std.specs.Prelude.{◌≡◌, IfOk};
ghost use Rattle.serde_json.specs.View.{view};
ghost use Rattle.kms_requests.specs.Fields.{Gives};
ghost use Rattle.kms_requests.specs.QuotaBody as spec;
ghost use Rattle.std.specs.Prelude.{option_map};

use crate::body::body;
use crate::fields::{BodyFault, number, object};
use kms_world::{Field, NoMemory, QuotaBody, QuotaValues, Refusal, Text};
use serde_json::Value;
use std::alloc::Global;

#[tactic(auto, unfolding(crate::specs::QuotaBody::values_of))]
fn values(d: &Value) -> Result<QuotaValues, BodyFault>
    ensures { Gives (λ b. b) result (spec.values_of (view d.now)) }
{
    Ok(QuotaValues {
        secrets: number(d, Field::Secrets)?,
        orders: number(d, Field::Orders)?,
        containers: number(d, Field::Containers)?,
        consumers: number(d, Field::Consumers)?,
    })
}

fn optional_values(d: Option<&Value>) -> Result<Option<QuotaValues>, BodyFault>
    ensures { Gives (λ b. b) result (spec.optional_values (option_map (λ v. view v.now) d.entry)) }
{
    match d {
        None => Ok(None),
        Some(d) => Ok(Some(values(d)?)),
    }
}

#[tactic(auto, unfolding(crate::specs::QuotaBody::quota_of))]
fn quota(d: &Value) -> Result<QuotaBody, BodyFault>
    ensures { Gives (λ b. b) result (spec.quota_of (view d.now)) }
{
    let given = object(d, Field::ProjectQuotas)?;
    Ok(QuotaBody {
        project_quotas: optional_values(given)?,
    })
}

fn said(alloc: Global, content_type: &Option<Text>, bytes: &[u8]) -> Result<QuotaBody, BodyFault>
    ensures { Gives (λ b. b) result (spec.quota_body content_type.now bytes.now) }
{
    let object = body(alloc, content_type, bytes)?;
    quota(&object)
}

// The body of a project's quotas, or the refusal that reading it gives.
pub(crate) fn quota_body(
    alloc: Global,
    content_type: &Option<Text>,
    bytes: &[u8],
) -> Result<Result<QuotaBody, Refusal>, NoMemory>
    ensures { IfOk result (λ said. said ≡ spec.quota_body content_type.now bytes.now) }
{
    match said(alloc, content_type, bytes) {
        Ok(body) => Ok(Ok(body)),
        Err(BodyFault::Refused(refusal)) => Ok(Err(refusal)),
        Err(BodyFault::NoMemory) => Err(NoMemory),
    }
}
