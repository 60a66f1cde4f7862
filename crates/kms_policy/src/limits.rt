// Bodies of quotas.
ghost use Rattle.std.specs.Prelude.{◌≡◌, true, false, IfOk, IfErr};
ghost use Rattle.kms_world.specs.Checked.{checked};
ghost use Rattle.kms_policy.specs.Limits.{is_limit, limits_of};

use kms_world::{CheckFault, Field, QuotaBody, Refusal};

/// The limits of a project: at most so many rows of each kind, from 0 to 1,000,000,000, or -1 for no limit. Where a
/// value is absent there is no limit either.
#[derive(Clone, Copy, Debug, PartialEq, Eq)]
pub struct Limits {
    pub secrets: Option<i64>,
    pub orders: Option<i64>,
    pub containers: Option<i64>,
    pub consumers: Option<i64>,
}

const UNLIMITED: i128 = -1;

const MOST: i128 = 1_000_000_000;

// The value of a field, where it may be a limit.
fn limit(value: Option<i128>, field: Field) -> Result<Option<i64>, CheckFault>
    ensures ok { IfOk result (λ limit. (limit ≡ value) × (is_limit value ≡ true)) }
    ensures err { IfErr result (λ fault. (fault ≡ CheckFault.Refused (Refusal.BadBody field)) × (is_limit value ≡ false)) }
{
    let Some(n) = value else {
        return Ok(None);
    };
    if n < UNLIMITED || MOST < n {
        return Err(CheckFault::Refused(Refusal::BadBody(field)));
    }
    Ok(Some(n as i64))
}

/// The limits that a body sets. The error is the first rule that the body breaks: `project_quotas` is there, and each
/// of its values is from -1 to 1,000,000,000, in the order secrets, orders, containers, consumers.
pub fn check_quotas(body: &QuotaBody) -> Result<Limits, CheckFault>
    ensures { result ≡ checked (limits_of body.now) }
{
    let Some(values) = body.project_quotas else {
        return Err(CheckFault::Refused(Refusal::BadBody(Field::ProjectQuotas)));
    };
    Ok(Limits {
        secrets: limit(values.secrets, Field::Secrets)?,
        orders: limit(values.orders, Field::Orders)?,
        containers: limit(values.containers, Field::Containers)?,
        consumers: limit(values.consumers, Field::Consumers)?,
    })
}
