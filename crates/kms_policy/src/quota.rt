// Quotas in force.
ghost use Rattle.std.specs.Prelude.{◌≡◌, option_copied, true};
ghost use Rattle.std.specs.Option.{ForSome};
ghost use Rattle.kms_policy.specs.Limits.{is_limit};
ghost use Rattle.kms_policy.specs.Quota.{HasLimits, value_of, limit_from, limit_in_force, has_room};

use kms_world::{QuotaKind, QuotaRow};

fn value_of(row: &QuotaRow, kind: QuotaKind) -> Option<i64>
    requires { HasLimits row.now }
    ensures value { result ≡ value_of row.now kind }
    ensures range { is_limit result ≡ true }
{
    match kind {
        QuotaKind::Secrets => row.secrets,
        QuotaKind::Orders => row.orders,
        QuotaKind::Containers => row.containers,
        QuotaKind::Consumers => row.consumers,
    }
}

fn limit_from(value: Option<i64>) -> Option<u32>
    requires { is_limit value ≡ true }
    ensures { result ≡ limit_from value }
{
    match value {
        Some(n) if n >= 0 => Some(n as u32),
        _ => None,
    }
}

/// The limit in force of a project with this quota row, None where the project has no row, the value is absent or it
/// is -1: then there is no limit. The row's values are from -1 to 1,000,000,000.
pub fn effective(row: Option<&QuotaRow>, kind: QuotaKind) -> Option<u32>
    requires { ForSome (option_copied row) HasLimits }
    ensures { result ≡ limit_in_force (option_copied row.entry) kind }
{
    match row {
        None => None,
        Some(row) => limit_from(value_of(row, kind)),
    }
}

/// Whether one row more may be added to so many under this limit; None is no limit.
pub fn room(count: u64, limit: Option<u32>) -> bool
    ensures { result ≡ has_room count limit }
{
    match limit {
        None => true,
        Some(limit) => count < limit as u64,
    }
}
