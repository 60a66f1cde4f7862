// Operations on quotas, and whether a quota has room for one row more.
ghost use Rattle.std.specs.Prelude.{◌≡◌, true, IfOk, IfSome, None, Some, is_some, option_copied, option_map};
ghost use Rattle.std.specs.Option.{ForSome};
ghost use Rattle.kms_model.specs.Counts.{count_of};
ghost use Rattle.kms_model.specs.Done.{there};
ghost use Rattle.kms_model.specs.Quotas as spec;
ghost use Rattle.kms_operations.specs.Outcome.{Comes, IsPossible};
ghost use Rattle.kms_policy.specs.Limits.{is_limit, limits_of};
ghost use Rattle.kms_policy.specs.Quota.{HasLimits};
ghost use Rattle.kms_record.specs.Base.{limit_of};
ghost use Rattle.kms_record.specs.ChangeEffect.{quota_effect};
ghost use Rattle.kms_record.specs.Quota.{IsQuotaPutInRange};
ghost use Rattle.kms_world.specs.Checked.{IsUnlessNoMemory};
ghost use Rattle.kms_world.specs.Effect as effects;
ghost use Rattle.kms_world.specs.LookUp.{quota_of};

use crate::Outcome;
use crate::body::given;
use crate::permission::granted;
use kms_policy::{Limits, check_quotas, effective};
use kms_record::{Change, QuotaLimit, QuotaLimits, QuotaPut};
use kms_store::Tables;
use kms_world::{
    Action, Answer, Caller, CheckFault, Name, QuotaBody, QuotaKind, QuotaRow, Refusal,
};

// The quotas of a project, where it has some.
fn quota<'a>(rows: &'a Tables, project: &Name) -> Option<&'a QuotaRow>
    ensures found { option_copied result ≡ quota_of project.now rows.now.kept.state.quotas }
    ensures limits { IfSome (option_copied result) HasLimits }
{
    rows.quota(project)
}

fn count(rows: &Tables, project: &Name, kind: QuotaKind) -> u64
    ensures { result ≡ count_of kind project.now rows.now.kept.state }
{
    rows.count(project, kind)
}

// The project's quota has room for one row more of this kind.
pub fn within_quota(rows: &Tables, project: &Name, kind: QuotaKind) -> Result<(), CheckFault>
    ensures { IsUnlessNoMemory result (spec.within_quota rows.now.kept.state project.now kind) }
{
    let Some(limit) = effective(quota(rows, project), kind) else {
        return Ok(());
    };
    if count(rows, project, kind) < limit as u64 {
        return Ok(());
    }
    Err(CheckFault::Refused(Refusal::QuotaReached(kind, limit)))
}

// A limit as it is shown: -1 where there is none.
fn shown_limit(limit: Option<u32>) -> i64
    ensures { result ≡ spec.shown_limit limit }
{
    match limit {
        None => -1,
        Some(limit) => i64::from(limit),
    }
}

// The limits in force of a project.
fn limits_shown(project: Name, row: Option<&QuotaRow>) -> QuotaRow
    requires { ForSome (option_copied row) HasLimits }
    ensures { result ≡ spec.limits_shown project (option_copied row.entry) }
{
    QuotaRow {
        project,
        secrets: Some(shown_limit(effective(row, QuotaKind::Secrets))),
        orders: Some(shown_limit(effective(row, QuotaKind::Orders))),
        containers: Some(shown_limit(effective(row, QuotaKind::Containers))),
        consumers: Some(shown_limit(effective(row, QuotaKind::Consumers))),
    }
}

pub fn shown(rows: &Tables, caller: &Caller) -> Result<Outcome, CheckFault>
    ensures comes { Comes rows.now.kept.state.tag result (spec.quotas_shown rows.now.kept.state caller.now) }
    ensures possible { IfOk result (IsPossible rows.now.kept) }
{
    granted(caller, Action::QuotaGet)?;
    let row = quota(rows, &caller.project);
    Ok(Outcome {
        answer: Answer::Quotas(limits_shown(caller.project, row)),
        change: None,
    })
}

// The project that a path names.
fn named(project: Option<Name>) -> Result<Name, CheckFault>
    ensures { IsUnlessNoMemory result (there project) }
{
    match project {
        Some(project) => Ok(project),
        None => Err(CheckFault::Refused(Refusal::NoObject)),
    }
}

// The quotas of a project, as they were set.
fn set(rows: &Tables, project: &Name) -> Result<QuotaRow, CheckFault>
    ensures { IsUnlessNoMemory result (there (quota_of project.now rows.now.kept.state.quotas)) }
{
    match quota(rows, project) {
        Some(row) => Ok(*row),
        None => Err(CheckFault::Refused(Refusal::NoObject)),
    }
}

pub fn project_shown(
    rows: &Tables,
    caller: &Caller,
    project: Option<Name>,
) -> Result<Outcome, CheckFault>
    ensures comes { Comes rows.now.kept.state.tag result (spec.project_quotas_shown rows.now.kept.state caller.now project) }
    ensures possible { IfOk result (IsPossible rows.now.kept) }
{
    let name = named(project)?;
    granted(caller, Action::QuotaAdmin)?;
    Ok(Outcome {
        answer: Answer::ProjectQuotas(set(rows, &name)?),
        change: None,
    })
}

// A limit as it is recorded.
fn limit_of(value: i64) -> QuotaLimit
    requires { is_limit (Some value) ≡ true }
    ensures { result ≡ limit_of value }
{
    if value < 0 {
        QuotaLimit::Unlimited
    } else {
        QuotaLimit::AtMost(value as u32)
    }
}

fn optional_limit_of(value: Option<i64>) -> Option<QuotaLimit>
    requires { is_limit value ≡ true }
    ensures { result ≡ option_map limit_of value }
{
    match value {
        None => None,
        Some(value) => Some(limit_of(value)),
    }
}

// The change that sets all four.
fn put_of(project: Name, limits: Limits) -> QuotaPut
    requires { HasLimits (spec.row_with project limits) }
    ensures effect { quota_effect result.project result.limits ≡ effects.QuotaPut (spec.row_with project limits) }
    ensures range { IsQuotaPutInRange result }
    ensures some { is_some result.limits ≡ true }
{
    prove!(project.as_bytes().len() <= 64);
    QuotaPut {
        project,
        limits: Some(QuotaLimits {
            secrets: optional_limit_of(limits.secrets),
            orders: optional_limit_of(limits.orders),
            containers: optional_limit_of(limits.containers),
            consumers: optional_limit_of(limits.consumers),
        }),
    }
}

// The change that drops them.
fn drop_of(project: Name) -> QuotaPut
    ensures is { result ≡ record { project = project; limits = None } }
    ensures range { IsQuotaPutInRange result }
{
    prove!(project.as_bytes().len() <= 64);
    QuotaPut {
        project,
        limits: None,
    }
}

// The limits that a body sets.
fn limits_by(body: &QuotaBody) -> Result<Limits, CheckFault>
    ensures { IsUnlessNoMemory result (limits_of body.now) }
{
    check_quotas(body)
}

pub fn put(
    rows: &Tables,
    caller: &Caller,
    project: Option<Name>,
    body: Result<QuotaBody, Refusal>,
) -> Result<Outcome, CheckFault>
    ensures comes { Comes rows.now.kept.state.tag result (spec.project_quotas_put rows.now.kept.state caller.now project body) }
    ensures possible { IfOk result (IsPossible rows.now.kept) }
{
    let name = named(project)?;
    granted(caller, Action::QuotaAdmin)?;
    let body = given(body)?;
    let limits = limits_by(&body)?;
    Ok(Outcome {
        answer: Answer::Empty(204),
        change: Some(Change::QuotaPut(put_of(name, limits))),
    })
}

pub fn deleted(rows: &Tables, caller: &Caller, project: Option<Name>) -> Result<Outcome, CheckFault>
    ensures comes { Comes rows.now.kept.state.tag result (spec.project_quotas_deleted rows.now.kept.state caller.now project) }
    ensures possible { IfOk result (IsPossible rows.now.kept) }
{
    let name = named(project)?;
    granted(caller, Action::QuotaAdmin)?;
    set(rows, &name)?;
    Ok(Outcome {
        answer: Answer::Empty(204),
        change: Some(Change::QuotaPut(drop_of(name))),
    })
}
