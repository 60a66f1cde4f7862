// What an operation comes to.
ghost use Rattle.std.specs.Prelude.{◌≡◌, ◌<◌, true, IfOk, Result};
ghost use Rattle.kms_kept.specs.Kept.{Kept};
ghost use Rattle.kms_model.specs.Ask.{asked};
ghost use Rattle.kms_model.specs.Done.{Done};
ghost use Rattle.kms_operations.specs.Outcome.{Comes, IsPossible};
ghost use Rattle.kms_operations.specs.Plan.{Plans, IsPlanned, IsPlanOf, shows_none};
ghost use Rattle.kms_world.specs.State.{State};
ghost use Rattle.kms_world.specs.declared.refusal.Refusal.{Refusal};

use crate::{
    Outcome, Plan, access_lists, consumer_list, consumers, container_list, containers, members,
    metadata, payloads, quota_list, quotas, secret_list, secrets,
};
use kms_store::Tables;
use kms_world::{Caller, CheckFault, Op, Refusal};
use std::alloc::Global;

// The plan of an operation that puts and shows no payload.
fn plain(outcome: Result<Outcome, CheckFault>) -> Result<Plan, CheckFault>
    ensures plans { (s : State) (done : Result Done Refusal) → Comes s.tag outcome done → Plans s result done }
    ensures planned { (kept : Kept) → IfOk outcome (IsPossible kept) → IfOk result (IsPlanned kept) }
    ensures shows { IfOk result (λ plan. shows_none plan ≡ true) }
{
    match outcome {
        Ok(outcome) => Ok(Plan::Makes(outcome)),
        Err(fault) => Err(fault),
    }
}

/// What an operation of a caller at a time, in seconds since 1970, comes to over the rows: its answer, and the change that has
/// to be made before it is given, or the payload that has to be put or shown; or the refusal of the first test that it fails.
/// An operation that isn't served is refused as a path that isn't there. Nothing changes.
pub fn asked(
    alloc: Global,
    rows: &Tables,
    caller: &Caller,
    op: Op,
    moment: u64,
) -> Result<Plan, CheckFault>
    requires time { moment < 253402300800 }
    ensures plans { Plans rows.now.kept.state result (asked rows.now.kept.state caller.now op moment) }
    ensures planned { IfOk result (IsPlanned rows.now.kept) }
    ensures shows { IfOk result (IsPlanOf op) }
{
    match op {
        Op::ListSecrets { query } => plain(secret_list::listed(alloc, rows, caller, query, moment)),
        Op::PostSecret { body } => secrets::posted(alloc, rows, caller, body, moment),
        Op::GetSecret { id, accept } => plain(secrets::shown(
            alloc, rows, caller, id, &accept, moment,
        )),
        Op::PutPayload { id, put, body } => {
            payloads::put(alloc, rows, caller, id, &put, body.as_slice(), moment)
        }
        Op::GetPayload { id, accept } => payloads::shown(rows, caller, id, &accept, moment),
        Op::DeleteSecret { id } => plain(secrets::deleted(rows, caller, id)),
        Op::GetMetadata { id } => plain(metadata::shown(rows, caller, id, moment)),
        Op::PutMetadata { id, body } => plain(metadata::put(alloc, rows, caller, id, body, moment)),
        Op::PostPair { id, body } => plain(metadata::post_pair(
            alloc, rows, caller, id, body, moment,
        )),
        Op::GetPair { id, key } => plain(metadata::show_pair(
            alloc, rows, caller, id, &key, moment,
        )),
        Op::PutPair { id, key, body } => plain(metadata::put_pair(
            alloc, rows, caller, id, &key, body, moment,
        )),
        Op::DeletePair { id, key } => plain(metadata::delete_pair(
            alloc, rows, caller, id, &key, moment,
        )),
        Op::GetAcl { kind, id } => plain(access_lists::shown(rows, caller, kind, id, moment)),
        Op::PutAcl { kind, id, body } => plain(access_lists::put(
            alloc, rows, caller, kind, id, body, moment,
        )),
        Op::PatchAcl { kind, id, body } => plain(access_lists::patched(
            alloc, rows, caller, kind, id, body, moment,
        )),
        Op::DeleteAcl { kind, id } => plain(access_lists::deleted(rows, caller, kind, id, moment)),
        Op::ListContainers { query } => plain(container_list::listed(alloc, rows, caller, query)),
        Op::PostContainer { body } => plain(containers::posted(alloc, rows, caller, body, moment)),
        Op::GetContainer { id } => plain(containers::shown(alloc, rows, caller, id)),
        Op::DeleteContainer { id } => plain(containers::deleted(rows, caller, id)),
        Op::PostMember { id, body } => plain(members::posted(
            alloc, rows, caller, id, body, moment,
        )),
        Op::DeleteMember { id, body } => plain(members::deleted(
            alloc, rows, caller, id, body, moment,
        )),
        Op::ListConsumers { id, query } => plain(consumer_list::listed(
            alloc, rows, caller, id, query,
        )),
        Op::PostConsumer { id, body } => plain(consumers::posted(
            alloc, rows, caller, id, body, moment,
        )),
        Op::DeleteConsumer { id, body } => plain(consumers::deleted(
            alloc, rows, caller, id, body, moment,
        )),
        Op::GetQuotas => plain(quotas::shown(rows, caller)),
        Op::ListQuotas { query } => plain(quota_list::listed(alloc, rows, caller, query)),
        Op::GetProjectQuotas { project } => plain(quotas::project_shown(rows, caller, project)),
        Op::PutProjectQuotas { project, body } => plain(quotas::put(rows, caller, project, body)),
        Op::DeleteProjectQuotas { project } => plain(quotas::deleted(rows, caller, project)),
        Op::ListOrders { .. }
        | Op::PostOrder { .. }
        | Op::GetOrder { .. }
        | Op::DeleteOrder { .. } => Err(CheckFault::Refused(Refusal::NoRoute)),
    }
}
