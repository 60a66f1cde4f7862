// Operations on secrets.
ghost use Rattle.std.specs.Prelude.{◌≡◌, ◌<◌, true, IfOk, IfSome, Result, Some, Ok, option_copied};
ghost use Rattle.std.specs.Option.{ForSome};
ghost use Rattle.kms_kept.specs.Kept.{Kept};
ghost use Rattle.kms_model.specs.Done.{Done};
ghost use Rattle.kms_model.specs.Secrets as spec;
ghost use Rattle.kms_model.specs.Secrets.{posted_effects};
ghost use Rattle.kms_operations.specs.Found.{Finds, IsKeptSecret};
ghost use Rattle.kms_operations.specs.Outcome.{Comes, IsPossible};
ghost use Rattle.kms_operations.specs.Plan.{Plans, IsPlanned, shows_none};
ghost use Rattle.kms_record.specs.SecretPut.{IsInRange, row_of};
ghost use Rattle.kms_secret.specs.Ranges.{IsPayloadInRange, IsSecretInRange};
ghost use Rattle.kms_world.specs.Checked.{IsUnlessNoMemory};
ghost use Rattle.kms_world.specs.Secret.{attributes_of};
ghost use Rattle.kms_world.specs.State.{State};
ghost use Rattle.kms_world.specs.Times.{HasTimes};
ghost use Rattle.kms_world.specs.declared.refusal.Refusal.{Refusal};

use crate::accept::admits;
use crate::body::given;
use crate::count::{count_of, has_id};
use crate::names::names_fit;
use crate::permission::{granted, granted_on_secret};
use crate::quotas::within_quota;
use crate::{NewPayload, Outcome, Plan};
use kms_record::{Change, SecretPut};
use kms_secret::{NewSecret, check_secret};
use kms_store::{KeptSecret, Tables};
use kms_world::{
    Action, Answer, Caller, CheckFault, Id, Link, Media2, Payload, QuotaKind, Refusal, SecretBody,
    SecretRow, Text, id_of,
};
use std::alloc::Global;

pub fn is_live(moment: u64, expiration: Option<u64>) -> bool
    ensures { result ≡ spec.is_live moment expiration }
{
    match expiration {
        None => true,
        Some(expiration) => moment < expiration,
    }
}

// The secret under the id in a path, also where it has expired.
pub fn any_secret(rows: &Tables, id: Option<Id>) -> Option<&KeptSecret>
    ensures found { option_copied result ≡ spec.any_secret rows.now.kept.state id }
    ensures kept { IfSome (option_copied result) (IsKeptSecret rows.now.kept) }
{
    rows.secret(id?)
}

// The same, where it hasn't expired.
pub fn live_secret(rows: &Tables, id: Option<Id>, moment: u64) -> Option<&KeptSecret>
    ensures found { option_copied result ≡ spec.live_secret rows.now.kept.state id moment }
    ensures kept { IfSome (option_copied result) (IsKeptSecret rows.now.kept) }
{
    match any_secret(rows, id) {
        Some(secret) if is_live(moment, secret.row().expiration) => Some(secret),
        _ => None,
    }
}

// The secret that was found, if the policy grants the action on it.
pub fn secret_for<'a>(
    rows: &'a Tables,
    caller: &Caller,
    action: Action,
    found: Option<&'a KeptSecret>,
) -> Result<&'a KeptSecret, CheckFault>
    requires { ForSome (option_copied found) (IsKeptSecret rows.now.kept) }
    ensures finds { Finds result (spec.secret_for rows.now.kept.state caller.now action (option_copied found.entry)) }
    ensures kept { IfOk result (λ row. IsKeptSecret rows.now.kept row.now) }
{
    let Some(secret) = found else {
        return Err(CheckFault::Refused(Refusal::NoObject));
    };
    granted_on_secret(rows, caller, action, secret.row())?;
    Ok(secret)
}

// The secret that a body asks for, of a caller who may make one.
fn wanted(
    alloc: Global,
    caller: &Caller,
    body: Result<SecretBody, Refusal>,
    moment: u64,
) -> Result<NewSecret, CheckFault>
    ensures is { IsUnlessNoMemory result (spec.wanted caller.now body moment) }
    ensures range { IfOk result (IsSecretInRange moment) }
{
    granted(caller, Action::SecretCreate)?;
    let body = given(body)?;
    let new = check_secret(alloc, &body, moment)?;
    Ok(new)
}

// What a new secret comes to that is put so: with the payload that it has, if any.
fn posting(answer: Answer, put: SecretPut, payload: Option<Payload>) -> Plan
    ensures plans { (s : State) (done : Result Done Refusal) → done ≡ Ok (record { answer = answer; effects = posted_effects (row_of s.tag put) put.updated payload }) → Plans s (Ok result) done }
    ensures planned { (kept : Kept) → HasTimes answer → IsInRange put → put.id ≡ kept.state.ids → IfSome payload IsPayloadInRange → IsPlanned kept result }
    ensures shows { shows_none result ≡ true }
{
    match payload {
        None => Plan::Makes(Outcome {
            answer,
            change: Some(Change::SecretPut(put)),
        }),
        Some(payload) => Plan::Puts(NewPayload {
            answer,
            id: put.id,
            updated: put.updated,
            project: put.project,
            secret: Some(put),
            payload,
        }),
    }
}

pub fn posted(
    alloc: Global,
    rows: &Tables,
    caller: &Caller,
    body: Result<SecretBody, Refusal>,
    moment: u64,
) -> Result<Plan, CheckFault>
    requires time { moment < 253402300800 }
    ensures plans { Plans rows.now.kept.state result (spec.posted rows.now.kept.state caller.now body moment) }
    ensures planned { IfOk result (IsPlanned rows.now.kept) }
    ensures shows { IfOk result (λ plan. shows_none plan ≡ true) }
{
    let new = wanted(alloc, caller, body, moment)?;
    within_quota(rows, &caller.project, QuotaKind::Secrets)?;
    if !has_id(rows) {
        return Err(CheckFault::Refused(Refusal::IdsSpent));
    }
    let put = SecretPut {
        id: rows.ids(),
        project: caller.project,
        creator: caller.user,
        created: moment,
        updated: moment,
        name: new.name,
        algorithm: new.algorithm,
        bit_length: new.bit_length,
        mode: new.mode,
        kind: new.kind,
        expiration: new.expiration,
    };
    names_fit(caller);
    let answer = Answer::Link {
        status: 201,
        link: Link::Secret,
        id: id_of(rows.tag(), rows.ids()),
    };
    Ok(posting(answer, put, new.payload))
}

// The attributes of a secret, without what is kept of its payload.
fn attributes(alloc: Global, secret: &KeptSecret) -> Result<SecretRow, CheckFault>
    ensures { IsUnlessNoMemory result (Ok (attributes_of secret.now)) }
{
    match secret.row().attributes(alloc) {
        Ok(row) => Ok(row),
        Err(_) => Err(CheckFault::NoMemory),
    }
}

pub fn shown(
    alloc: Global,
    rows: &Tables,
    caller: &Caller,
    id: Option<Id>,
    accept: &Option<Text>,
    moment: u64,
) -> Result<Outcome, CheckFault>
    ensures comes { Comes rows.now.kept.state.tag result (spec.shown rows.now.kept.state caller.now id accept.now moment) }
    ensures possible { IfOk result (IsPossible rows.now.kept) }
{
    let found = live_secret(rows, id, moment);
    let secret = secret_for(rows, caller, Action::SecretGet, found)?;
    if !admits(accept, Media2::Json) {
        return Err(CheckFault::Refused(Refusal::NotAcceptable));
    }
    Ok(Outcome {
        answer: Answer::Secret(attributes(alloc, secret)?),
        change: None,
    })
}

pub fn deleted(rows: &Tables, caller: &Caller, id: Option<Id>) -> Result<Outcome, CheckFault>
    ensures comes { Comes rows.now.kept.state.tag result (spec.deleted rows.now.kept.state caller.now id) }
    ensures possible { IfOk result (IsPossible rows.now.kept) }
{
    let found = any_secret(rows, id);
    let secret = secret_for(rows, caller, Action::SecretDelete, found)?;
    Ok(Outcome {
        answer: Answer::Empty(204),
        change: Some(Change::Deleted(count_of(secret.row().id))),
    })
}
