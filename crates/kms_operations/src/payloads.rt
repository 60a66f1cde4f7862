// Operations on the payloads of secrets.
ghost use Rattle.std.specs.Prelude.{◌≡◌, ◌<◌, true, IfOk};
ghost use Rattle.kms_model.specs.Payloads as spec;
ghost use Rattle.kms_operations.specs.Plan.{Plans, IsPlanned, IsShownAt, shows_none};

use crate::accept::admits;
use crate::count::count_of;
use crate::secrets::{live_secret, secret_for};
use crate::{NewPayload, Plan};
use kms_secret::check_payload;
use kms_store::Tables;
use kms_world::{Action, Answer, Caller, CheckFault, Id, Media, Media2, PutShape, Refusal, Text};
use std::alloc::Global;

// The media type of the answer that shows a payload.
fn type_of(media: Media) -> Media2
    ensures { result ≡ spec.type_of media }
{
    match media {
        Media::TextPlain => Media2::TextPlain,
        Media::OctetStream => Media2::OctetStream,
    }
}

pub fn shown(
    rows: &Tables,
    caller: &Caller,
    id: Option<Id>,
    accept: &Option<Text>,
    moment: u64,
) -> Result<Plan, CheckFault>
    ensures plans { Plans rows.now.kept.state result (spec.payload_shown rows.now.kept.state caller.now id accept.now moment) }
    ensures at { IfOk result (IsShownAt id) }
{
    let Some(at) = id else {
        return Err(CheckFault::Refused(Refusal::NoObject));
    };
    let found = live_secret(rows, Some(at), moment);
    let secret = secret_for(rows, caller, Action::SecretDecrypt, found)?;
    let Some(payload) = &secret.row().payload else {
        return Err(CheckFault::Refused(Refusal::NoObject));
    };
    if !admits(accept, type_of(payload.media)) {
        return Err(CheckFault::Refused(Refusal::NotAcceptable));
    }
    Ok(Plan::Shows(at))
}

pub fn put(
    alloc: Global,
    rows: &Tables,
    caller: &Caller,
    id: Option<Id>,
    shape: &PutShape,
    body: &[u8],
    moment: u64,
) -> Result<Plan, CheckFault>
    requires time { moment < 253402300800 }
    ensures plans { Plans rows.now.kept.state result (spec.payload_put rows.now.kept.state caller.now id shape.now body.now moment) }
    ensures planned { IfOk result (IsPlanned rows.now.kept) }
    ensures shows { IfOk result (λ plan. shows_none plan ≡ true) }
{
    let found = live_secret(rows, id, moment);
    let secret = secret_for(rows, caller, Action::SecretWrite, found)?;
    let payload = check_payload(alloc, shape, body)?;
    let row = secret.row();
    if row.payload.is_some() {
        return Err(CheckFault::Refused(Refusal::Conflict));
    }
    Ok(Plan::Puts(NewPayload {
        answer: Answer::Empty(204),
        secret: None,
        id: count_of(row.id),
        updated: moment,
        project: row.project,
        payload,
    }))
}
