// Operations on containers.
ghost use Rattle.std.specs.Prelude.{◌≡◌, ◌<◌, true, IfOk, IfSome, Ok, filter, length, nat_lt, option_copied};
ghost use Rattle.std.specs.List.{list_all, list_any};
ghost use Rattle.std.specs.Option.{ForSome};
ghost use Rattle.kms_box.specs.Ranges.{IsContainerInRange};
ghost use Rattle.kms_model.specs.Containers as spec;
ghost use Rattle.kms_operations.specs.Found.{Finds, IsKeptContainer};
ghost use Rattle.kms_operations.specs.Outcome.{Comes, IsPossible};
ghost use Rattle.kms_world.specs.Checked.{IsUnlessNoMemory};
ghost use Rattle.kms_world.specs.Id.{is_id};

use crate::Outcome;
use crate::body::given;
use crate::container_put::new_of;
use crate::count::{count_of, has_id};
use crate::permission::{granted, granted_on_container};
use crate::quotas::within_quota;
use crate::secrets::live_secret;
use kms_box::{NewContainer, check_container};
use kms_record::Change;
use kms_store::Tables;
use kms_world::{
    Action, Answer, Caller, CheckFault, ConsumerRow, ConsumerRows, ContainerBody, ContainerRow,
    ContainerView, Id, Link, NoMemory, QuotaKind, Refusal, Text, id_of,
};
use std::alloc::Global;

// The container under the id in a path.
pub fn any_container(rows: &Tables, id: Option<Id>) -> Option<&ContainerRow>
    ensures found { option_copied result ≡ spec.any_container rows.now.kept.state id }
    ensures kept { IfSome (option_copied result) (IsKeptContainer rows.now.kept) }
{
    rows.container(id?)
}

// The container that was found, if the policy grants the action on it.
pub fn container_for<'a>(
    rows: &'a Tables,
    caller: &Caller,
    action: Action,
    found: Option<&'a ContainerRow>,
) -> Result<&'a ContainerRow, CheckFault>
    requires { ForSome (option_copied found) (IsKeptContainer rows.now.kept) }
    ensures finds { Finds result (spec.container_for rows.now.kept.state caller.now action (option_copied found.entry)) }
    ensures kept { IfOk result (λ row. IsKeptContainer rows.now.kept row.now) }
{
    let Some(container) = found else {
        return Err(CheckFault::Refused(Refusal::NoObject));
    };
    granted_on_container(rows, caller, action, container)?;
    Ok(container)
}

// Whether the secret that a member names is there, and the caller's project's.
pub fn is_usable(rows: &Tables, caller: &Caller, moment: u64, member: &(Option<Text>, Id)) -> bool
    ensures { result ≡ spec.is_usable rows.now.kept.state caller.now moment member.now }
{
    match live_secret(rows, Some(member.1), moment) {
        Some(secret) => secret.row().project.as_bytes() == caller.project.as_bytes(),
        None => false,
    }
}

fn are_usable(rows: &Tables, caller: &Caller, moment: u64, members: &[(Option<Text>, Id)]) -> bool
    ensures { result ≡ list_all (spec.is_usable rows.now.kept.state caller.now moment) members.now }
{
    members
        .iter()
        .all(|member| is_usable(rows, caller, moment, member))
}

// Those of these consumers that are a container's, copied.
fn those_of(alloc: Global, id: Id, consumers: &[ConsumerRow]) -> Result<ConsumerRows, NoMemory>
    ensures { IfOk result (λ all. all ≡ filter (λ r. is_id id r.container) consumers.now) }
{
    let mut all = ConsumerRows::new(alloc);
    for row in consumers {
        if row.container.0 == id.0 {
            all.push(row.copied()?)?;
        }
    }
    Ok(all)
}

// A container as it is shown.
pub fn view_of(alloc: Global, rows: &Tables, row: &ContainerRow) -> Result<ContainerView, NoMemory>
    ensures { IfOk result (λ view. view ≡ spec.view_of rows.now.kept.state row.now) }
{
    let copy = row.copied(alloc)?;
    let consumers = those_of(alloc, row.id, rows.consumers())?;
    Ok(ContainerView {
        row: copy,
        consumers,
    })
}

pub fn viewed(alloc: Global, rows: &Tables, row: &ContainerRow) -> Result<ContainerView, CheckFault>
    ensures { IsUnlessNoMemory result (Ok (spec.view_of rows.now.kept.state row.now)) }
{
    match view_of(alloc, rows, row) {
        Ok(view) => Ok(view),
        Err(_) => Err(CheckFault::NoMemory),
    }
}

// The container that a body asks for, of a caller who may make one; the secrets that it names are there.
fn wanted(
    alloc: Global,
    rows: &Tables,
    caller: &Caller,
    body: Result<ContainerBody, Refusal>,
    moment: u64,
) -> Result<NewContainer, CheckFault>
    ensures is { IsUnlessNoMemory result (spec.container_wanted rows.now.kept.state caller.now body moment) }
    ensures range { IfOk result IsContainerInRange }
    ensures usable { IfOk result (λ new. list_all (spec.is_usable rows.now.kept.state caller.now moment) new.secrets ≡ true) }
{
    granted(caller, Action::ContainerCreate)?;
    let body = given(body)?;
    let new = check_container(alloc, &body)?;
    if !are_usable(rows, caller, moment, new.secrets.as_slice()) {
        return Err(CheckFault::Refused(Refusal::NoObject));
    }
    Ok(new)
}

pub fn posted(
    alloc: Global,
    rows: &Tables,
    caller: &Caller,
    body: Result<ContainerBody, Refusal>,
    moment: u64,
) -> Result<Outcome, CheckFault>
    requires time { moment < 253402300800 }
    ensures comes { Comes rows.now.kept.state.tag result (spec.container_posted rows.now.kept.state caller.now body moment) }
    ensures possible { IfOk result (IsPossible rows.now.kept) }
{
    let new = wanted(alloc, rows, caller, body, moment)?;
    within_quota(rows, &caller.project, QuotaKind::Containers)?;
    if !has_id(rows) {
        return Err(CheckFault::Refused(Refusal::IdsSpent));
    }
    match new_of(alloc, rows, caller, new, moment) {
        Ok(put) => Ok(Outcome {
            answer: Answer::Link {
                status: 201,
                link: Link::Container,
                id: id_of(rows.tag(), rows.ids()),
            },
            change: Some(Change::ContainerPut(put)),
        }),
        Err(_) => Err(CheckFault::NoMemory),
    }
}

pub fn shown(
    alloc: Global,
    rows: &Tables,
    caller: &Caller,
    id: Option<Id>,
) -> Result<Outcome, CheckFault>
    ensures comes { Comes rows.now.kept.state.tag result (spec.container_shown rows.now.kept.state caller.now id) }
    ensures possible { IfOk result (IsPossible rows.now.kept) }
{
    let found = any_container(rows, id);
    let container = container_for(rows, caller, Action::ContainerGet, found)?;
    Ok(Outcome {
        answer: Answer::Container(viewed(alloc, rows, container)?),
        change: None,
    })
}

pub fn deleted(rows: &Tables, caller: &Caller, id: Option<Id>) -> Result<Outcome, CheckFault>
    ensures comes { Comes rows.now.kept.state.tag result (spec.container_deleted rows.now.kept.state caller.now id) }
    ensures possible { IfOk result (IsPossible rows.now.kept) }
{
    let found = any_container(rows, id);
    let container = container_for(rows, caller, Action::ContainerDelete, found)?;
    Ok(Outcome {
        answer: Answer::Empty(204),
        change: Some(Change::Deleted(count_of(container.id))),
    })
}
