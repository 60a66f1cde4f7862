// Operations on the members of a container.
ghost use Rattle.std.specs.Prelude.{◌≡◌, ◌<◌, ◌++◌, [], ◌∷◌, true, IfOk, Ok, map, option_copied};
ghost use Rattle.std.specs.List.{list_any};
ghost use Rattle.kms_box.specs.Ranges.{IsMemberInRange};
ghost use Rattle.kms_model.specs.Containers as spec;
ghost use Rattle.kms_operations.specs.Change.{members_put};
ghost use Rattle.kms_operations.specs.Found.{IsKeptContainer};
ghost use Rattle.kms_operations.specs.Outcome.{Comes, Fits, IsPossible};
ghost use Rattle.kms_record.specs.Base.{member_of};
ghost use Rattle.kms_record.specs.ChangeEffect.{container_at};
ghost use Rattle.kms_record.specs.declared.change.Change.TheVariants as changes;
ghost use Rattle.kms_world.specs.Checked.{IsUnlessNoMemory};

use crate::Outcome;
use crate::body::given;
use crate::container_put::{all_recorded, recorded, see};
use crate::containers::{any_container, container_for, is_usable};
use crate::count::count_of;
use kms_box::check_member;
use kms_record::{Change, ContainerPut, MemberList};
use kms_store::Tables;
use kms_world::{
    Action, Answer, Caller, CheckFault, ContainerKind, ContainerRow, Field, Id, Link, MemberBody,
    NoMemory, Refusal, Text, copied,
};
use std::alloc::Global;

const MOST_MEMBERS: usize = 100;

fn is_generic(kind: ContainerKind) -> bool
    ensures { result ≡ spec.is_generic kind }
{
    match kind {
        ContainerKind::Generic => true,
        ContainerKind::Rsa | ContainerKind::Certificate => false,
    }
}

fn same_text(a: &Option<Text>, b: &Option<Text>) -> bool
    ensures { result ≡ spec.same_text a.now b.now }
{
    match (a, b) {
        (None, None) => true,
        (None, Some(_)) => false,
        (Some(_), None) => false,
        (Some(a), Some(b)) => a.as_str() == b.as_str(),
    }
}

fn is_member(member: &(Option<Text>, Id), other: &(Option<Text>, Id)) -> bool
    ensures { result ≡ spec.is_member member.now other.now }
{
    same_text(&member.0, &other.0) && other.1.0 == member.1.0
}

fn names_secret(id: Id, member: &(Option<Text>, Id)) -> bool
    ensures { result ≡ spec.names_secret id member.now }
{
    member.1.0 == id.0
}

fn has_secret(members: &[(Option<Text>, Id)], id: Id) -> bool
    ensures { result ≡ list_any (spec.names_secret id) members.now }
{
    members.iter().any(|member| names_secret(id, member))
}

fn has_member(members: &[(Option<Text>, Id)], member: &(Option<Text>, Id)) -> bool
    ensures { result ≡ list_any (spec.is_member member.now) members.now }
{
    members.iter().any(|other| is_member(member, other))
}

// The container takes this member too.
fn takes(
    rows: &Tables,
    caller: &Caller,
    row: &ContainerRow,
    member: &(Option<Text>, Id),
    moment: u64,
) -> Result<(), CheckFault>
    ensures { IsUnlessNoMemory result (spec.takes_member rows.now.kept.state caller.now row.now member.now moment) }
{
    let members = row.secrets.as_slice();
    if members.len() >= MOST_MEMBERS {
        return Err(CheckFault::Refused(Refusal::BadBody(Field::SecretRefs)));
    }
    if !is_usable(rows, caller, moment, member) {
        return Err(CheckFault::Refused(Refusal::NoObject));
    }
    if !is_generic(row.kind) || has_secret(members, member.1) {
        return Err(CheckFault::Refused(Refusal::Conflict));
    }
    Ok(())
}

// The container gives this member up.
fn gives_up(row: &ContainerRow, member: &(Option<Text>, Id)) -> Result<(), CheckFault>
    ensures { IsUnlessNoMemory result (spec.gives_up_member row.now member.now) }
{
    if !has_member(row.secrets.as_slice(), member) {
        return Err(CheckFault::Refused(Refusal::NoObject));
    }
    if !is_generic(row.kind) {
        return Err(CheckFault::Refused(Refusal::Conflict));
    }
    Ok(())
}

// Members as they are recorded, with one more.
fn recorded_with(
    alloc: Global,
    members: &[(Option<Text>, Id)],
    member: &(Option<Text>, Id),
) -> Result<MemberList, NoMemory>
    ensures { IfOk result (λ list. list ≡ map member_of (members.now ++ member.now ∷ [])) }
{
    let mut list = all_recorded(alloc, members)?;
    list.push(recorded(member)?)?;
    Ok(list)
}

// Members as they are recorded, but for this one.
fn recorded_without(
    alloc: Global,
    members: &[(Option<Text>, Id)],
    member: &(Option<Text>, Id),
) -> Result<MemberList, NoMemory>
    ensures { IfOk result (λ list. list ≡ map member_of (spec.members_without member.now members.now)) }
{
    let mut list = MemberList::new(alloc);
    for other in members {
        if !is_member(member, other) {
            list.push(recorded(other)?)?;
        }
    }
    Ok(list)
}

// The change that gives the container these members.
fn put_of(row: &ContainerRow, members: MemberList, moment: u64) -> Result<ContainerPut, NoMemory>
    ensures { IfOk result (λ put. put ≡ members_put row.now members moment) }
{
    Ok(ContainerPut {
        id: count_of(row.id),
        project: row.project,
        creator: row.creator,
        created: row.created,
        updated: moment,
        name: copied(&row.name)?,
        kind: row.kind,
        members,
    })
}

// The change that adds a member, which the container takes.
fn put_with(
    alloc: Global,
    rows: &Tables,
    caller: &Caller,
    row: &ContainerRow,
    member: &(Option<Text>, Id),
    moment: u64,
) -> Result<ContainerPut, NoMemory>
    requires kept { IsKeptContainer rows.now.kept row.now }
    requires time { moment < 253402300800 }
    requires range { IsMemberInRange member.now }
    requires takes { spec.takes_member rows.now.kept.state caller.now row.now member.now moment ≡ Ok tt }
    ensures row { IfOk result (λ put. container_at rows.now.kept.state.tag put ≡ spec.with_members (row.now.secrets ++ member.now ∷ []) moment row.now) }
    ensures fits { IfOk result (λ put. Fits rows.now.kept (changes.ContainerPut put)) }
{
    see(rows);
    let members = recorded_with(alloc, row.secrets.as_slice(), member)?;
    put_of(row, members, moment)
}

// The change that takes a member away.
fn put_without(
    alloc: Global,
    rows: &Tables,
    row: &ContainerRow,
    member: &(Option<Text>, Id),
    moment: u64,
) -> Result<ContainerPut, NoMemory>
    requires kept { IsKeptContainer rows.now.kept row.now }
    requires time { moment < 253402300800 }
    ensures row { IfOk result (λ put. container_at rows.now.kept.state.tag put ≡ spec.with_members (spec.members_without member.now row.now.secrets) moment row.now) }
    ensures fits { IfOk result (λ put. Fits rows.now.kept (changes.ContainerPut put)) }
{
    let members = recorded_without(alloc, row.secrets.as_slice(), member)?;
    put_of(row, members, moment)
}

pub fn posted(
    alloc: Global,
    rows: &Tables,
    caller: &Caller,
    id: Option<Id>,
    body: Result<MemberBody, Refusal>,
    moment: u64,
) -> Result<Outcome, CheckFault>
    requires time { moment < 253402300800 }
    ensures comes { Comes rows.now.kept.state.tag result (spec.member_posted rows.now.kept.state caller.now id body moment) }
    ensures possible { IfOk result (IsPossible rows.now.kept) }
{
    let found = any_container(rows, id);
    let container = container_for(rows, caller, Action::ContainerWrite, found)?;
    let body = given(body)?;
    let member = check_member(&body)?;
    takes(rows, caller, container, &member, moment)?;
    match put_with(alloc, rows, caller, container, &member, moment) {
        Ok(put) => Ok(Outcome {
            answer: Answer::Link {
                status: 201,
                link: Link::Container,
                id: container.id,
            },
            change: Some(Change::ContainerPut(put)),
        }),
        Err(_) => Err(CheckFault::NoMemory),
    }
}

pub fn deleted(
    alloc: Global,
    rows: &Tables,
    caller: &Caller,
    id: Option<Id>,
    body: Result<MemberBody, Refusal>,
    moment: u64,
) -> Result<Outcome, CheckFault>
    requires time { moment < 253402300800 }
    ensures comes { Comes rows.now.kept.state.tag result (spec.member_deleted rows.now.kept.state caller.now id body moment) }
    ensures possible { IfOk result (IsPossible rows.now.kept) }
{
    let found = any_container(rows, id);
    let container = container_for(rows, caller, Action::ContainerWrite, found)?;
    let body = given(body)?;
    let member = check_member(&body)?;
    gives_up(container, &member)?;
    match put_without(alloc, rows, container, &member, moment) {
        Ok(put) => Ok(Outcome {
            answer: Answer::Empty(204),
            change: Some(Change::ContainerPut(put)),
        }),
        Err(_) => Err(CheckFault::NoMemory),
    }
}
