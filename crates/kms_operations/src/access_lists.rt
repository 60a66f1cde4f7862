// Operations on access lists, of secrets and of containers.
ghost use Rattle.std.specs.Prelude.{◌≡◌, ◌<◌, [], IfOk, Ok, option_copied, unwrap_or};
ghost use Rattle.kms_model.specs.AccessLists as spec;
ghost use Rattle.kms_operations.specs.Change.{drop_of};
ghost use Rattle.kms_operations.specs.Found.{IsTarget};
ghost use Rattle.kms_operations.specs.Outcome.{Comes, IsPossible};
ghost use Rattle.kms_policy.specs.Policy.{users_listed, has_project_access};
ghost use Rattle.kms_record.specs.Base.{acl_put_of, count_of};
ghost use Rattle.kms_world.specs.Checked.{IsUnlessNoMemory};

use crate::Outcome;
use crate::body::given;
use crate::containers::{any_container, container_for};
use crate::count::count_of;
use crate::secrets::{live_secret, secret_for};
use kms_policy::{AclChange, check_acl};
use kms_record::{AclPut, Change};
use kms_store::Tables;
use kms_world::{
    AclBody, AclKind, AclRow, Action, Answer, Caller, CheckFault, Id, Link, Names, Refusal,
};
use std::alloc::Global;

// What the access list is of, if it is there, and then if the policy grants the action on it.
fn target_for(
    rows: &Tables,
    caller: &Caller,
    action: Action,
    kind: AclKind,
    id: Option<Id>,
    moment: u64,
) -> Result<Id, CheckFault>
    ensures is { IsUnlessNoMemory result (spec.target_for rows.now.kept.state caller.now action kind id moment) }
    ensures kept { IfOk result (IsTarget rows.now.kept) }
{
    match kind {
        AclKind::Secret => {
            let found = live_secret(rows, id, moment);
            let secret = secret_for(rows, caller, action, found)?;
            Ok(secret.row().id)
        }
        AclKind::Container => {
            let found = any_container(rows, id);
            let container = container_for(rows, caller, action, found)?;
            Ok(container.id)
        }
    }
}

fn link_of(kind: AclKind) -> Link
    ensures { result ≡ spec.link_of kind }
{
    match kind {
        AclKind::Secret => Link::SecretAcl,
        AclKind::Container => Link::ContainerAcl,
    }
}

// A copy of an access list, where there is one.
fn copied(acl: Option<&AclRow>) -> Result<Option<AclRow>, CheckFault>
    ensures { IsUnlessNoMemory result (Ok (option_copied acl.entry)) }
{
    let Some(acl) = acl else {
        return Ok(None);
    };
    match acl.copied() {
        Ok(copy) => Ok(Some(copy)),
        Err(_) => Err(CheckFault::NoMemory),
    }
}

// A copy of the users on an access list; nobody is where there is none.
fn users_listed(alloc: Global, acl: Option<&AclRow>) -> Result<Names, CheckFault>
    ensures { IsUnlessNoMemory result (Ok (users_listed (option_copied acl.entry))) }
{
    let Some(acl) = acl else {
        return Ok(Names::new(alloc));
    };
    match acl.users.copied() {
        Ok(copy) => Ok(copy),
        Err(_) => Err(CheckFault::NoMemory),
    }
}

fn has_project_access(acl: Option<&AclRow>) -> bool
    ensures { result ≡ has_project_access (option_copied acl.entry) }
{
    match acl {
        None => true,
        Some(acl) => acl.project_access,
    }
}

fn created_by(acl: Option<&AclRow>, moment: u64) -> u64
    ensures { result ≡ spec.created_by (option_copied acl.entry) moment }
{
    match acl {
        None => moment,
        Some(acl) => acl.created,
    }
}

// The users that a body names, or nobody.
fn users_put(alloc: Global, users: Option<Names>) -> Names
    ensures { result ≡ unwrap_or users [] }
{
    match users {
        Some(users) => users,
        None => Names::new(alloc),
    }
}

// The users that a body names, or those of the list that was there.
fn users_patched(
    alloc: Global,
    users: Option<Names>,
    old: Option<&AclRow>,
) -> Result<Names, CheckFault>
    ensures { IsUnlessNoMemory result (Ok (unwrap_or users (users_listed (option_copied old.entry)))) }
{
    match users {
        Some(users) => Ok(users),
        None => users_listed(alloc, old),
    }
}

fn access_or(access: Option<bool>, other: bool) -> bool
    ensures { result ≡ unwrap_or access other }
{
    match access {
        Some(access) => access,
        None => other,
    }
}

// The change that puts the whole list anew.
fn put_of(alloc: Global, target: Id, old: Option<&AclRow>, change: AclChange, moment: u64) -> AclPut
    ensures { result ≡ acl_put_of (spec.list_put target (option_copied old.entry) change moment) }
{
    AclPut {
        target: count_of(target),
        project_access: access_or(change.project_access, true),
        created: created_by(old, moment),
        updated: moment,
        users: users_put(alloc, change.users),
    }
}

// The change that keeps of the list what the body doesn't say.
fn patch_of(
    alloc: Global,
    target: Id,
    old: Option<&AclRow>,
    change: AclChange,
    moment: u64,
) -> Result<AclPut, CheckFault>
    ensures { IsUnlessNoMemory result (Ok (acl_put_of (spec.list_patched target (option_copied old.entry) change moment))) }
{
    Ok(AclPut {
        target: count_of(target),
        project_access: access_or(change.project_access, has_project_access(old)),
        created: created_by(old, moment),
        updated: moment,
        users: users_patched(alloc, change.users, old)?,
    })
}

pub fn shown(
    rows: &Tables,
    caller: &Caller,
    kind: AclKind,
    id: Option<Id>,
    moment: u64,
) -> Result<Outcome, CheckFault>
    ensures comes { Comes rows.now.kept.state.tag result (spec.acl_shown rows.now.kept.state caller.now kind id moment) }
    ensures possible { IfOk result (IsPossible rows.now.kept) }
{
    let target = target_for(rows, caller, Action::AclGet, kind, id, moment)?;
    Ok(Outcome {
        answer: Answer::Acl(copied(rows.acl(target))?),
        change: None,
    })
}

pub fn put(
    alloc: Global,
    rows: &Tables,
    caller: &Caller,
    kind: AclKind,
    id: Option<Id>,
    body: Result<AclBody, Refusal>,
    moment: u64,
) -> Result<Outcome, CheckFault>
    requires time { moment < 253402300800 }
    ensures comes { Comes rows.now.kept.state.tag result (spec.acl_put rows.now.kept.state caller.now kind id body moment) }
    ensures possible { IfOk result (IsPossible rows.now.kept) }
{
    let target = target_for(rows, caller, Action::AclWrite, kind, id, moment)?;
    let body = given(body)?;
    let change = check_acl(alloc, &body)?;
    let put = put_of(alloc, target, rows.acl(target), change, moment);
    Ok(Outcome {
        answer: Answer::Link {
            status: 200,
            link: link_of(kind),
            id: target,
        },
        change: Some(Change::AclPut(put)),
    })
}

pub fn patched(
    alloc: Global,
    rows: &Tables,
    caller: &Caller,
    kind: AclKind,
    id: Option<Id>,
    body: Result<AclBody, Refusal>,
    moment: u64,
) -> Result<Outcome, CheckFault>
    requires time { moment < 253402300800 }
    ensures comes { Comes rows.now.kept.state.tag result (spec.acl_patched rows.now.kept.state caller.now kind id body moment) }
    ensures possible { IfOk result (IsPossible rows.now.kept) }
{
    let target = target_for(rows, caller, Action::AclWrite, kind, id, moment)?;
    let body = given(body)?;
    let change = check_acl(alloc, &body)?;
    let put = patch_of(alloc, target, rows.acl(target), change, moment)?;
    Ok(Outcome {
        answer: Answer::Link {
            status: 200,
            link: link_of(kind),
            id: target,
        },
        change: Some(Change::AclPut(put)),
    })
}

// The change that drops an access list, where there is one.
fn dropped(target: Id, acl: Option<&AclRow>) -> Option<Change>
    ensures { result ≡ drop_of (count_of target) (option_copied acl.entry) }
{
    match acl {
        None => None,
        Some(_) => Some(Change::AclDropped(count_of(target))),
    }
}

pub fn deleted(
    rows: &Tables,
    caller: &Caller,
    kind: AclKind,
    id: Option<Id>,
    moment: u64,
) -> Result<Outcome, CheckFault>
    ensures comes { Comes rows.now.kept.state.tag result (spec.acl_deleted rows.now.kept.state caller.now kind id moment) }
    ensures possible { IfOk result (IsPossible rows.now.kept) }
{
    let target = target_for(rows, caller, Action::AclWrite, kind, id, moment)?;
    Ok(Outcome {
        answer: Answer::Empty(200),
        change: dropped(target, rows.acl(target)),
    })
}
