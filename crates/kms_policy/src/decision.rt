// The decision on a request.
ghost use Rattle.std.specs.Prelude.{◌≡◌, option_map, option_copied};
ghost use Rattle.kms_policy.specs.Policy as spec;

use crate::names::{is_among, is_same};
use crate::table::entry_of;
use kms_world::{AclRow, Action, Caller, Name, Roles, Rule, Why};

/// The row that a request is about. The access list is the secret's own, or that of the container or of the consumer's
/// container; None where there is none, as for orders.
#[derive(Clone, Copy, Debug)]
pub struct Target<'a> {
    pub project: Name,
    /// the user who made it
    pub creator: Name,
    pub acl: Option<&'a AclRow>,
}

fn is_on_list(acl: Option<&AclRow>, user: &Name) -> bool
    ensures { result ≡ spec.is_among user.now (spec.users_listed (option_copied acl.entry)) }
{
    match acl {
        None => false,
        Some(acl) => is_among(user, acl.users.as_slice()),
    }
}

fn has_project_access(acl: Option<&AclRow>) -> bool
    ensures { result ≡ spec.has_project_access (option_copied acl.entry) }
{
    match acl {
        None => true,
        Some(acl) => acl.project_access,
    }
}

fn is_listed(target: Option<&Target>, user: &Name) -> bool
    ensures { result ≡ spec.is_listed (option_map spec.row_of (option_copied target.entry)) user.now }
{
    match target {
        None => false,
        Some(target) => is_on_list(target.acl, user),
    }
}

fn is_elsewhere(target: Option<&Target>, project: &Name) -> bool
    ensures { result ≡ spec.is_elsewhere (option_map spec.row_of (option_copied target.entry)) project.now }
{
    match target {
        None => false,
        Some(target) => !is_same(&target.project, project),
    }
}

fn is_made_by(target: Option<&Target>, user: &Name) -> bool
    ensures { result ≡ spec.is_made_by (option_map spec.row_of (option_copied target.entry)) user.now }
{
    match target {
        None => false,
        Some(target) => is_same(&target.creator, user),
    }
}

fn is_private(target: Option<&Target>) -> bool
    ensures { result ≡ spec.is_private (option_map spec.row_of (option_copied target.entry)) }
{
    match target {
        None => false,
        Some(target) => !has_project_access(target.acl),
    }
}

fn share_role(held: &Roles, served: &Roles) -> bool
    ensures { result ≡ spec.share_role held.now served.now }
{
    (held.admin && served.admin)
        || (held.creator && served.creator)
        || (held.observer && served.observer)
        || (held.audit && served.audit)
        || (held.service_admin && served.service_admin)
}

/// Whether the action is granted to the caller on the row that it is about, by the first of the policy's rules that
/// applies; None where it is about no row. The error names the action and why it is denied.
#[tactic(auto, unfolding(crate::specs::Policy::decision))]
pub fn decide(caller: &Caller, action: Action, target: Option<&Target>) -> Result<(), Rule>
    ensures { result ≡ spec.decision caller.now action (option_map spec.row_of (option_copied target.entry)) }
{
    let entry = entry_of(action);
    if entry.list_serves && is_listed(target, &caller.user) {
        return Ok(());
    }
    if is_elsewhere(target, &caller.project) {
        return Err(Rule {
            action,
            why: Why::Project,
        });
    }
    if caller.roles.admin && entry.roles.admin {
        return Ok(());
    }
    if entry.owner_serves && caller.roles.creator && is_made_by(target, &caller.user) {
        return Ok(());
    }
    if !share_role(&caller.roles, &entry.roles) {
        return Err(Rule {
            action,
            why: Why::Role,
        });
    }
    if is_private(target) {
        return Err(Rule {
            action,
            why: Why::Private,
        });
    }
    Ok(())
}
