//! Laws of the policy, as functions that do nothing.
ghost use Rattle.std.specs.Prelude.{◌≡◌, ◌&&◌, ◌||◌, not, true, false, Option, Some, None, is_ok, IsErr};
ghost use Rattle.kms_policy.specs.Policy.{Row, decision, entry_of, is_listed, is_elsewhere, is_made_by, has_project_access};
ghost use Rattle.kms_policy.specs.Laws.{IgnoresList, no_role, audit_alone};

use kms_world::{Action, Caller};

/// A caller who has no role and isn't on the row's access list is never granted anything.
pub fn without_a_role_nothing_is_granted(caller: &Caller, action: Action)
    requires { caller.now.roles ≡ no_role }
    ensures { (row : Option Row) → is_listed row caller.now.user ≡ false → IsErr (decision caller.now action row) }
{}

/// A caller with the role audit alone who isn't on the row's access list never gets a payload.
pub fn audit_alone_gets_no_payload(caller: &Caller)
    requires { caller.now.roles ≡ audit_alone }
    ensures { (row : Option Row) → is_listed row caller.now.user ≡ false → IsErr (decision caller.now Action.SecretDecrypt row) }
{}

/// With project access off, a payload is granted to the users on the access list, to an admin of the row's project,
/// and to the user who made it while that user has the role creator there; to nobody else.
pub fn without_project_access_few_get_a_payload(caller: &Caller)
    ensures { (row : Row) → has_project_access row.acl ≡ false →
        is_ok (decision caller.now Action.SecretDecrypt (Some row))
        ≡ (is_listed (Some row) caller.now.user
        || (not (is_elsewhere (Some row) caller.now.project)
        && (caller.now.roles.admin || (caller.now.roles.creator && is_made_by (Some row) caller.now.user)))) }
{}

/// To a row of another project the access list alone admits, for the actions that it serves.
pub fn elsewhere_the_access_list_alone_admits(caller: &Caller, action: Action)
    ensures { (row : Option Row) → is_elsewhere row caller.now.project ≡ true →
        is_ok (decision caller.now action row) ≡ ((entry_of action).list_serves && is_listed row caller.now.user) }
{}

/// Without a row, as it is always asked, the quotas of projects are granted exactly to service admins.
pub fn quotas_are_for_service_admins(caller: &Caller)
    ensures { is_ok (decision caller.now Action.QuotaAdmin None) ≡ caller.now.roles.service_admin }
{}

/// The access list admits nobody to these: the decision is the same whoever is on it.
pub fn the_access_list_never_admits_to(caller: &Caller)
    ensures secret_write { IgnoresList caller.now Action.SecretWrite }
    ensures secret_delete { IgnoresList caller.now Action.SecretDelete }
    ensures container_write { IgnoresList caller.now Action.ContainerWrite }
    ensures container_delete { IgnoresList caller.now Action.ContainerDelete }
    ensures acl_get { IgnoresList caller.now Action.AclGet }
    ensures acl_write { IgnoresList caller.now Action.AclWrite }
{}
