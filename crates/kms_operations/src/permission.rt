// The decision of the policy on an operation.
ghost use Rattle.std.specs.Prelude.{◌≡◌, Some, None, option_map, option_copied};
ghost use Rattle.kms_policy.specs.Policy.{row_of};
ghost use Rattle.kms_model.specs.Containers.{container_target};
ghost use Rattle.kms_model.specs.Orders.{order_target};
ghost use Rattle.kms_model.specs.Permission.{granted, may};
ghost use Rattle.kms_model.specs.Secrets.{secret_target};
ghost use Rattle.kms_world.specs.Checked.{IsUnlessNoMemory};
ghost use Rattle.kms_world.specs.declared.action.Action.TheVariants.{SecretGet, ContainerGet};

use kms_policy::{Target, decide};
use kms_store::Tables;
use kms_world::{Action, Caller, CheckFault, ContainerRow, OrderRow, Refusal, SecretRow};

// The policy grants the action on this row, None where it is about no row.
fn granted_on(caller: &Caller, action: Action, target: Option<&Target>) -> Result<(), CheckFault>
    ensures { IsUnlessNoMemory result (granted caller.now action (option_map row_of (option_copied target.entry))) }
{
    match decide(caller, action, target) {
        Ok(()) => Ok(()),
        Err(rule) => Err(CheckFault::Refused(Refusal::Denied(rule))),
    }
}

// The policy grants an action that is about no row.
pub fn granted(caller: &Caller, action: Action) -> Result<(), CheckFault>
    ensures { IsUnlessNoMemory result (granted caller.now action None) }
{
    granted_on(caller, action, None)
}

// The policy grants the action on the secret.
pub fn granted_on_secret(
    rows: &Tables,
    caller: &Caller,
    action: Action,
    row: &SecretRow,
) -> Result<(), CheckFault>
    ensures { IsUnlessNoMemory result (granted caller.now action (Some (secret_target rows.now.kept.state row.now))) }
{
    let target = Target {
        project: row.project,
        creator: row.creator,
        acl: rows.acl(row.id),
    };
    granted_on(caller, action, Some(&target))
}

// The policy grants the action on the container.
pub fn granted_on_container(
    rows: &Tables,
    caller: &Caller,
    action: Action,
    row: &ContainerRow,
) -> Result<(), CheckFault>
    ensures { IsUnlessNoMemory result (granted caller.now action (Some (container_target rows.now.kept.state row.now))) }
{
    let target = Target {
        project: row.project,
        creator: row.creator,
        acl: rows.acl(row.id),
    };
    granted_on(caller, action, Some(&target))
}

// The policy grants the action on the order.
pub fn granted_on_order(caller: &Caller, action: Action, row: &OrderRow) -> Result<(), CheckFault>
    ensures { IsUnlessNoMemory result (granted caller.now action (Some (order_target row.now))) }
{
    let target = Target {
        project: row.project,
        creator: row.creator,
        acl: None,
    };
    granted_on(caller, action, Some(&target))
}

// Whether the policy lets the caller get the secret.
pub fn may_get_secret(rows: &Tables, caller: &Caller, row: &SecretRow) -> bool
    ensures { result ≡ may caller.now SecretGet (Some (secret_target rows.now.kept.state row.now)) }
{
    let target = Target {
        project: row.project,
        creator: row.creator,
        acl: rows.acl(row.id),
    };
    decide(caller, Action::SecretGet, Some(&target)).is_ok()
}

// Whether the policy lets the caller get the container.
pub fn may_get_container(rows: &Tables, caller: &Caller, row: &ContainerRow) -> bool
    ensures { result ≡ may caller.now ContainerGet (Some (container_target rows.now.kept.state row.now)) }
{
    let target = Target {
        project: row.project,
        creator: row.creator,
        acl: rows.acl(row.id),
    };
    decide(caller, Action::ContainerGet, Some(&target)).is_ok()
}
