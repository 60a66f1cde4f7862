// Access lists as bodies.
ghost use Rattle.std.specs.Prelude.{◌≡◌, map, Some, None, OnOk};
ghost use Rattle.serde_json.specs.Data.{string};
ghost use Rattle.kms_world.specs.Times.{IsTimelyAcl, IsTimelyIfAny};
ghost use Rattle.kms_json.specs.Acl.{users_data, read_members, acl_data};
ghost use Rattle.kms_json.specs.Tokens.{Adds, data_tokens, ending_tokens, items_tokens};

use crate::writing::{put_bool, put_time};
use json::Writer;
use kms_world::{AclRow, Name, NoMemory};

fn put_users(out: &mut Writer, users: &[Name]) -> Result<(), NoMemory>
    ensures { OnOk result (Adds out.old out.new (items_tokens (map string users.now))) }
{
    for user in users {
        out.string(user.as_str())?;
    }
    Ok(())
}

fn write_users(out: &mut Writer, users: &[Name]) -> Result<(), NoMemory>
    ensures { OnOk result (Adds out.old out.new (data_tokens (users_data users.now))) }
{
    out.begin_array()?;
    put_users(out, users)?;
    out.end_array()?;
    Ok(())
}

// The members of an access list, and the end of the object.
fn put_list(out: &mut Writer, row: &AclRow) -> Result<(), NoMemory>
    requires { IsTimelyAcl row.now }
    ensures { OnOk result (Adds out.old out.new (ending_tokens (read_members (Some row.now)))) }
{
    put_time(out, "created", row.created)?;
    put_bool(out, "project-access", row.project_access)?;
    put_time(out, "updated", row.updated)?;
    out.key("users")?;
    write_users(out, row.users.as_slice())?;
    out.end_object()?;
    Ok(())
}

// The one member where there is no access list, and the end of the object.
fn put_none(out: &mut Writer) -> Result<(), NoMemory>
    ensures { OnOk result (Adds out.old out.new (ending_tokens (read_members None))) }
{
    put_bool(out, "project-access", true)?;
    out.end_object()?;
    Ok(())
}

// The members where there may be an access list, and the end of the object.
fn put_members(out: &mut Writer, row: &Option<AclRow>) -> Result<(), NoMemory>
    requires { IsTimelyIfAny row.now }
    ensures { OnOk result (Adds out.old out.new (ending_tokens (read_members row.now))) }
{
    match row {
        None => put_none(out),
        Some(row) => put_list(out, row),
    }
}

// The object of an access list.
pub(crate) fn write_acl(out: &mut Writer, row: &Option<AclRow>) -> Result<(), NoMemory>
    requires { IsTimelyIfAny row.now }
    ensures { OnOk result (Adds out.old out.new (data_tokens (acl_data row.now))) }
{
    out.begin_object()?;
    out.key("read")?;
    out.begin_object()?;
    put_members(out, row)?;
    out.end_object()?;
    Ok(())
}
