// Quotas as bodies.
ghost use Rattle.std.specs.Prelude.{◌≡◌, OnOk};
ghost use Rattle.kms_json.specs.Quota.{limits_data, quotas_data, project_quotas_data, project_data};
ghost use Rattle.kms_json.specs.Tokens.{Adds, data_tokens};

use crate::writing::{put_optional_integer, put_text};
use json::Writer;
use kms_world::{NoMemory, QuotaRow};

fn write_limits(out: &mut Writer, row: &QuotaRow) -> Result<(), NoMemory>
    ensures { OnOk result (Adds out.old out.new (data_tokens (limits_data row.now))) }
{
    out.begin_object()?;
    put_optional_integer(out, "consumers", row.consumers)?;
    put_optional_integer(out, "containers", row.containers)?;
    put_optional_integer(out, "orders", row.orders)?;
    put_optional_integer(out, "secrets", row.secrets)?;
    out.end_object()?;
    Ok(())
}

// The object of the limits in force.
pub(crate) fn write_quotas(out: &mut Writer, row: &QuotaRow) -> Result<(), NoMemory>
    ensures { OnOk result (Adds out.old out.new (data_tokens (quotas_data row.now))) }
{
    out.begin_object()?;
    out.key("quotas")?;
    write_limits(out, row)?;
    out.end_object()?;
    Ok(())
}

// The object of a project's quotas as they were set.
pub(crate) fn write_project_quotas(out: &mut Writer, row: &QuotaRow) -> Result<(), NoMemory>
    ensures { OnOk result (Adds out.old out.new (data_tokens (project_quotas_data row.now))) }
{
    out.begin_object()?;
    out.key("project_quotas")?;
    write_limits(out, row)?;
    out.end_object()?;
    Ok(())
}

// The object of a project and its quotas, in a list.
pub(crate) fn write_project(out: &mut Writer, row: &QuotaRow) -> Result<(), NoMemory>
    ensures { OnOk result (Adds out.old out.new (data_tokens (project_data row.now))) }
{
    out.begin_object()?;
    put_text(out, "project_id", row.project.as_str())?;
    out.key("project_quotas")?;
    write_limits(out, row)?;
    out.end_object()?;
    Ok(())
}
