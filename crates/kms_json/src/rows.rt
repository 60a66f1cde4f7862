// The rows of a page as bodies.
ghost use Rattle.std.specs.Prelude.{◌≡◌, map, All, OnOk};
ghost use Rattle.serde_json.specs.Data.{array};
ghost use Rattle.serde_json.specs.View.{items_of};
ghost use Rattle.kms_world.specs.Times.{IsTimely, IsTimelyContainer, IsTimelyOrder, RowsHaveTimes};
ghost use Rattle.kms_json.specs.Secret.{secret_data};
ghost use Rattle.kms_json.specs.Container.{container_data};
ghost use Rattle.kms_json.specs.Order.{order_data};
ghost use Rattle.kms_json.specs.Quota.{project_data};
ghost use Rattle.kms_json.specs.List.{rows_data};
ghost use Rattle.kms_json.specs.Tokens.{Adds, data_tokens, items_tokens};

use crate::container::{write_consumers, write_container};
use crate::order::write_order;
use crate::quota::write_project;
use crate::secret::write_secret;
use json::Writer;
use kms_world::{ContainerView, ListRows, NoMemory, OrderRow, QuotaRow, SecretRow};
use std::alloc::Global;

fn put_secrets(
    alloc: Global,
    out: &mut Writer,
    rows: &[SecretRow],
    endpoint: &str,
) -> Result<(), NoMemory>
    requires { All IsTimely rows.now }
    ensures { OnOk result (Adds out.old out.new (items_tokens (map (secret_data endpoint.now) rows.now))) }
{
    for row in rows {
        write_secret(alloc, out, row, endpoint)?;
    }
    Ok(())
}

fn write_secrets(
    alloc: Global,
    out: &mut Writer,
    rows: &[SecretRow],
    endpoint: &str,
) -> Result<(), NoMemory>
    requires { All IsTimely rows.now }
    ensures { OnOk result (Adds out.old out.new (data_tokens (array (items_of (map (secret_data endpoint.now) rows.now))))) }
{
    out.begin_array()?;
    put_secrets(alloc, out, rows, endpoint)?;
    out.end_array()?;
    Ok(())
}

fn put_containers(
    alloc: Global,
    out: &mut Writer,
    rows: &[ContainerView],
    endpoint: &str,
) -> Result<(), NoMemory>
    requires { All (λ view. IsTimelyContainer view.row) rows.now }
    ensures { OnOk result (Adds out.old out.new (items_tokens (map (container_data endpoint.now) rows.now))) }
{
    for row in rows {
        write_container(alloc, out, row, endpoint)?;
    }
    Ok(())
}

fn write_containers(
    alloc: Global,
    out: &mut Writer,
    rows: &[ContainerView],
    endpoint: &str,
) -> Result<(), NoMemory>
    requires { All (λ view. IsTimelyContainer view.row) rows.now }
    ensures { OnOk result (Adds out.old out.new (data_tokens (array (items_of (map (container_data endpoint.now) rows.now))))) }
{
    out.begin_array()?;
    put_containers(alloc, out, rows, endpoint)?;
    out.end_array()?;
    Ok(())
}

fn put_orders(
    alloc: Global,
    out: &mut Writer,
    rows: &[OrderRow],
    endpoint: &str,
) -> Result<(), NoMemory>
    requires { All IsTimelyOrder rows.now }
    ensures { OnOk result (Adds out.old out.new (items_tokens (map (order_data endpoint.now) rows.now))) }
{
    for row in rows {
        write_order(alloc, out, row, endpoint)?;
    }
    Ok(())
}

fn write_orders(
    alloc: Global,
    out: &mut Writer,
    rows: &[OrderRow],
    endpoint: &str,
) -> Result<(), NoMemory>
    requires { All IsTimelyOrder rows.now }
    ensures { OnOk result (Adds out.old out.new (data_tokens (array (items_of (map (order_data endpoint.now) rows.now))))) }
{
    out.begin_array()?;
    put_orders(alloc, out, rows, endpoint)?;
    out.end_array()?;
    Ok(())
}

fn put_projects(out: &mut Writer, rows: &[QuotaRow]) -> Result<(), NoMemory>
    ensures { OnOk result (Adds out.old out.new (items_tokens (map project_data rows.now))) }
{
    for row in rows {
        write_project(out, row)?;
    }
    Ok(())
}

fn write_projects(out: &mut Writer, rows: &[QuotaRow]) -> Result<(), NoMemory>
    ensures { OnOk result (Adds out.old out.new (data_tokens (array (items_of (map project_data rows.now))))) }
{
    out.begin_array()?;
    put_projects(out, rows)?;
    out.end_array()?;
    Ok(())
}

// The objects of the page's rows.
pub(crate) fn write_rows(
    alloc: Global,
    out: &mut Writer,
    rows: &ListRows,
    endpoint: &str,
) -> Result<(), NoMemory>
    requires { RowsHaveTimes rows.now }
    ensures { OnOk result (Adds out.old out.new (data_tokens (rows_data endpoint.now rows.now))) }
{
    match rows {
        ListRows::Secrets(rows) => write_secrets(alloc, out, rows.as_slice(), endpoint),
        ListRows::Containers(rows) => write_containers(alloc, out, rows.as_slice(), endpoint),
        ListRows::Consumers(rows) => write_consumers(out, rows.as_slice()),
        ListRows::Orders(rows) => write_orders(alloc, out, rows.as_slice(), endpoint),
        ListRows::Quotas(rows) => write_projects(out, rows.as_slice()),
    }
}
