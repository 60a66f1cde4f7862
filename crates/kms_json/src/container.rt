// Containers and their consumers as bodies.
ghost use Rattle.std.specs.Prelude.{◌≡◌, map, OnOk};
ghost use Rattle.kms_world.specs.Times.{IsTimelyContainer};
ghost use Rattle.kms_json.specs.Container.{consumer_data, consumers_data, member_data, members_data, container_data};
ghost use Rattle.kms_json.specs.Tokens.{Adds, data_tokens, items_tokens};

use crate::writing::{put_link, put_optional_text, put_text, put_time};
use json::Writer;
use kms_text::Kind;
use kms_world::{ConsumerRow, ContainerView, Id, NoMemory, Text};
use std::alloc::Global;

fn write_consumer(out: &mut Writer, row: &ConsumerRow) -> Result<(), NoMemory>
    ensures { OnOk result (Adds out.old out.new (data_tokens (consumer_data row.now))) }
{
    out.begin_object()?;
    put_text(out, "URL", row.url.as_str())?;
    put_text(out, "name", row.name.as_str())?;
    out.end_object()?;
    Ok(())
}

fn put_consumers(out: &mut Writer, rows: &[ConsumerRow]) -> Result<(), NoMemory>
    ensures { OnOk result (Adds out.old out.new (items_tokens (map consumer_data rows.now))) }
{
    for row in rows {
        write_consumer(out, row)?;
    }
    Ok(())
}

// The objects of consumers.
pub(crate) fn write_consumers(out: &mut Writer, rows: &[ConsumerRow]) -> Result<(), NoMemory>
    ensures { OnOk result (Adds out.old out.new (data_tokens (consumers_data rows.now))) }
{
    out.begin_array()?;
    put_consumers(out, rows)?;
    out.end_array()?;
    Ok(())
}

fn write_member(
    alloc: Global,
    out: &mut Writer,
    member: &(Option<Text>, Id),
    endpoint: &str,
) -> Result<(), NoMemory>
    ensures { OnOk result (Adds out.old out.new (data_tokens (member_data endpoint.now member.now))) }
{
    out.begin_object()?;
    put_optional_text(out, "name", &member.0)?;
    put_link(alloc, out, "secret_ref", endpoint, Kind::Secret, member.1)?;
    out.end_object()?;
    Ok(())
}

fn put_members(
    alloc: Global,
    out: &mut Writer,
    members: &[(Option<Text>, Id)],
    endpoint: &str,
) -> Result<(), NoMemory>
    ensures { OnOk result (Adds out.old out.new (items_tokens (map (member_data endpoint.now) members.now))) }
{
    for member in members {
        write_member(alloc, out, member, endpoint)?;
    }
    Ok(())
}

fn write_members(
    alloc: Global,
    out: &mut Writer,
    members: &[(Option<Text>, Id)],
    endpoint: &str,
) -> Result<(), NoMemory>
    ensures { OnOk result (Adds out.old out.new (data_tokens (members_data endpoint.now members.now))) }
{
    out.begin_array()?;
    put_members(alloc, out, members, endpoint)?;
    out.end_array()?;
    Ok(())
}

// The object of a container.
pub(crate) fn write_container(
    alloc: Global,
    out: &mut Writer,
    shown: &ContainerView,
    endpoint: &str,
) -> Result<(), NoMemory>
    requires { IsTimelyContainer shown.now.row }
    ensures { OnOk result (Adds out.old out.new (data_tokens (container_data endpoint.now shown.now))) }
{
    let row = &shown.row;
    out.begin_object()?;
    out.key("consumers")?;
    write_consumers(out, shown.consumers.as_slice())?;
    put_link(
        alloc,
        out,
        "container_ref",
        endpoint,
        Kind::Container,
        row.id,
    )?;
    put_time(out, "created", row.created)?;
    put_text(out, "creator_id", row.creator.as_str())?;
    put_optional_text(out, "name", &row.name)?;
    out.key("secret_refs")?;
    write_members(alloc, out, row.secrets.as_slice(), endpoint)?;
    put_text(out, "status", "ACTIVE")?;
    put_text(out, "type", row.kind.word())?;
    put_time(out, "updated", row.updated)?;
    out.end_object()?;
    Ok(())
}
