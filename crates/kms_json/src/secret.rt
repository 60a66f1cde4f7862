// Secrets as bodies.
ghost use Rattle.std.specs.Prelude.{◌≡◌, codes, option_map, OnOk};
ghost use Rattle.kms_world.specs.Times.{IsTimely};
ghost use Rattle.kms_json.specs.Secret.{content_types_data, later_members, media_of, secret_data};
ghost use Rattle.kms_json.specs.Tokens.{Adds, data_tokens, ending_tokens, member_tokens, optional_tokens};

use crate::writing::{
    put_link, put_optional_number, put_optional_text, put_optional_time, put_text, put_time,
};
use json::Writer;
use kms_text::Kind;
use kms_world::{Media, NoMemory, SecretRow};
use std::alloc::Global;

fn put_content_types(out: &mut Writer, media: Media) -> Result<(), NoMemory>
    ensures { OnOk result (Adds out.old out.new (member_tokens (codes "content_types") (content_types_data media))) }
{
    out.key("content_types")?;
    out.begin_object()?;
    put_text(out, "default", media.word())?;
    out.end_object()?;
    Ok(())
}

// The type of the payload, where there is one.
fn put_payload_types(out: &mut Writer, row: &SecretRow) -> Result<(), NoMemory>
    ensures { OnOk result (Adds out.old out.new (optional_tokens (codes "content_types") (option_map content_types_data (media_of row.now)))) }
{
    match &row.payload {
        None => Ok(()),
        Some(payload) => put_content_types(out, payload.media),
    }
}

// The members behind the type of the payload, and the end of the object.
fn put_later(
    alloc: Global,
    out: &mut Writer,
    row: &SecretRow,
    endpoint: &str,
) -> Result<(), NoMemory>
    requires { IsTimely row.now }
    ensures { OnOk result (Adds out.old out.new (ending_tokens (later_members endpoint.now row.now))) }
{
    put_time(out, "created", row.created)?;
    put_text(out, "creator_id", row.creator.as_str())?;
    put_optional_time(out, "expiration", row.expiration)?;
    put_optional_text(out, "mode", &row.mode)?;
    put_optional_text(out, "name", &row.name)?;
    put_link(alloc, out, "secret_ref", endpoint, Kind::Secret, row.id)?;
    put_text(out, "secret_type", row.kind.word())?;
    put_text(out, "status", "ACTIVE")?;
    put_time(out, "updated", row.updated)?;
    out.end_object()?;
    Ok(())
}

// The object of a secret's attributes.
pub(crate) fn write_secret(
    alloc: Global,
    out: &mut Writer,
    row: &SecretRow,
    endpoint: &str,
) -> Result<(), NoMemory>
    requires { IsTimely row.now }
    ensures { OnOk result (Adds out.old out.new (data_tokens (secret_data endpoint.now row.now))) }
{
    out.begin_object()?;
    put_optional_text(out, "algorithm", &row.algorithm)?;
    put_optional_number(out, "bit_length", row.bit_length)?;
    put_payload_types(out, row)?;
    put_later(alloc, out, row, endpoint)?;
    Ok(())
}
