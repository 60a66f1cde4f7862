// Orders as bodies.
ghost use Rattle.std.specs.Prelude.{◌≡◌, codes, option_map, OnOk};
ghost use Rattle.kms_world.specs.Times.{IsTimelyOrder};
ghost use Rattle.kms_json.specs.Order.{cause_of, code_data, code_of, last_members, later_members, meta_data, order_data, reason_data, reason_of, secret_link, secret_of, status_of};
ghost use Rattle.kms_json.specs.Tokens.{Adds, data_tokens, ending_tokens, member_tokens, optional_tokens};

use crate::writing::{
    put_link, put_number, put_optional_text, put_optional_time, put_text, put_time,
};
use json::Writer;
use kms_text::Kind;
use kms_world::{Cause, Media, NoMemory, OrderRow, OrderState};
use std::alloc::Global;

const fn code(cause: Cause) -> &'static str
    ensures { result.now ≡ code_of cause }
{
    match cause {
        Cause::Unsupported => "400",
        Cause::QuotaReached => "403",
        Cause::IdsSpent => "500",
    }
}

const fn reason(cause: Cause) -> &'static str
    ensures { result.now ≡ reason_of cause }
{
    match cause {
        Cause::Unsupported => "algorithm and bit_length not offered",
        Cause::QuotaReached => "quota of secrets reached",
        Cause::IdsSpent => "ids spent",
    }
}

// What was ordered.
fn put_meta(out: &mut Writer, row: &OrderRow) -> Result<(), NoMemory>
    requires { IsTimelyOrder row.now }
    ensures { OnOk result (Adds out.old out.new (member_tokens (codes "meta") (meta_data row.now))) }
{
    out.key("meta")?;
    out.begin_object()?;
    put_text(out, "algorithm", row.algorithm.as_str())?;
    put_number(out, "bit_length", u64::from(row.bit_length))?;
    put_optional_time(out, "expiration", row.expiration)?;
    put_optional_text(out, "mode", &row.mode)?;
    put_optional_text(out, "name", &row.name)?;
    put_text(out, "payload_content_type", Media::OctetStream.word())?;
    out.end_object()?;
    Ok(())
}

const fn status(state: OrderState) -> &'static str
    ensures { result.now ≡ status_of state }
{
    match state {
        OrderState::Pending => "PENDING",
        OrderState::Active(_) => "ACTIVE",
        OrderState::Error(_) => "ERROR",
    }
}

// The members from the status on, and the end of the object.
fn put_last(out: &mut Writer, row: &OrderRow) -> Result<(), NoMemory>
    requires { IsTimelyOrder row.now }
    ensures { OnOk result (Adds out.old out.new (ending_tokens (last_members row.now))) }
{
    put_text(out, "status", status(row.state))?;
    put_text(out, "type", "key")?;
    put_time(out, "updated", row.updated)?;
    out.end_object()?;
    Ok(())
}

// The secret that was made, if there is one.
fn put_secret(
    alloc: Global,
    out: &mut Writer,
    state: OrderState,
    endpoint: &str,
) -> Result<(), NoMemory>
    ensures { OnOk result (Adds out.old out.new (optional_tokens (codes "secret_ref") (option_map (secret_link endpoint.now) (secret_of state)))) }
{
    match state {
        OrderState::Pending | OrderState::Error(_) => Ok(()),
        OrderState::Active(secret) => {
            put_link(alloc, out, "secret_ref", endpoint, Kind::Secret, secret)
        }
    }
}

// Why the order failed, if it did.
fn put_reason(out: &mut Writer, state: OrderState) -> Result<(), NoMemory>
    ensures { OnOk result (Adds out.old out.new (optional_tokens (codes "error_reason") (option_map reason_data (cause_of state)))) }
{
    match state {
        OrderState::Pending | OrderState::Active(_) => Ok(()),
        OrderState::Error(cause) => put_text(out, "error_reason", reason(cause)),
    }
}

fn put_code(out: &mut Writer, state: OrderState) -> Result<(), NoMemory>
    ensures { OnOk result (Adds out.old out.new (optional_tokens (codes "error_status_code") (option_map code_data (cause_of state)))) }
{
    match state {
        OrderState::Pending | OrderState::Active(_) => Ok(()),
        OrderState::Error(cause) => put_text(out, "error_status_code", code(cause)),
    }
}

// What was ordered, the members behind it, and the end of the object.
fn put_later(
    alloc: Global,
    out: &mut Writer,
    row: &OrderRow,
    endpoint: &str,
) -> Result<(), NoMemory>
    requires { IsTimelyOrder row.now }
    ensures { OnOk result (Adds out.old out.new (ending_tokens (later_members endpoint.now row.now))) }
{
    put_meta(out, row)?;
    put_link(alloc, out, "order_ref", endpoint, Kind::Order, row.id)?;
    put_secret(alloc, out, row.state, endpoint)?;
    put_last(out, row)?;
    Ok(())
}

// The object of an order.
pub(crate) fn write_order(
    alloc: Global,
    out: &mut Writer,
    row: &OrderRow,
    endpoint: &str,
) -> Result<(), NoMemory>
    requires { IsTimelyOrder row.now }
    ensures { OnOk result (Adds out.old out.new (data_tokens (order_data endpoint.now row.now))) }
{
    out.begin_object()?;
    put_time(out, "created", row.created)?;
    put_text(out, "creator_id", row.creator.as_str())?;
    put_reason(out, row.state)?;
    put_code(out, row.state)?;
    put_later(alloc, out, row, endpoint)?;
    Ok(())
}
