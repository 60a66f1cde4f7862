// Orders.
ghost use Rattle.std.specs.Prelude.{◌≡◌, ◌↔◌, IsTrue};
ghost use Rattle.kms_record.specs.Order.{state_bytes, IsStateInRange};
ghost use Rattle.kms_record.specs.Reading.{Gives, Finds};
ghost use Rattle.kms_record.specs.OrderReading.{state_at, order_put_at};
ghost use Rattle.kms_record.specs.Window.{shown};

use crate::cursor::Cursor;
use crate::read_error::{Malformed, ReadError};
use crate::window::Window;
use crate::{fields, range, spell};
use kms_world::{Cause, Name, OrderRow, OrderState, Text, id_of};
use std::alloc::Global;

/// How far an order has come.
#[derive(Clone, Copy, Debug)]
pub enum OrderPutState {
    Pending,
    /// done; the count of its secret's id under the store's tag, below 2^62
    Active(u64),
    /// failed
    Error(Cause),
}

/// An order comes, or takes the place of the one with this id. Times are whole seconds since 1970, below the year 10000.
#[derive(Drop, Debug)]
pub struct OrderPut {
    /// the count of its id under the store's tag, below 2^62
    pub id: u64,
    pub project: Name,
    /// the user who made it
    pub creator: Name,
    pub created: u64,
    pub updated: u64,
    /// at most 255 bytes
    pub algorithm: Text,
    /// 1 to 32,767
    pub bit_length: u16,
    /// at most 255 bytes
    pub mode: Option<Text>,
    /// at most 255 bytes
    pub name: Option<Text>,
    /// from this time on its secret isn't there any more
    pub expiration: Option<u64>,
    pub state: OrderPutState,
}

/// Reads the fields.
#[tactic(auto, unfolding(crate::specs::OrderReading::order_put_at))]
pub fn read_order_put(alloc: Global, cursor: &mut Cursor<'_>) -> Result<OrderPut, ReadError>
    ensures { Gives (λ x. (x, cursor.new)) result (order_put_at cursor.old) }
{
    Ok(OrderPut {
        id: fields::id(cursor)?,
        project: fields::name(cursor)?,
        creator: fields::name(cursor)?,
        created: fields::time(cursor)?,
        updated: fields::time(cursor)?,
        algorithm: fields::short_text(alloc, cursor)?,
        bit_length: fields::bit_length(cursor)?,
        mode: fields::optional_text(alloc, cursor)?,
        name: fields::optional_text(alloc, cursor)?,
        expiration: fields::optional_time(cursor)?,
        state: read_state(cursor)?,
    })
}

impl OrderPutState {
    ghost use Rattle.std.specs.Prelude.{◌≡◌, ◌<◌, ◌^◌};
    ghost use Rattle.kms_record.specs.ChangeEffect.{order_state_at};
    ghost use Rattle.kms_record.specs.Order.{IsStateInRange};

    /// The state of the row under the store's tag.
    pub fn into_state(self, tag: u64) -> OrderState
        requires tag { tag < 2 ^ 60 }
        requires range { IsStateInRange self }
        ensures { result ≡ order_state_at tag self }
    {
        match self {
            OrderPutState::Pending => OrderState::Pending,
            OrderPutState::Active(secret) => OrderState::Active(id_of(tag, secret)),
            OrderPutState::Error(cause) => OrderState::Error(cause),
        }
    }
}

impl OrderPut {
    ghost use Rattle.std.specs.Prelude.{◌≡◌, ◌<◌, ◌^◌, ◌↔◌, IsTrue};
    ghost use Rattle.kms_record.specs.ChangeEffect.{order_at};
    ghost use Rattle.kms_record.specs.Window.{shown};
    ghost use Rattle.kms_record.specs.Order.{order_put_bytes, IsOrderPutInRange, IsOrderPutTyped};

    /// The row that it puts under the store's tag.
    pub fn into_row(self, tag: u64) -> OrderRow
        requires tag { tag < 2 ^ 60 }
        requires range { IsOrderPutInRange self }
        ensures { result ≡ order_at tag self }
    {
        OrderRow {
            id: id_of(tag, self.id),
            project: self.project,
            creator: self.creator,
            created: self.created,
            updated: self.updated,
            algorithm: self.algorithm,
            bit_length: self.bit_length,
            mode: self.mode,
            name: self.name,
            expiration: self.expiration,
            state: self.state.into_state(tag),
        }
    }

    /// Its numbers and lengths are in their ranges.
    pub fn is_in_range(&self) -> bool
        ensures { IsTrue result ↔ IsOrderPutInRange self.now }
    {
        range::is_id(self.id)
            && range::is_short_name(&self.project)
            && range::is_short_name(&self.creator)
            && range::is_time(self.created)
            && range::is_time(self.updated)
            && range::is_short_text(&self.algorithm)
            && range::is_bit_length(self.bit_length)
            && range::is_short(&self.mode)
            && range::is_short(&self.name)
            && range::is_expiration(self.expiration)
            && is_state_in_range(self.state)
    }

    /// Writes the fields.
    #[tactic(auto, using(crate::proofs::WindowLaws::shown_twice), unfolding(crate::specs::Order::order_put_bytes))]
    pub(crate) fn write(&self, out: &mut Window)
        requires { IsOrderPutInRange self.now }
        ensures spelled { out.new ≡ shown out.old (order_put_bytes self.now) }
        ensures typed { IsOrderPutTyped self.now }
    {
        spell::number(out, self.id);
        spell::name(out, &self.project);
        spell::name(out, &self.creator);
        spell::number(out, self.created);
        spell::number(out, self.updated);
        spell::text(out, &self.algorithm);
        spell::short_number(out, self.bit_length);
        spell::optional_text(out, &self.mode);
        spell::optional_text(out, &self.name);
        spell::optional_time(out, self.expiration);
        write_state(out, self.state);
    }
}

#[tactic(auto, unfolding(crate::specs::Reading::alternatives_at))]
fn read_state(cursor: &mut Cursor<'_>) -> Result<OrderPutState, Malformed>
    ensures { Finds (λ x. (x, cursor.new)) result (state_at cursor.old) }
{
    match cursor.byte()? {
        0 => Ok(OrderPutState::Pending),
        1 => Ok(OrderPutState::Active(fields::id(cursor)?)),
        2 => Ok(OrderPutState::Error(fields::cause(cursor)?)),
        _ => Err(Malformed),
    }
}

fn is_state_in_range(state: OrderPutState) -> bool
    ensures { IsTrue result ↔ IsStateInRange state }
{
    match state {
        OrderPutState::Active(secret) => range::is_id(secret),
        OrderPutState::Pending | OrderPutState::Error(_) => true,
    }
}

/// Writes the state.
#[tactic(auto, using(crate::proofs::WindowLaws::shown_twice), unfolding(crate::specs::Fields::u8_bytes))]
pub(crate) fn write_state(out: &mut Window, state: OrderPutState)
    ensures { out.new ≡ shown out.old (state_bytes state) }
{
    match state {
        OrderPutState::Pending => spell::byte(out, 0),
        OrderPutState::Active(secret) => {
            spell::byte(out, 1);
            spell::number(out, secret);
        }
        OrderPutState::Error(cause) => {
            spell::byte(out, 2);
            spell::cause(out, cause);
        }
    }
}
