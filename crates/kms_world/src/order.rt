// Orders of keys.
ghost use Rattle.std.specs.Prelude.{◌≡◌, IfOk};

use crate::text::copied;
use crate::{Id, Name, NoMemory, Text};

/// Why an order failed.
#[derive(Clone, Copy, Debug, PartialEq, Eq)]
pub enum Cause {
    /// the algorithm and the bit length aren't offered
    Unsupported,
    /// the project's quota of secrets was reached
    QuotaReached,
    /// no id was left
    IdsSpent,
}

/// How far an order has come.
#[derive(Clone, Copy, Debug, PartialEq, Eq)]
pub enum OrderState {
    Pending,
    /// done; the id of its secret
    Active(Id),
    /// failed
    Error(Cause),
}

/// An order of a key. Times are whole seconds since 1970; texts have at most 255 bytes; a bit length is 1 to 32,767.
#[derive(Drop, Debug)]
pub struct OrderRow {
    pub id: Id,
    pub project: Name,
    /// the user who made it
    pub creator: Name,
    pub created: u64,
    pub updated: u64,
    pub algorithm: Text,
    pub bit_length: u16,
    pub mode: Option<Text>,
    pub name: Option<Text>,
    /// from this time on the secret isn't there any more
    pub expiration: Option<u64>,
    pub state: OrderState,
}

impl OrderRow {
    /// A copy of the order.
    pub fn copied(&self) -> Result<OrderRow, NoMemory>
        ensures { IfOk result (λ copy. copy ≡ self.now) }
    {
        Ok(OrderRow {
            id: self.id,
            project: self.project,
            creator: self.creator,
            created: self.created,
            updated: self.updated,
            algorithm: self.algorithm.clone()?,
            bit_length: self.bit_length,
            mode: copied(&self.mode)?,
            name: copied(&self.name)?,
            expiration: self.expiration,
            state: self.state,
        })
    }
}
