//! Steps and snapshots as bytes, and back: changes of the key manager's state, spelled one way each.
#![tactic(auto)]

mod acl;
mod base;
mod change;
mod consumer;
mod container;
mod cursor;
mod decode;
mod encode;
mod fields;
mod key;
pub mod laws;
mod member;
mod metadata;
mod order;
mod payload;
mod piece;
mod quota;
mod range;
mod read_error;
#[cfg(test)]
mod rows;
mod secret_put;
mod spell;
mod step;
#[cfg(test)]
mod tests;
mod window;

pub use acl::AclPut;
pub use base::BaseChange;
pub use change::{Change, Changes};
pub use consumer::{ConsumerAdded, ConsumerDropped};
pub use container::ContainerPut;
pub use decode::{decode_base, decode_body};
pub use encode::encode_step;
pub use key::{KeyDropped, WrappedKey};
pub use member::{Member, MemberList};
pub use metadata::MetadataPut;
pub use order::{OrderPut, OrderPutState};
pub use payload::{PayloadPut, TokenReplaced};
pub use piece::{base_len, base_piece};
pub use quota::{QuotaLimit, QuotaLimits, QuotaPut};
pub use secret_put::SecretPut;
pub use step::{Step, Steps};
