//! What the key manager speaks of: ids, callers, rows, operations, answers and refusals.
#![tactic(auto)]

mod acl;
mod action;
mod answer;
mod body;
mod bytes;
mod caller;
mod container;
mod id;
pub mod laws;
mod list;
mod name;
mod operation;
mod order;
mod pairs;
mod payload;
mod quota;
mod refusal;
mod reply;
mod secret;
mod shape;
#[cfg(test)]
mod tests;
mod text;

pub use acl::{AclRow, Names};
pub use action::{Action, Rule, Why};
pub use answer::{Answer, ConsumerRows, ContainerView, Link, ListRows};
pub use body::{
    AclBody, ConsumerBody, ContainerBody, MemberBodies, MemberBody, MetaBody, MetadataBody,
    OrderBody, PairBody, QuotaBody, QuotaValues, ReadBody, SecretBody, TextPairs, Texts,
};
pub use bytes::{Bytes, NoMemory};
pub use caller::{Caller, Roles};
pub use container::{ConsumerRow, ContainerKind, ContainerRow, Members};
pub use id::{Id, id_of};
pub use list::ListOf;
pub use name::{Name, is_name, is_name_byte};
pub use operation::{AclKind, Op, PutShape, Request};
pub use order::{Cause, OrderRow, OrderState};
pub use pairs::Pairs;
pub use payload::{Media, Payload};
pub use quota::{QuotaKind, QuotaRow};
pub use refusal::{Allow, CheckFault, Field, Refusal};
pub use reply::{Media2, Reply};
pub use secret::{SecretKind, SecretRow};
pub use shape::Shape;
pub use text::{Text, copied};
