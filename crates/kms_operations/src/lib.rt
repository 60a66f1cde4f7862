//! Operations over the rows that are kept: what each answers, and the change that it needs.
#![tactic(auto)]

mod accept;
mod access_lists;
mod ask;
mod body;
mod consumer_list;
mod consumers;
mod container_list;
mod container_put;
mod containers;
mod count;
pub mod laws;
mod listing;
mod members;
mod metadata;
mod names;
mod order_list;
mod orders;
mod outcome;
mod pairs;
mod payloads;
mod permission;
mod quota_list;
mod quotas;
mod secret_list;
mod secrets;

pub use ask::asked;
pub use outcome::{NewPayload, Outcome, Plan};
