//! Bodies of secrets, payloads, metadata and orders: each is checked, and the first rule that it breaks is its refusal.
#![tactic(auto)]

mod fields;
mod key;
pub mod laws;
mod media;
mod metadata;
mod order;
mod payload;
mod secret;
#[cfg(test)]
mod table;
#[cfg(test)]
mod tests;

pub use key::read_key;
pub use metadata::{check_metadata, check_pair};
pub use order::{NewOrder, check_order};
pub use payload::check_payload;
pub use secret::{NewSecret, check_secret};
