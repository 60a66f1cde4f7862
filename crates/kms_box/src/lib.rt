//! Bodies of containers, their members and their consumers: each is checked, and the first rule that it breaks is its
//! refusal.
#![tactic(auto)]

mod consumer;
mod container;
mod fields;
pub mod laws;
mod member;
mod names;
#[cfg(test)]
mod table;
#[cfg(test)]
mod tests;

pub use consumer::check_consumer;
pub use container::{NewContainer, check_container};
pub use member::check_member;
