//! Bodies of requests, read from JSON.
#![tactic(auto)]

mod acl_body;
mod body;
mod consumer_body;
mod container_body;
mod fields;
mod member_body;
mod metadata_body;
mod operation;
mod order_body;
mod pair_body;
mod quota_body;
mod secret_body;
#[cfg(test)]
mod table;
#[cfg(test)]
mod tests;

pub use operation::op;
