//! Answers as JSON.
#![tactic(auto)]

mod acl;
mod container;
mod link;
mod list;
mod metadata;
mod order;
#[cfg(test)]
mod page_tests;
mod quota;
mod refused;
mod reply;
mod rows;
mod secret;
#[cfg(test)]
mod table;
#[cfg(test)]
mod tests;
mod writing;

pub use reply::answer;
