//! Who may do what, and how many: the action table, access lists and quotas.
#![tactic(auto)]

mod acl;
mod decision;
pub mod laws;
mod limits;
mod names;
mod quota;
mod table;
#[cfg(test)]
mod tests;

pub use acl::{AclChange, check_acl};
pub use decision::{Target, decide};
pub use limits::{Limits, check_quotas};
pub use quota::{effective, room};
