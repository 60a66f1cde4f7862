//! The master keys of a cloud: the key file that they stand in, and the project keys that are wrapped under them.
#![tactic(auto)]

mod bad_line;
mod key_file;
mod keys;
pub mod laws;
mod ring;
#[cfg(test)]
mod tests;

pub use bad_line::{BadKey, BadLine};
pub use ring::Ring;
