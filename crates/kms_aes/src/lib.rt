//! AES-128 on blocks of 16 bytes (FIPS 197).
#![tactic(auto)]

mod key;
pub mod laws;
mod sbox;
mod schedule;
mod state;
#[cfg(test)]
mod tests;

pub use key::Key;
