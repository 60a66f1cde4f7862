//! Fernet tokens (the Fernet specification, version 0x80), and the HMAC and the cipher block
//! chaining that they are made of.
#![tactic(auto)]

mod base64url;
mod cbc;
mod hmac;
mod key;
pub mod laws;
mod open_fault;
mod opening;
mod sealing;
#[cfg(test)]
mod tests;
mod wrapped;

pub use hmac::mac;
pub use key::FernetKey;
pub use open_fault::OpenFault;
pub use opening::unseal;
pub use sealing::seal;
pub use wrapped::{unwrap_key, wrap_key};
