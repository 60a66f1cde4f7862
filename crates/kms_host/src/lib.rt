//! The outside of the key manager: the trait of its calls, and hosts that meet it.
#![tactic(auto)]

mod bytes;
mod call;
mod host;
pub mod laws;
mod machine;
mod memory;
mod net;
mod pipe;
#[cfg(test)]
mod tests;

pub use bytes::{Bytes, NoMemory};
pub use call::{Call, Count, Failed, FileCall, NameFault, Pick, Purpose};
pub use host::Host;
pub use memory::MemoryHost;
pub use net::NetHost;
pub use pipe::PipeHost;
