//! The engine: answers operations as the plain key manager does, and prepares each change before it takes it over.
#![tactic(auto)]

mod asked;
mod engine;
pub mod laws;
mod payload;
mod prepare;
mod start;
mod start_fault;
#[cfg(test)]
mod tests;

pub use asked::{AskFault, Asked, PreparedStep};
pub use engine::Engine;
pub use start_fault::StartFault;
