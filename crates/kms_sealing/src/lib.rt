//! Payloads sealed under the keys of their projects: project keys are wrapped under master keys, and unwrapped once; each
//! payload is a token under its project's key.
#![tactic(auto)]

mod drawing;
mod fault;
mod key_file;
pub mod laws;
mod opening;
mod payload;
mod places;
mod project_keys;
mod sealing;
mod step;
#[cfg(test)]
mod tests;

pub use drawing::{Drawn, KeyDraw, draw};
pub use fault::{KeyFileFault, OpeningFault};
pub use key_file::read_key_file;
pub use project_keys::ProjectKeys;
pub use sealing::{NewKey, Sealed};
