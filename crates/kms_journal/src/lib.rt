//! The two files of a store: commit marks, records, checkpoints, and what a stop at any moment leaves of them.
#![tactic(auto)]

mod buffer;
mod chain;
mod creation;
mod current;
mod emptying;
mod fault;
mod gather;
mod header;
mod journal;
pub mod laws;
mod pieces;
mod recovery;
mod renewal;
#[cfg(test)]
mod tests;
mod through;
mod walk;

pub use chain::{Bodies, Chain};
pub use creation::create;
pub use current::living;
pub use fault::{CreateFault, JournalFault, Place, StoreFault};
pub use journal::Journal;
pub use pieces::Pieces;
pub use recovery::recover;
