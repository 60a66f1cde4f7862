//! The words of the command line: the grammar, and what `clap` reads of them.
#![tactic(auto)]

mod by_clap;
mod commands;
pub mod laws;
mod options;
#[cfg(test)]
mod tests;

pub use by_clap::Pipe;
pub use commands::{PipeWords, init_of, pipe_of, read_init, read_pipe};
