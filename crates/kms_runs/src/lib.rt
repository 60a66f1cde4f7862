//! Runs of the program over a host in memory: what one is given, how it ends and what it leaves.
#![tactic(auto)]

mod row;
#[cfg(test)]
mod tests;

pub use row::{Row, made_and_served, ran};
