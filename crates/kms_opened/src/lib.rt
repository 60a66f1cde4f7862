//! What is kept, opened under master keys: what a change does to the state whose payloads are plain. It is definitions
//! and laws.
#![tactic(auto)]

pub mod laws;
