//! What a store keeps, what each change does to it, and its snapshot: definitions, and laws about them.
#![tactic(auto)]

pub mod laws;
