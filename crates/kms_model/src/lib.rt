//! The plain key manager: what the program does, without journal, keys, indexes and buffers. It is definitions; the
//! engine is proved equal to them.
#![tactic(auto)]

pub mod alike_laws;
pub mod laws;
pub mod order_laws;
pub mod payload_laws;
