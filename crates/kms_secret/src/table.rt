// Bodies that the tests check.
pub mod metadata;
pub mod orders;
pub mod payloads;
pub mod secrets;
