//! The texts of ids, links and times.
#![tactic(auto)]

mod calendar;
mod form;
mod id;
pub mod laws;
mod link;
mod offset;
#[cfg(test)]
mod tests;
mod time;

pub use id::{id_text, read_id};
pub use link::{Kind, read_ref, ref_text};
pub use time::{read_time, time_text};
