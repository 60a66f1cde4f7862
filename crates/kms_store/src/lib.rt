//! The rows of a store in tables, and the steps that are staged on them until they are settled on the disk.
#![tactic(auto)]

mod applies;
mod apply;
mod checkpointing;
mod consumers;
mod counts;
mod edits;
mod index_key;
mod kept_secret;
mod keyed;
mod keys;
pub mod laws;
mod load_fault;
mod loading;
mod measure;
mod part;
mod places;
mod ready;
mod ready_step;
mod row;
mod rows;
mod rows_left;
mod secrets_left;
mod snapshot;
mod spelling;
mod staged;
mod steps;
mod store;
mod table;
mod tables;
mod tally;
#[cfg(test)]
mod tests;

pub use checkpointing::checkpoint;
pub use kept_secret::KeptSecret;
pub use load_fault::LoadFault;
pub use loading::load;
pub use part::Part;
pub use ready::Ready;
pub use ready_step::ReadyStep;
pub use steps::steps_after;
pub use store::Store;
pub use tables::Tables;
