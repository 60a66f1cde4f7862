//! The top call: creates a store, or opens one, reads messages from a line, asks the engine, settles, and gives the
//! printed replies.
#![tactic(auto)]

mod give;
mod init;
pub mod laws;
mod line;
mod open;
mod owed;
mod prepare;
mod program;
mod request;
mod serving;
mod status;
mod words;

pub use program::run;
pub use status::Status;
