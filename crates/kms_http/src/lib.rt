//! Reads the messages of a stream and prints replies (RFC 9112).
#![tactic(auto)]

mod allow;
mod caller;
mod close;
mod date;
mod elements;
mod fault;
mod fields;
mod framing;
mod head_end;
mod head_parts;
mod message;
mod message_front;
pub mod message_laws;
mod message_read;
mod message_reader;
#[cfg(test)]
mod message_tests;
mod method;
mod past;
mod path;
mod reply;
mod routes;
mod routing;
mod served;
mod shapes;
#[cfg(test)]
mod table;
mod target;
#[cfg(test)]
mod tests;
#[cfg(test)]
mod vector_tests;
mod whole_head;

pub use fault::{FaultReply, fault_reply};
pub use fields::Fields;
pub use message::{Head, Message};
pub use message_read::MessageRead;
pub use message_reader::MessageReader;
pub use path::Path;
pub use reply::print;
pub use routes::Routes;
pub use routing::{RouteFault, route};
pub use served::Served;
