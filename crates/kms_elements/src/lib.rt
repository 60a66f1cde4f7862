//! The comma elements of a field's value (RFC 9110 section 5.6.1), and white space around texts.
#![tactic(auto)]

mod element;
mod text;

pub use element::{ElementTest, some_element};
pub use text::{length_before, trim};
