//! Lists: what a query asks, which rows pass its filters, in which order, which of them stand on a page, and links.
#![tactic(auto)]

mod filter;
pub mod laws;
mod links;
mod listing;
mod number;
mod order;
mod paging;
mod parameters;
mod places;
mod query;
mod rows;
mod rules;
mod sorts;
#[cfg(test)]
mod table;
#[cfg(test)]
mod tests;

pub use links::link;
pub use listing::Listing;
pub use paging::{page, page_of};
pub use parameters::Parameters;
pub use places::{Page, Places};
pub use query::{Query, QueryFault};
pub use rows::Rows;
pub use sorts::{SortKey, Sorts};
