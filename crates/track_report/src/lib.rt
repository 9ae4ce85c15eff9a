//! The replies to a script and their texts, byte for byte.
//!
//! Each reply is one or more lines, each ended by a line feed, with one space between words.
#![tactic(auto)]

pub use errors::ReportError;
pub use read_back::read_report;
pub use replies::{Reply, append_reply, write_reply};
pub use reports::write_report;

mod asking;
mod errors;
mod names;
mod quads;
mod read_back;
#[cfg(test)]
mod read_tests;
mod reading;
mod replies;
mod reports;
#[cfg(test)]
mod tests;
mod validity;
mod words;
