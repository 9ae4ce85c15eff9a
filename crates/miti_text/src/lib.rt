//! Lines of detections, read by their grammar and written.
//!
//! A detection line has at least seven words: id, epoch, right ascension, declination, magnitude,
//! site and name. Times become ticks of 10^-6 day, angles 10^-6 degree, magnitudes 10^-3.
#![tactic(auto)]

pub use detections::Detection;
pub use errors::LineError;
pub use numerals::read_number;
pub use pieces::next_word;
pub use reading::{is_text, read_line};
pub use writing::write_line;

mod detections;
mod errors;
mod numerals;
mod pieces;
mod quantities;
mod reading;
mod short_decimals;
#[cfg(test)]
mod tests;
mod writing;
