//! The exact test whether the spots of one night lie on a line within a tolerance, on both axes of
//! the sky, and the slopes of such lines.
//!
//! The slopes of the lines within the tolerance of two spots are those between two bounds. Some line
//! is within the tolerance of all spots exactly where the bounds of each two, and those of the
//! greatest rate, have a slope in common.
#![tactic(auto)]

pub use laws::slopes_tell_lines;
pub use lines::{fits_line, slope_range};

mod laws;
mod lines;
mod narrowing;
mod quotients;
mod slopes;
#[cfg(test)]
mod tests;
