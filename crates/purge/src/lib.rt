//! The purge of a group: the spots that lie too far from the line of the others are dropped.
//!
//! While a group lies on no line, the spot with the greatest residual from the least-squares lines of
//! position over time is dropped. Residuals are compared as whole numbers, times one number for both
//! axes, so nothing is rounded.
#![tactic(auto)]

pub use dropping::{purge, purge_places};
pub use farthest::worst;
pub use laws::residuals_are_scaled;

mod dropping;
mod farthest;
mod laws;
mod squares;
#[cfg(test)]
mod tests;
