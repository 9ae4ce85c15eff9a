//! A night of held detections as a value: it is built once from its spots, and then kept.
#![tactic(auto)]

pub use nights::Night;

mod listing;
mod nights;
mod stages;
#[cfg(test)]
mod tests;
