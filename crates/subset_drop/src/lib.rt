//! Sets of tracklets without those that are contained in others, by the numbers of their spots.
#![tactic(auto)]

pub use dropping::drop_subsets;

mod dropping;
mod index;
mod numbers;
#[cfg(test)]
mod tests;
