//! The sets of a family that can't grow: found by a search, over any family of sets of numbers in which
//! every part of a fitting set fits.
#![tactic(auto)]

pub use among::closed_sets_among;
pub use around::closed_sets_with;
pub use family::Family;
pub use laws::closed_by_numbers;

mod among;
mod around;
mod candidates;
mod family;
mod laws;
mod roots;
mod search;
mod sets;
#[cfg(test)]
mod tests;
