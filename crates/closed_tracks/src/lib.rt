//! The maximal tracks by closed sets: sets of tracklets that fit and can't grow, and of these the ones
//! that are contained in no other.
#![tactic(auto)]

pub use listing::maximal_tracks;

mod listing;
mod numbering;
#[cfg(test)]
mod tests;
mod tracks;
