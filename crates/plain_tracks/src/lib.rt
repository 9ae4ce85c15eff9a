//! The maximal tracks by plain enumeration: every choice of at most one tracklet of each night, in so
//! far as it fits.
#![tactic(auto)]

pub use laws::maximal_tracks_exist;
pub use listing::maximal_tracks;

mod growing;
mod laws;
mod listing;
mod maximal;
#[cfg(test)]
mod tests;
