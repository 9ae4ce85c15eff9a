//! What is kept of the nights beside their tracklets: lasting numbers of these, and the closed sets of
//! the numbers. The maximal tracks are read from the sets, and a night that is built anew changes those
//! alone that its tracklets change.
#![tactic(auto)]

pub use keeping::KeptTracks;

mod changing;
mod exchanging;
mod keeping;
mod numbering;
#[cfg(test)]
mod tests;
mod tracks;
