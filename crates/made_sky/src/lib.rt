//! Made skies: objects that move with constant accelerations, all drawn from one number, and their
//! detections over some nights.
#![tactic(auto)]

pub use sightings::{Sighting, Sightings};
pub use sky::Sky;

mod draws;
mod motions;
mod sightings;
mod sky;
#[cfg(test)]
mod tests;
