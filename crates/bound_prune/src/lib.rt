//! Boxes of tracklets, and the bounds that tell which of them can fit together.
//!
//! The box of a tracklet holds where and when it was, and the rates that its tolerances leave. Two tracklets that fit together
//! differ in rate by no more than the acceleration allows, and the way from one to the other is what their rates say.
#![tactic(auto)]

pub use boxes::TrackletBox;
pub use ends::TrackletEnds;
pub use pruning::{PairPrune, TriplePrune};
pub use spans::{DecRange, NightSpan};

mod boxes;
mod ends;
mod fitting;
mod following;
mod meeting;
mod pruning;
mod rates;
mod spans;
#[cfg(test)]
mod tests;
mod times;
mod travel;
mod ways;
