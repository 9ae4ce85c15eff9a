//! Fitting sets of tracklets by the lasting numbers of the tracklets, and those of them that can't grow.
//!
//! A number says nothing of its tracklet's night: a table leads from it to the place of the tracklet. So
//! sets are kept as they are while nights come and go.
#![tactic(auto)]

pub use growing::grow_numbered;
pub use laws::{closed_sets_hold_all, maximal_tracks_are_closed, parts_fit, spots_tell_the_set};
pub use nights::NumberedNight;
pub use places::Place;
pub use seats::{Seat, seats_of};

mod ends;
mod family;
mod growing;
mod laws;
mod nights;
mod others;
mod partners;
mod places;
mod seats;
mod testing;
#[cfg(test)]
mod tests;
