//! Tracklets by number: a tracklet keeps its number as long as its night has it.
#![tactic(auto)]

pub use laws::{
    exchange_changes_fits, exchanges_follow, fits_are_of_finitely_many,
    numbered_nights_are_in_place, numbered_nights_are_numbered,
};
pub use nights::NightNumbers;
pub use numbering::numbered_nights;
pub use register::TrackletRegister;
pub use renewing::in_order;
pub use replacing::Exchange;

mod forgetting;
mod laws;
mod marking;
mod matching;
mod nights;
mod numbering;
mod register;
mod renewing;
mod replacing;
#[cfg(test)]
mod tests;
