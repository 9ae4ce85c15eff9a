//! The nights that a linker keeps: one for each night with held exposures, with exactly the tracklets
//! of its held detections. An exposure that comes renews its own night and no other.
#![tactic(auto)]

pub use keeping::{
    built, changed_nights, forget_before, let_go, night_of_number, put, put_all,
    renew_all_or_remove, renew_or_remove,
};

mod keeping;
#[cfg(test)]
mod tests;
