//! Units, spots, settings and the small lists that the linker's crates share.
//!
//! Times are counted in ticks of 10^-6 day of the modified Julian date, angles in 10^-6 degree.
#![tactic(auto)]

pub use angles::{lift, wrap};
pub use arcs::{is_arc, is_arc_joined, spread_fault};
pub use ask_errors::AskError;
pub use asked::Asked;
pub use axis::Axis;
pub use certificates::Cert;
pub use euclid::{common_divisor, quotient};
pub use fraction::Frac;
pub use joined::{joined_len, joined_spot};
pub use joining::joined_spots;
pub use laws::{lifted_differences_agree, origin_is_free, reported_is_unique};
pub use limits::{ARC_TICKS, MOST_NIGHTS};
pub use lists::Places;
pub use nights::night_of;
pub use offsets::offset;
pub use options::Settings;
pub use placed::spots_at;
pub use quads::Quad;
pub use reports::{Report, Track, Tracks};
pub use retract_errors::RetractError;
pub use setting_names::SetError;
pub use spots::Spot;
pub use statistics::Stats;
use std::alloc::AllocError;
pub use tallies::Tally;
pub use texts::{Groups, Word, Words};
pub use tracklets::{TrackSet, Tracklet};

mod angles;
mod arcs;
mod ask_errors;
mod asked;
mod axis;
mod certificates;
mod euclid;
mod fraction;
mod joined;
mod joining;
mod laws;
mod limits;
mod lists;
mod nights;
mod offsets;
mod options;
mod placed;
mod quads;
mod reports;
mod retract_errors;
mod setting_names;
mod spots;
mod statistics;
mod tallies;
mod texts;
mod tracklets;

/// Want of memory, where it is the only error: another name of std's `AllocError`.
pub type NoMemory = AllocError;

#[cfg(test)]
mod motion_tests;
