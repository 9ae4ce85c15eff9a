//! The linker of a window of nights: it holds exposures, keeps a night with its tracklets for each
//! night with held exposures, and answers with the tracklets of a night, the report of all maximal
//! tracks, what asked detections are, and statistics.
#![tactic(auto)]

pub use laws::{
    asked_exists, asked_is_unique, report_exists, report_follows, report_is_unique,
    stats_are_unique, stats_exist,
};
pub use order_laws::{each_is_taken_once, report_in_any_order};
pub use state::Linker;

mod answers;
mod asking;
#[cfg(test)]
mod comparison_tests;
mod keeping;
mod laws;
mod listing;
mod order_laws;
#[cfg(test)]
mod order_tests;
mod state;
#[cfg(test)]
mod tests;
