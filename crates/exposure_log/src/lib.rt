//! The held exposures of a survey, and the window of nights that it keeps.
#![tactic(auto)]

pub use errors::{AddError, NotHeld, WindowError};
pub use exposures::{Exposure, gather};
pub use laws::{add_exists, add_is_unique, exposures_are_unique, exposures_exist};
pub use log::ExposureLog;
pub use outcomes::{Outcome, hold_all, take_out_all};

mod canonical;
mod errors;
mod exposures;
mod laws;
mod log;
mod nights;
mod numbered;
mod outcomes;
#[cfg(test)]
mod tests;
