//! Why an exposure is not taken, and why the window is not moved.
use crate::exposures::Exposure;
use std::alloc::AllocError;
use thiserror::Error;

/// Why the log doesn't take an exposure. Each cause but want of memory comes where it holds and no
/// earlier one does.
#[derive(Clone, Copy, Debug, PartialEq, Eq, Error)]
pub enum AddError {
    /// No window was set.
    #[error("no window was set")]
    NoWindow,
    /// The night lies before the window.
    #[error("the night lies before the window")]
    Old,
    /// The night lies after the window.
    #[error("the night lies after the window")]
    New,
    /// An exposure of this epoch and site is held.
    #[error("an exposure of this epoch and site is held")]
    Held,
    /// The place, from 0, of the first detection whose id is held or equals that of an earlier one.
    #[error("the id at place {0} is taken")]
    Id(u32),
    /// The night holds 4,096 exposures.
    #[error("the night holds no more exposures")]
    NightFull,
    /// More than 1,048,576 detections would be held.
    #[error("the log holds no more detections")]
    Full,
    /// Memory was wanting.
    #[error("out of memory")]
    NoMemory,
}

impl From<AllocError> for AddError {
    ghost use Rattle.std.specs.Prelude.{◌≡◌};
    ghost use Rattle.exposure_log.specs.declared.errors.AddError.TheVariants.{NoMemory};

    ghost from_gives = { λ _ e. e ≡ NoMemory };

    fn from(_error: AllocError) -> AddError {
        AddError::NoMemory
    }
}

/// Why an exposure that was handed over is not held.
#[derive(Drop)]
pub enum NotHeld {
    /// The log doesn't take it, for this cause, which is never want of memory: it comes back as it was.
    Refused(AddError, Exposure),
    /// Memory was wanting.
    NoMemory,
}

/// Why the window can't be moved. Each comes where its cause holds and no earlier one does;
/// `NoMemory` never comes.
#[derive(Clone, Copy, Debug, PartialEq, Eq, Error)]
pub enum WindowError {
    /// The last night lies before the first.
    #[error("the last night lies before the first")]
    Order,
    /// The window has more than thirty nights.
    #[error("the window has more than thirty nights")]
    Wide,
    /// The first or the last night lies before that of the window.
    #[error("the window would move back")]
    Back,
    /// Memory was wanting.
    #[error("out of memory")]
    NoMemory,
}
