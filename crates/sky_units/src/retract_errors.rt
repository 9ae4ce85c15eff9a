//! Why an exposure could not be taken back.
use std::alloc::AllocError;
use thiserror::Error;

/// Why an exposure could not be taken back. Nothing changed.
#[derive(Clone, Copy, Debug, PartialEq, Eq, Error)]
pub enum RetractError {
    /// No exposure of this epoch and site is held.
    #[error("no exposure of this epoch and site is held")]
    Absent,
    /// Memory was wanting.
    #[error("out of memory")]
    NoMemory,
}

impl From<AllocError> for RetractError {
    ghost use Rattle.std.specs.Prelude.{◌≡◌};
    ghost use Rattle.sky_units.specs.declared.retract_errors.RetractError.TheVariants.{NoMemory};

    ghost from_gives = { λ _ e. e ≡ NoMemory };

    fn from(_error: AllocError) -> RetractError {
        RetractError::NoMemory
    }
}
