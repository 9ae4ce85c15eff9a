//! Why a text is no report.
use std::alloc::AllocError;
use thiserror::Error;

/// Why a text is no report.
#[derive(Clone, Copy, Debug, PartialEq, Eq, Error)]
pub enum ReportError {
    /// No valid report has this text.
    #[error("bad report")]
    Bad,
    /// Memory was wanting.
    #[error("out of memory")]
    NoMemory,
}

impl From<AllocError> for ReportError {
    ghost use Rattle.std.specs.Prelude.{◌≡◌};
    ghost use Rattle.track_report.specs.declared.errors.ReportError.TheVariants.{NoMemory};

    ghost from_gives = { λ _ e. e ≡ NoMemory };

    fn from(_error: AllocError) -> ReportError {
        ReportError::NoMemory
    }
}
