//! Why an asked list of ids has no answer.
use std::alloc::AllocError;
use thiserror::Error;

/// Why an asked list of ids has no answer, with a place in the list, from 0. The reasons are tested
/// in this order.
#[derive(Clone, Copy, Debug, PartialEq, Eq, Error)]
pub enum AskError {
    /// The id at this place, the first such, isn't held.
    #[error("the id at place {0} isn't held")]
    Unknown(u32),
    /// The id at this place, the first such, equals an earlier one.
    #[error("the id at place {0} equals an earlier one")]
    Twice(u32),
    /// Memory was wanting.
    #[error("out of memory")]
    NoMemory,
}

impl From<AllocError> for AskError {
    ghost use Rattle.std.specs.Prelude.{◌≡◌};
    ghost use Rattle.sky_units.specs.declared.ask_errors.AskError.TheVariants.{NoMemory};

    ghost from_gives = { λ _ e. e ≡ NoMemory };

    fn from(_error: AllocError) -> AskError {
        AskError::NoMemory
    }
}
