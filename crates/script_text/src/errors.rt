//! Why a command line is malformed.
use std::alloc::AllocError;
use thiserror::Error;

/// Why a command line is malformed, tested in this order.
#[derive(Clone, Copy, Debug, PartialEq, Eq, Error)]
pub enum ScriptError {
    /// The first word names no command.
    #[error("unknown command")]
    Command,
    /// The command wants another number of words.
    #[error("wrong number of words")]
    Words,
    /// A word in the place of a number is none.
    #[error("bad number")]
    Number,
    /// Memory was wanting.
    #[error("out of memory")]
    NoMemory,
}

impl From<AllocError> for ScriptError {
    ghost use Rattle.std.specs.Prelude.{◌≡◌};
    ghost use Rattle.script_text.specs.declared.errors.ScriptError.TheVariants.{NoMemory};

    ghost from_gives = { λ _ e. e ≡ NoMemory };

    fn from(_error: AllocError) -> ScriptError {
        ScriptError::NoMemory
    }
}
