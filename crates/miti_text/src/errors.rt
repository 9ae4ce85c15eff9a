//! Why a line is no detection line.
use std::alloc::AllocError;
use thiserror::Error;

/// Why a line is no detection line. Each comes where its rule is the first that is broken, and
/// the rules are tested in this order: `Long`, `Byte`, `Fields`, `Id` and so on to `Name`.
#[derive(Clone, Copy, Debug, PartialEq, Eq, Error)]
pub enum LineError {
    /// The line has fewer than seven words.
    #[error("fewer than seven fields")]
    Fields,
    /// The id is longer than 64 bytes, or begins with `!` or `#`.
    #[error("bad id")]
    Id,
    /// The epoch is no decimal, or not from 0 to 200,000.
    #[error("bad epoch")]
    Epoch,
    /// The right ascension is no decimal, or not from 0 to 360.
    #[error("bad right ascension")]
    Ra,
    /// The declination is no decimal, or not from -90 to 90.
    #[error("bad declination")]
    Dec,
    /// The magnitude is no decimal, or not from -1,000 to 1,000.
    #[error("bad magnitude")]
    Mag,
    /// The site is longer than 8 bytes.
    #[error("bad site")]
    Site,
    /// The name is longer than 64 bytes.
    #[error("bad name")]
    Name,
    /// The line has more than 1,024 bytes.
    #[error("line too long")]
    Long,
    /// The line has a byte that is neither a tab nor from 0x20 to 0x7E.
    #[error("foreign byte")]
    Byte,
    /// Memory was wanting.
    #[error("out of memory")]
    NoMemory,
}

impl From<AllocError> for LineError {
    ghost use Rattle.std.specs.Prelude.{◌≡◌};
    ghost use Rattle.miti_text.specs.declared.errors.LineError.TheVariants.{NoMemory};

    ghost from_gives = { λ _ e. e ≡ NoMemory };

    fn from(_error: AllocError) -> LineError {
        LineError::NoMemory
    }
}
