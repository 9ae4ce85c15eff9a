//! The kinds of input.

/// What the lines of an input may be.
#[derive(Clone, Copy, Debug, PartialEq, Eq)]
pub enum Input {
    /// Detections and commands.
    Script,
    /// Detections alone.
    Plain,
}
