//! What a script line says.
use miti_text::{Detection, LineError};
use sky_units::{Word, Words};

/// What a script line says.
#[derive(Debug, Drop)]
pub enum Line {
    /// A comment, or a line of blanks alone.
    Blank,
    /// A detection.
    Detection(Detection),
    /// No detection line, with its cause; never want of memory.
    Bad(LineError),
    /// `!set`: a setting's name and its new value.
    Set(Word, i64),
    /// `!window`: the first and the last night.
    Window(i64, i64),
    /// `!tracklets`: a night.
    Tracklets(i64),
    /// `!report`.
    Report,
    /// `!ask`: one or more ids.
    Ask(Words),
    /// `!stats`.
    Stats,
}
