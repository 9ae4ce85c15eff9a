//! Reading a script line.
ghost use Rattle.std.specs.Prelude.{◌≡◌, ◌==◌, slice_index, Ok};
ghost use Rattle.std.specs.List.{list_all};
ghost use Rattle.miti_text.specs.Words.{is_blank};
ghost use Rattle.miti_text.specs.Lines.{detection_of};
ghost use Rattle.miti_text.specs.declared.errors.LineError.TheVariants.{NoMemory};
ghost use Rattle.script_text.specs.Commands.{IsAnswer};
ghost use Rattle.script_text.specs.Script.{script_line_of, detection_line};
ghost use Rattle.script_text.specs.declared.lines.Line.TheVariants as lines;

use crate::commands::read_command;
use crate::{Line, ScriptError};
use miti_text::{LineError, is_text, read_line};
use std::alloc::Global;

/// The most bytes of a line.
const MOST_BYTES: usize = 1_024;

/// What a script line says, without its line end; or why it is a malformed command.
#[tactic(auto, unfolding(crate::specs::Script::script_line_of))]
pub fn read_script_line(alloc: Global, line: &[u8]) -> Result<Line, ScriptError>
    ensures answer { IsAnswer (script_line_of line.now) result }
    ensures cause { result ≡ Ok (lines.Bad NoMemory) → ⊥ }
{
    if begins_with(line, b'#') {
        return Ok(Line::Blank);
    }
    if line.len() > MOST_BYTES {
        return Ok(Line::Bad(LineError::Long));
    }
    if are_blanks(line) {
        return Ok(Line::Blank);
    }
    if !begins_with(line, b'!') {
        return read_detection(alloc, line);
    }
    if !is_text(line) {
        return Ok(Line::Bad(LineError::Byte));
    }
    read_command(alloc, line)
}

/// A line that is neither blank nor a command.
fn read_detection(alloc: Global, line: &[u8]) -> Result<Line, ScriptError>
    ensures answer { IsAnswer (detection_line (detection_of line.now)) result }
    ensures cause { result ≡ Ok (lines.Bad NoMemory) → ⊥ }
{
    match read_line(alloc, line) {
        Ok(detection) => Ok(Line::Detection(detection)),
        Err(LineError::NoMemory) => Err(ScriptError::NoMemory),
        Err(error) => Ok(Line::Bad(error)),
    }
}

/// Whether a line begins with a byte, which is not 0.
fn begins_with(line: &[u8], byte: u8) -> bool
    requires { byte ≡ 0 → ⊥ }
    ensures { result ≡ (slice_index line.now 0 == byte) }
{
    line.first() == Some(&byte)
}

/// Whether a line has only spaces and tabs.
fn are_blanks(line: &[u8]) -> bool
    ensures { result ≡ list_all is_blank line.now }
{
    line.iter().all(|byte| *byte == b' ' || *byte == b'\t')
}
