//! What a line of the input is to the program.
ghost use Rattle.std.specs.Prelude.{◌≡◌, IfOk, Result};
ghost use Rattle.script_text.specs.Commands.{IsAnswer};
ghost use Rattle.script_text.specs.declared.lines.Line.{Line};
ghost use Rattle.script_text.specs.declared.errors.ScriptError.{ScriptError};
ghost use Rattle.mops_run.specs.Lines.{IsLeft, said_of as said_of_line};

use miti_text::{Detection, LineError};
use script_text::{Line, ScriptError};
use sky_units::{NoMemory, Word, Words};
use std::alloc::AllocError;

/// What a line is to the program. A command, well formed or not, ends the delivery that is under way.
#[derive(Debug, Drop)]
pub enum Said {
    /// A blank line or a comment.
    Nothing,
    /// A detection, which waits for its delivery.
    Waits(Detection),
    /// A line that is no detection line.
    Refused(LineError),
    /// A command.
    Asks(Command),
    /// A malformed command.
    Malformed(ScriptError),
}

/// What a command asks for.
#[derive(Debug, Drop)]
pub enum Command {
    /// To change the setting of this name.
    Set(Word, i64),
    /// To watch the nights from the first to the last.
    Window(i64, i64),
    /// The tracklets of a night.
    Tracklets(i64),
    /// The report.
    Report,
    /// What the detections of some ids are.
    Ask(Words),
    /// The statistics.
    Stats,
}

/// What is left to answer of a line that was read so. Most lines are detections: such a one joins
/// those that wait at once, and nothing is left.
pub fn left_of(
    line: Result<Line, ScriptError>,
    waiting: &mut Vec<Detection>,
) -> Result<Option<Said>, NoMemory>
    ensures { (answer : Result Line ScriptError) → IsAnswer answer line → IfOk result
        (IsLeft (said_of_line answer) waiting.old.items waiting.new.items) }
{
    let said = match line {
        Ok(Line::Detection(detection)) => {
            waiting.push(detection)?;
            return Ok(None);
        }
        Ok(Line::Blank) => Said::Nothing,
        Ok(Line::Bad(error)) => Said::Refused(error),
        Ok(Line::Set(name, value)) => Said::Asks(Command::Set(name, value)),
        Ok(Line::Window(lo, hi)) => Said::Asks(Command::Window(lo, hi)),
        Ok(Line::Tracklets(night)) => Said::Asks(Command::Tracklets(night)),
        Ok(Line::Report) => Said::Asks(Command::Report),
        Ok(Line::Ask(ids)) => Said::Asks(Command::Ask(ids)),
        Ok(Line::Stats) => Said::Asks(Command::Stats),
        Err(ScriptError::NoMemory) => return Err(AllocError),
        Err(error) => Said::Malformed(error),
    };
    Ok(Some(said))
}
