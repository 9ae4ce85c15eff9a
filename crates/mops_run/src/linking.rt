//! `link`: detections alone, which are linked at once at the end of the input.
ghost use Rattle.std.specs.Prelude.{◌≡◌, ◌^◌, ◌<◌, ◌+ℤ◌, ◌∷◌, [], pos, IfOk, IfSome, MatchOption, length};
ghost use Rattle.sky_math.specs.Night.{night_at};
ghost use Rattle.window_incr.specs.LinkerState.{LinkerState};
ghost use Rattle.mops_run.specs.Commands.{Obeys};
ghost use Rattle.mops_run.specs.Inputs.{RepliesIn};
ghost use Rattle.mops_run.specs.Linking.{IsLeastNight, IsNearNight, Links, LinksAndReports};
ghost use Rattle.mops_run.specs.State.{state_of};
ghost use Rattle.mops_run.specs.Work.{IsWorkToLink};

use crate::commanding::obey;
use crate::delivering::deliver;
use crate::inputs::Input;
use crate::lines::{Command, Said};
use crate::watching::{one, wait};
use miti_text::Detection;
use script_text::ScriptError;
use sky_units::{MOST_NIGHTS, NoMemory, Settings, Tally, night_of};
use std::alloc::Global;
use track_report::Reply;
use window_incr::Linker;

/// The replies to the line of a number. What would be a command, well formed or not, is refused.
pub fn plain_reply(
    alloc: Global,
    waiting: &mut Vec<Detection>,
    number: u64,
    said: Said,
) -> Result<Vec<Reply>, NoMemory>
    ensures replies { IfOk result (λ replies. (linker : LinkerState) →
        RepliesIn Input.Plain number (state_of linker waiting.old.items) said replies.items
        (state_of linker waiting.new.items)) }
{
    match said {
        Said::Nothing => Ok(Vec::new(alloc)),
        Said::Waits(detection) => wait(alloc, waiting, detection),
        Said::Refused(error) => one(alloc, Reply::Line(number, error)),
        Said::Asks(_) | Said::Malformed(_) => {
            one(alloc, Reply::Script(number, ScriptError::Command))
        }
    }
}

/// Links detections, and gives the replies with that to a report behind them.
pub fn link_and_report(
    alloc: Global,
    linker: &mut Linker,
    detections: Vec<Detection>,
    tally: &mut Tally,
) -> Result<Vec<Reply>, NoMemory>
    requires few { length detections.items < 2 ^ 32 }
    ensures replies { IfOk result (λ replies.
        LinksAndReports linker.old.state detections.items replies.items linker.new.state) }
    ensures work { IsWorkToLink linker.old.state detections.items tally.old tally.new }
{
    let mut replies = link_all(alloc, linker, detections, tally)?;
    replies.push(obey(linker, Command::Report, tally)?)?;
    Ok(replies)
}

/// Links detections at once: the window is set to their least night and the twenty-nine after it,
/// and they are one delivery. Without a detection nothing is set.
pub fn link_all(
    alloc: Global,
    linker: &mut Linker,
    detections: Vec<Detection>,
    tally: &mut Tally,
) -> Result<Vec<Reply>, NoMemory>
    requires few { length detections.items < 2 ^ 32 }
    ensures replies { IfOk result (λ replies.
        Links linker.old.state detections.items replies.items linker.new.state) }
    ensures work { IsWorkToLink linker.old.state detections.items tally.old tally.new }
{
    let Some(night) = least_night(linker.settings(), detections.as_slice()) else {
        return Ok(Vec::new(alloc));
    };
    let window = set_window(linker, night, tally)?;
    let mut replies = one(alloc, window)?;
    let mut delivered = deliver(alloc, linker, detections, tally)?;
    replies.append(&mut delivered)?;
    Ok(replies)
}

/// Sets the window to a night and the twenty-nine after it, and gives the reply.
fn set_window(linker: &mut Linker, night: i64, tally: &mut Tally) -> Result<Reply, NoMemory>
    requires near { IsNearNight night }
    ensures reply { IfOk result (λ reply. Obeys (Command.Window night (night +ℤ pos 29))
        linker.old.state reply linker.new.state) }
    ensures tally { tally.new ≡ tally.old }
{
    obey(
        linker,
        Command::Window(night, night + (MOST_NIGHTS - 1)),
        tally,
    )
}

/// The least night of some detections; None without one.
fn least_night(settings: &Settings, detections: &[Detection]) -> Option<i64>
    ensures least { MatchOption result (detections.now ≡ [])
        (IsLeastNight settings.now.night_shift detections.now) }
    ensures near { IfSome result IsNearNight }
{
    let (first, rest) = detections.split_first()?;
    Some(least_from(settings, first, rest))
}

/// The least night of a detection and some others.
fn least_from(settings: &Settings, first: &Detection, rest: &[Detection]) -> i64
    ensures least { IsLeastNight settings.now.night_shift (first.now ∷ rest.now) result }
    ensures near { IsNearNight result }
{
    let mut least = night(settings, first);
    for detection in rest {
        least = least.min(night(settings, detection));
    }
    least
}

/// The night of a detection.
fn night(settings: &Settings, detection: &Detection) -> i64
    ensures value { result ≡ night_at settings.now.night_shift detection.now.epoch }
    ensures near { IsNearNight result }
{
    night_of(detection.epoch, settings.night_shift)
}
