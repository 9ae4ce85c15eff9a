//! `watch`: a script of detections and commands.
ghost use Rattle.std.specs.Prelude.{◌≡◌, ◌^◌, ◌<◌, ◌++◌, ◌∷◌, [], IfOk, length};
ghost use Rattle.mops_run.specs.Deliveries.{Delivers};
ghost use Rattle.mops_run.specs.Lines.{IsNearLine};
ghost use Rattle.mops_run.specs.Replies.{Replies};
ghost use Rattle.mops_run.specs.State.{state_of};
ghost use Rattle.mops_run.specs.Work.{IsWorkOfLine, IsWorkToDeliver};

use crate::commanding::obey;
use crate::delivering::deliver;
use crate::inputs::Input;
use crate::lines::Said;
use miti_text::Detection;
use sky_units::{NoMemory, Tally};
use std::alloc::Global;
use std::mem;
use track_report::Reply;
use window_incr::Linker;

/// The replies to the line of a number. A command, well formed or not, first has what waits
/// delivered.
pub fn script_reply(
    alloc: Global,
    linker: &mut Linker,
    waiting: &mut Vec<Detection>,
    number: u64,
    said: Said,
    tally: &mut Tally,
) -> Result<Vec<Reply>, NoMemory>
    requires few { length waiting.old.items < 2 ^ 32 }
    requires near { IsNearLine said }
    ensures replies { IfOk result (λ replies.
        Replies number (state_of linker.old.state waiting.old.items) said replies.items
        (state_of linker.new.state waiting.new.items)) }
    ensures work { IsWorkOfLine Input.Script (state_of linker.old.state waiting.old.items) said
        tally.old tally.new }
{
    match said {
        Said::Nothing => Ok(Vec::new(alloc)),
        Said::Waits(detection) => wait(alloc, waiting, detection),
        Said::Refused(error) => one(alloc, Reply::Line(number, error)),
        Said::Asks(command) => {
            let mut replies = deliver_waiting(alloc, linker, waiting, tally)?;
            replies.push(obey(linker, command, tally)?)?;
            Ok(replies)
        }
        Said::Malformed(error) => {
            let mut replies = deliver_waiting(alloc, linker, waiting, tally)?;
            replies.push(Reply::Script(number, error))?;
            Ok(replies)
        }
    }
}

/// Lets a detection wait, and gives no reply.
pub fn wait(
    alloc: Global,
    waiting: &mut Vec<Detection>,
    detection: Detection,
) -> Result<Vec<Reply>, NoMemory>
    ensures { IfOk result (λ replies. (replies.items ≡ []) ×
        (waiting.new.items ≡ waiting.old.items ++ detection ∷ [])) }
{
    waiting.push(detection)?;
    Ok(Vec::new(alloc))
}

/// One reply alone.
pub fn one(alloc: Global, reply: Reply) -> Result<Vec<Reply>, NoMemory>
    ensures { IfOk result (λ replies. replies.items ≡ reply ∷ []) }
{
    let mut replies = Vec::new(alloc);
    replies.push(reply)?;
    Ok(replies)
}

/// Delivers what waits, so that nothing waits any more.
fn deliver_waiting(
    alloc: Global,
    linker: &mut Linker,
    waiting: &mut Vec<Detection>,
    tally: &mut Tally,
) -> Result<Vec<Reply>, NoMemory>
    requires few { length waiting.old.items < 2 ^ 32 }
    ensures replies { IfOk result (λ replies.
        Delivers linker.old.state waiting.old.items replies.items linker.new.state) }
    ensures none_waits { waiting.new.items ≡ [] }
    ensures work { IsWorkToDeliver linker.old.state waiting.old.items tally.old tally.new }
{
    let delivered = mem::replace(waiting, Vec::new(alloc));
    deliver(alloc, linker, delivered, tally)
}
