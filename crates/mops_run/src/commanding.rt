//! The linker's answers to commands.
ghost use Rattle.std.specs.Prelude.{◌≡◌, ◌<◌, ◌^◌, IfOk, length};
ghost use Rattle.mops_run.specs.Commands.{Obeys};
ghost use Rattle.mops_run.specs.Lines.{IsNearCommand};
ghost use Rattle.sky_units.specs.Limits.{IsNear};

use crate::lines::Command;
use exposure_log::WindowError;
use sky_units::{AskError, NoMemory, Tally, Word, Words};
use std::alloc::AllocError;
use track_report::Reply;
use window_incr::Linker;

/// Does what a command asks for, and gives its reply.
pub fn obey(linker: &mut Linker, command: Command, tally: &mut Tally) -> Result<Reply, NoMemory>
    requires { IsNearCommand command }
    ensures reply { IfOk result (λ reply. Obeys command linker.old.state reply linker.new.state) }
    ensures tally { tally.new ≡ tally.old }
{
    match command {
        Command::Set(name, value) => Ok(set(linker, name, value)),
        Command::Window(lo, hi) => set_window(linker, lo, hi, tally),
        Command::Tracklets(night) => Ok(Reply::Tracklets(night, linker.tracklets(night)?)),
        Command::Report => Ok(Reply::Report(linker.report(tally)?)),
        Command::Ask(ids) => ask(linker, ids),
        Command::Stats => Ok(Reply::Stats(linker.stats()?)),
    }
}

/// Changes a setting, and gives the reply.
fn set(linker: &mut Linker, name: Word, value: i64) -> Reply
    ensures { Obeys (Command.Set name value) linker.old.state result linker.new.state }
{
    match linker.set(name.bytes(), value) {
        Ok(()) => Reply::Set(name, value),
        Err(error) => Reply::SetRefused(error),
    }
}

/// Moves the window, and gives the reply.
fn set_window(linker: &mut Linker, lo: i64, hi: i64, tally: &mut Tally) -> Result<Reply, NoMemory>
    requires { IsNear (lo, hi) }
    ensures reply { IfOk result (λ reply.
        Obeys (Command.Window lo hi) linker.old.state reply linker.new.state) }
    ensures tally { tally.new ≡ tally.old }
{
    match linker.set_window(lo, hi, tally) {
        Ok(()) => Ok(Reply::Window(lo, hi)),
        Err(WindowError::NoMemory) => Err(AllocError),
        Err(error) => Ok(Reply::WindowRefused(error)),
    }
}

/// What the detections of some ids are, as a reply.
fn ask(linker: &Linker, ids: Words) -> Result<Reply, NoMemory>
    requires few { length ids < 2 ^ 32 }
    ensures { IfOk result (λ reply.
        Obeys (Command.Ask ids) linker.now.state reply linker.now.state) }
{
    match linker.ask(&ids) {
        Ok(asked) => Ok(Reply::Asked(ids, asked)),
        Err(AskError::NoMemory) => Err(AllocError),
        Err(error) => Ok(Reply::AskRefused(ids, error)),
    }
}
