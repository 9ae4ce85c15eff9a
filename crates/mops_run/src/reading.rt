//! Answering the lines of an input, one after another.
ghost use Rattle.std.specs.Prelude.{◌≡◌, ◌^◌, ◌<◌, ◌++◌, ◌∷◌, [], false, IfOk, IfSome, length};
ghost use Rattle.std.specs.List.{list_any};
ghost use Rattle.std.specs.Str.Lines.{lines};
ghost use Rattle.track_report.specs.Refusals.{is_refusal};
ghost use Rattle.mops_run.specs.Answering.{Says, Answered, FailsToAnswer, Finished, FailsToFinish};
ghost use Rattle.mops_run.specs.Inputs.{EndsIn, RepliesIn};
ghost use Rattle.mops_run.specs.Lines.{IsNearLine, said_by};
ghost use Rattle.mops_run.specs.Output.{text_of_all, FailsIn};
ghost use Rattle.mops_run.specs.Promise.{Reads, done_status};
ghost use Rattle.mops_run.specs.State.{state_of};
ghost use Rattle.mops_run.specs.Work.{IsWorkAtEnd, IsWorkOfInput, IsWorkOfLine};

use crate::delivering::deliver;
use crate::inputs::Input;
use crate::lines::{Said, left_of};
use crate::linking::{link_and_report, plain_reply};
use crate::output::{Stop, put};
use crate::top::Status;
use crate::watching::script_reply;
use miti_text::Detection;
use outer_io::{Got, LineReader, ReadStop, Sink, Source};
use script_text::read_script_line;
use sky_units::{NoMemory, Settings, Tally};
use std::alloc::Global;
use track_report::{Reply, append_reply};
use window_incr::Linker;

/// Answers each line of the source on the sink, until the source ends or a call fails. What still
/// waits at the end of the source is answered then.
pub fn read_all<I: Source, O: Sink>(
    alloc: Global,
    input: Input,
    source: &mut I,
    sink: &mut O,
    tally: &mut Tally,
) -> Status
    ensures reads { Reads input result (I.supply source.old) (I.supply source.new)
        (O.receipt sink.old) (O.receipt sink.new) }
    ensures work { IfSome (I.supply source.old).left (λ bytes.
        IsWorkOfInput input (lines bytes) tally.old tally.new) }
{
    let Ok(mut reader) = LineReader::new(alloc) else {
        return Status::NoMemory;
    };
    let Ok(mut linker) = Linker::new(alloc, Settings::standard()) else {
        return Status::NoMemory;
    };
    let mut waiting = Vec::new(alloc);
    let mut line = 0;
    let mut refused = false;
    loop {
        match reader.next(source) {
            Ok(Got::Line) => {
                line += 1;
                match answer(
                    alloc,
                    input,
                    &mut linker,
                    &mut waiting,
                    sink,
                    line,
                    reader.line(),
                    tally,
                ) {
                    Ok(is_refusal) => refused |= is_refusal,
                    Err(Stop::WriteFault) => return Status::WriteFault,
                    Err(Stop::NoMemory) => return Status::NoMemory,
                }
            }
            Ok(Got::End) => break,
            Err(ReadStop::Failed) => return Status::ReadFault,
            Err(ReadStop::TooLong) => return Status::InputTooLong,
        }
    }
    match finish(alloc, input, &mut linker, waiting, sink, tally) {
        Ok(is_refusal) => done(refused | is_refusal),
        Err(Stop::WriteFault) => Status::WriteFault,
        Err(Stop::NoMemory) => Status::NoMemory,
    }
}

/// How a run ends that is done.
fn done(refused: bool) -> Status
    ensures { result ≡ done_status refused }
{
    if refused {
        Status::DoneWithRefusals
    } else {
        Status::Done
    }
}

/// Answers the line of a number on the sink, and says whether a reply is a refusal. A detection joins
/// those that wait, and has no reply.
fn answer<O: Sink>(
    alloc: Global,
    input: Input,
    linker: &mut Linker,
    waiting: &mut Vec<Detection>,
    sink: &mut O,
    number: u64,
    text: &[u8],
    tally: &mut Tally,
) -> Result<bool, Stop>
    requires few { length waiting.old.items < 2 ^ 32 }
    ensures ok { IfOk result (λ refused.
        Answered input number (state_of linker.old.state waiting.old.items) (said_by text.now)
        (O.receipt sink.old) (O.receipt sink.new) refused
        (state_of linker.new.state waiting.new.items)) }
    ensures memory { result ≡ Err Stop.NoMemory → sink.new ≡ sink.old }
    ensures fault { result ≡ Err Stop.WriteFault →
        FailsToAnswer input number (state_of linker.old.state waiting.old.items)
        (said_by text.now) (O.receipt sink.old) (O.receipt sink.new) }
    ensures work { IsWorkOfLine input (state_of linker.old.state waiting.old.items)
        (said_by text.now) tally.old tally.new }
{
    let read = read_script_line(alloc, text);
    let left = left_of(read, waiting)?;
    match left {
        None => Ok(false),
        Some(said) => answer_said(alloc, input, linker, waiting, sink, number, said, tally),
    }
}

/// Answers on the sink what the line of a number says, and says whether a reply is a refusal.
fn answer_said<O: Sink>(
    alloc: Global,
    input: Input,
    linker: &mut Linker,
    waiting: &mut Vec<Detection>,
    sink: &mut O,
    number: u64,
    said: Said,
    tally: &mut Tally,
) -> Result<bool, Stop>
    requires few { length waiting.old.items < 2 ^ 32 }
    requires near { IsNearLine said }
    ensures ok { IfOk result (λ refused.
        Answered input number (state_of linker.old.state waiting.old.items) said
        (O.receipt sink.old) (O.receipt sink.new) refused
        (state_of linker.new.state waiting.new.items)) }
    ensures memory { result ≡ Err Stop.NoMemory → sink.new ≡ sink.old }
    ensures fault { result ≡ Err Stop.WriteFault →
        FailsToAnswer input number (state_of linker.old.state waiting.old.items) said
        (O.receipt sink.old) (O.receipt sink.new) }
    ensures work { IsWorkOfLine input (state_of linker.old.state waiting.old.items) said
        tally.old tally.new }
{
    let replies = reply(alloc, input, linker, waiting, number, said, tally)?;
    say(alloc, sink, replies.as_slice())
}

/// Answers what still waits at the end of the input, and says whether a reply is a refusal.
fn finish<O: Sink>(
    alloc: Global,
    input: Input,
    linker: &mut Linker,
    waiting: Vec<Detection>,
    sink: &mut O,
    tally: &mut Tally,
) -> Result<bool, Stop>
    requires few { length waiting.items < 2 ^ 32 }
    ensures ok { IfOk result (λ refused.
        Finished input (state_of linker.old.state waiting.items) (O.receipt sink.old)
        (O.receipt sink.new) refused) }
    ensures memory { result ≡ Err Stop.NoMemory → sink.new ≡ sink.old }
    ensures fault { result ≡ Err Stop.WriteFault →
        FailsToFinish input (state_of linker.old.state waiting.items) (O.receipt sink.old)
        (O.receipt sink.new) }
    ensures work { IsWorkAtEnd input (state_of linker.old.state waiting.items)
        tally.old tally.new }
{
    let replies = last_replies(alloc, input, linker, waiting, tally)?;
    say(alloc, sink, replies.as_slice())
}

/// The replies to the line of a number.
fn reply(
    alloc: Global,
    input: Input,
    linker: &mut Linker,
    waiting: &mut Vec<Detection>,
    number: u64,
    said: Said,
    tally: &mut Tally,
) -> Result<Vec<Reply>, NoMemory>
    requires few { length waiting.old.items < 2 ^ 32 }
    requires near { IsNearLine said }
    ensures replies { IfOk result (λ replies.
        RepliesIn input number (state_of linker.old.state waiting.old.items) said replies.items
        (state_of linker.new.state waiting.new.items)) }
    ensures work { IsWorkOfLine input (state_of linker.old.state waiting.old.items) said
        tally.old tally.new }
{
    match input {
        Input::Script => script_reply(alloc, linker, waiting, number, said, tally),
        Input::Plain => plain_reply(alloc, waiting, number, said),
    }
}

/// The replies at the end of the input.
fn last_replies(
    alloc: Global,
    input: Input,
    linker: &mut Linker,
    waiting: Vec<Detection>,
    tally: &mut Tally,
) -> Result<Vec<Reply>, NoMemory>
    requires few { length waiting.items < 2 ^ 32 }
    ensures replies { IfOk result (λ replies.
        EndsIn input (state_of linker.old.state waiting.items) replies.items linker.new.state) }
    ensures work { IsWorkAtEnd input (state_of linker.old.state waiting.items)
        tally.old tally.new }
{
    match input {
        Input::Script => deliver(alloc, linker, waiting, tally),
        Input::Plain => link_and_report(alloc, linker, waiting, tally),
    }
}

/// Writes the texts of some replies and flushes them, and says whether one is a refusal. Without a
/// reply no call is made on the sink.
fn say<O: Sink>(alloc: Global, sink: &mut O, replies: &[Reply]) -> Result<bool, Stop>
    ensures ok { IfOk result (λ refused.
        Says replies.now (O.receipt sink.old) (O.receipt sink.new) refused) }
    ensures memory { result ≡ Err Stop.NoMemory → sink.new ≡ sink.old }
    ensures fault { result ≡ Err Stop.WriteFault →
        FailsIn (O.receipt sink.old) (O.receipt sink.new) (text_of_all replies.now) }
{
    if replies.is_empty() {
        return Ok(false);
    }
    let text = write_replies(alloc, replies)?;
    put(sink, text.as_slice())?;
    Ok(has_refusal(replies))
}

/// The texts of some replies, one after another.
fn write_replies(alloc: Global, replies: &[Reply]) -> Result<Vec<u8>, NoMemory>
    ensures { IfOk result (λ text. text.items ≡ text_of_all replies.now) }
{
    let mut text = Vec::new(alloc);
    for reply in replies {
        append_reply(&mut text, reply)?;
    }
    Ok(text)
}

/// Whether some reply is a refusal.
fn has_refusal(replies: &[Reply]) -> bool
    ensures { result ≡ list_any is_refusal replies.now }
{
    replies.iter().any(|reply| reply.is_refusal())
}
