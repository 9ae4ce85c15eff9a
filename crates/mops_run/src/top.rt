//! The top call, and how it ends.
ghost use Rattle.std.specs.Prelude.{◌≡◌, ◌≢◌, ◌↔◌, ◌⊎◌, None, IfSome};
ghost use Rattle.outer_io.specs.Receipt.{IsFlushed};
ghost use Rattle.mops_run.specs.Forms.{HasPlan, form_of as form_of_words};
ghost use Rattle.mops_run.specs.Part.{StopsReading};
ghost use Rattle.mops_run.specs.Promise.{EndsByReading, EndsUnread, IsDone, IsSpent, NoneFailed, SinkFaults, SourceFaults, Takes, refused_by};
ghost use Rattle.mops_run.specs.Runs.{IsReadable, ReadsInput, Runs, WritesPart, WritesTakenPart, WritesWhole};
ghost use Rattle.mops_run.specs.Work.{IsWorkOf};

use crate::forms::{Form, form_of};
use crate::generating::generate;
use crate::inputs::Input;
use crate::reading::read_all;
use crate::summing::summarize;
use outer_io::{Sink, Source};
use sky_units::{Tally, Word};
use std::alloc::Global;

/// How a run of the program ended. The number is the exit status.
#[derive(Clone, Copy, Debug, PartialEq, Eq)]
pub enum Status {
    /// All was read, answered and flushed, and nothing was refused.
    Done = 0,
    /// All was read, answered and flushed, and some line was refused.
    DoneWithRefusals = 1,
    /// The words are none of the program's forms. Nothing was read or written.
    Usage = 2,
    /// A read failed. The replies to the whole lines before it were written.
    ReadFault = 3,
    /// A write or a flush failed. A front of the replies was written.
    WriteFault = 4,
    /// Memory was wanting. A front of the replies was written.
    NoMemory = 5,
    /// The input has 2^32 bytes or more. The replies to the whole lines before these were written.
    InputTooLong = 6,
}

/// Runs the program on its words, which have one of four forms (the definition `form_of`): `watch`
/// answers each line of the source on the sink, `link` links the detections of its lines, `generate`
/// writes the lines of a made sky, and `summary` the statistics of one. A report lists the maximal
/// tracks of the held detections, each with the reported quadratic on each axis (the definitions
/// `IsReport` and `IsReported`).
pub fn run<I: Source, O: Sink>(
    alloc: Global,
    words: &[Word],
    source: &mut I,
    sink: &mut O,
    tally: &mut Tally,
) -> Status
    // Other words are turned away, and nothing is touched.
    ensures usage { (result ≡ Status.Usage) ↔ (form_of_words words.now ≡ None) }
    ensures untouched { result ≡ Status.Usage →
        (source.new ≡ source.old) × (sink.new ≡ sink.old) × (tally.new ≡ tally.old) }

    // The headline promise, where the source tells its bytes: a run that is done has written the
    // replies that the definitions give, and every run has written a front of them. So has a run
    // that makes a sky, whatever its source.
    ensures whole { IfSome (form_of_words words.now) (λ form. IfSome (refused_by result)
        (WritesWhole form (I.supply source.old).left (O.receipt sink.old) (O.receipt sink.new))) }
    ensures front { IfSome (form_of_words words.now) (λ form.
        WritesPart form (I.supply source.old).left (O.receipt sink.old) (O.receipt sink.new)) }

    // Where a read failed, or the input is too long, exactly the replies to the lines of the bytes
    // taken were written, as far as a line feed ends these lines.
    ensures part { StopsReading result → IfSome (form_of_words words.now) (λ form.
        WritesTakenPart form result (I.supply source.old) (I.supply source.new)
        (O.receipt sink.old) (O.receipt sink.new)) }

    // A run that is done has read all there is; all that was written is flushed, unless a write
    // failed or memory was wanting.
    ensures spent { IfSome (form_of_words words.now) (λ form. IfSome (refused_by result)
        (λ refused. ReadsInput form → IsSpent (I.supply source.new))) }
    ensures flushed { EndsByReading result →
        (O.receipt sink.new ≡ O.receipt sink.old) ⊎ IsFlushed (O.receipt sink.new) }

    // The cause of each fault.
    ensures source_faults { SourceFaults result (I.supply source.old).faults
        (I.supply source.new).faults }
    ensures sink_faults { SinkFaults result (O.receipt sink.old).faults
        (O.receipt sink.new).faults }
    ensures taken { result ≢ Status.Usage →
        Takes result (I.supply source.old) (I.supply source.new) }

    // The tally rises by no more than the work of the exposures that are added, where the source
    // tells its bytes, or a sky is made.
    ensures work { IfSome (form_of_words words.now) (λ form.
        IsWorkOf form (I.supply source.old).left tally.old tally.new) }

    // A run that makes a sky reads nothing, and refuses nothing.
    ensures unread { IfSome (form_of_words words.now) (λ form. (ReadsInput form → ⊥) →
        (source.new ≡ source.old) × EndsUnread result) }

    // An input that is told and short is answered whole, unless a call failed or memory was wanting.
    // So is a made sky.
    ensures completes { IfSome (form_of_words words.now) (λ form.
        IsReadable form (I.supply source.old) (I.supply source.new)
        → NoneFailed (O.receipt sink.old).faults (O.receipt sink.new).faults
        → result ≢ Status.NoMemory → IsDone result) }
{
    let Some(form) = form_of(words) else {
        return Status::Usage;
    };
    run_form(alloc, form, source, sink, tally)
}

/// Runs a form.
fn run_form<I: Source, O: Sink>(
    alloc: Global,
    form: Form,
    source: &mut I,
    sink: &mut O,
    tally: &mut Tally,
) -> Status
    requires { HasPlan form }
    ensures runs { Runs form result (I.supply source.old) (I.supply source.new)
        (O.receipt sink.old) (O.receipt sink.new) }
    ensures unread { (ReadsInput form → ⊥) → (source.new ≡ source.old) × EndsUnread result }
    ensures work { IsWorkOf form (I.supply source.old).left tally.old tally.new }
{
    match form {
        Form::Watch => read_all(alloc, Input::Script, source, sink, tally),
        Form::Link => read_all(alloc, Input::Plain, source, sink, tally),
        Form::Generate(plan) => generate(alloc, plan, sink),
        Form::Summary(plan) => summarize(alloc, plan, sink, tally),
    }
}
