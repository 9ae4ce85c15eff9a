//! Writing to a sink.
ghost use Rattle.std.specs.Prelude.{OnOk, OnErr};
ghost use Rattle.mops_run.specs.Output.{WritesText, FailsIn};

use outer_io::{Failed, Sink};
use std::alloc::AllocError;

/// Why a run stopped before it had written all.
#[derive(Clone, Copy, Debug, PartialEq, Eq)]
pub enum Stop {
    /// A write or a flush failed.
    WriteFault,
    /// Memory was wanting.
    NoMemory,
}

impl From<AllocError> for Stop {
    ghost use Rattle.std.specs.Prelude.{◌≡◌};
    ghost use Rattle.mops_run.specs.declared.output.Stop.TheVariants.{NoMemory};

    ghost from_gives = { λ _ e. e ≡ NoMemory };

    fn from(_error: AllocError) -> Stop {
        Stop::NoMemory
    }
}

impl From<Failed> for Stop {
    ghost use Rattle.std.specs.Prelude.{◌≡◌};
    ghost use Rattle.mops_run.specs.declared.output.Stop.TheVariants.{WriteFault};

    ghost from_gives = { λ _ e. e ≡ WriteFault };

    fn from(_error: Failed) -> Stop {
        Stop::WriteFault
    }
}

/// Writes a whole text and flushes it.
pub fn put<O: Sink>(sink: &mut O, text: &[u8]) -> Result<(), Failed>
    ensures ok { OnOk result (WritesText (O.receipt sink.old) (O.receipt sink.new) text.now) }
    ensures err { OnErr result (FailsIn (O.receipt sink.old) (O.receipt sink.new) text.now) }
{
    let mut rest = text;
    while !rest.is_empty() {
        let count = sink.write(rest)?;
        rest = &rest[count..];
    }
    sink.flush()
}
