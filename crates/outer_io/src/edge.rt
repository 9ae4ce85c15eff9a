//! What a source and a sink of bytes promise.
ghost use Rattle.std.specs.Prelude.{OnErr, IfOk, OnOk};
ghost use Rattle.outer_io.specs.Receipt.{Receipt, Wrote, WriteFailed, Flushed};
ghost use Rattle.outer_io.specs.Supply.{Supply, Gave, ReadFailed};

use thiserror::Error;

/// A call on a source or a sink failed. The fault is counted by the source or the sink itself.
#[derive(Clone, Copy, Debug, PartialEq, Eq, Error)]
#[error("a read or a write failed")]
pub struct Failed;

/// Where bytes come from.
///
/// A source is seen as the bytes that are left, which it tells or doesn't tell, the number of bytes
/// that were taken, whether its end is marked, and a count of faults that never falls. The two
/// counts stand still at `u64::MAX`.
pub trait Source {
    // What contracts see of the source.
    ghost supply: { Self → Supply };

    /// Moves the next bytes into the front of `buf`, and returns how many.
    ///
    /// It returns 0 for a buffer with room only at the end, which it marks.
    ///
    /// # Errors
    ///
    /// `Failed` takes nothing and counts a fault.
    fn read(&mut self, buf: &mut [u8]) -> Result<usize, Failed>
        ensures gave { IfOk result (λ n. Gave (supply self.old) (supply self.new) buf.new n) }
        ensures failed { OnErr result (ReadFailed (supply self.old) (supply self.new)) };
}

/// Where bytes go.
///
/// A sink is seen as the bytes written and how many of them are flushed, which it tells or doesn't
/// tell, and a count of faults that never falls and stands still at `u64::MAX`.
pub trait Sink {
    // What contracts see of the sink.
    ghost receipt: { Self → Receipt };

    /// Appends the first bytes of `piece`, and returns how many: at least one, unless it is empty.
    ///
    /// # Errors
    ///
    /// `Failed` writes nothing and counts a fault.
    fn write(&mut self, piece: &[u8]) -> Result<usize, Failed>
        ensures wrote { IfOk result (λ n. Wrote (receipt self.old) (receipt self.new) piece.now n) }
        ensures failed { OnErr result (WriteFailed (receipt self.old) (receipt self.new)) };

    /// Flushes all that was written.
    ///
    /// # Errors
    ///
    /// `Failed` leaves the bytes written as they were and counts a fault.
    fn flush(&mut self) -> Result<(), Failed>
        ensures flushed { OnOk result (Flushed (receipt self.old) (receipt self.new)) }
        ensures failed { OnErr result (WriteFailed (receipt self.old) (receipt self.new)) };
}
