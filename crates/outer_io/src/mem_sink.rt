//! Sinks in memory.
ghost use Rattle.std.specs.Prelude.{◌≡◌, ◌↔◌, ◌≤◌, ◌<◌, ◌+◌, ◌-◌, ◌++◌, [], min, IfOk, OnOk, OnErr, IsErr, IsOk, length, take};
ghost use Rattle.std.specs.List.{Contains};
ghost use Rattle.outer_io.specs.Supply.{risen};
ghost use Rattle.outer_io.specs.Receipt.{Wrote, WriteFailed, Flushed, untold};
ghost use Rattle.outer_io.specs.Kept.{mem_receipt, FailsAt};

use crate::edge::{Failed, Sink};
use std::alloc::{AllocError, Global};
use std::marker::Model;

/// A sink that keeps what is written, takes it in pieces, and whose calls fail where it is told so.
#[derive(Debug, Drop)]
pub struct MemSink {
    kept: Vec<u8>,
    filled: usize,
    flushed: usize,
    faults: u64,
    piece: usize,
    fails: Vec<u64>,
    calls: u64,
}

impl Model for MemSink {
    ghost use Rattle.std.specs.Prelude.{◌≤◌, ◌<◌, length, take};
    ghost use Rattle.outer_io.specs.Kept.{MemReceipt};

    ghost Value = { MemReceipt };

    ghost view = { λ s. record {
      written = take s.filled s.kept.items;
      flushed = s.flushed;
      faults = s.faults;
      room = length s.kept.items;
      piece = s.piece;
      fails = s.fails.items;
      calls = s.calls;
    } };

    ghost invariant = { λ s. (s.filled ≤ length s.kept.items) × (s.flushed ≤ s.filled) ×
        (0 < s.piece) };
}

impl MemSink {
    /// A sink with room for `room` bytes that takes at most `piece` bytes in a write. Writes and
    /// flushes are numbered together, from 0, and a call whose number stands in `fails` fails.
    ///
    /// # Errors
    ///
    /// `AllocError` where there is no memory for the room.
    pub fn new(
        alloc: Global,
        room: usize,
        piece: usize,
        fails: Vec<u64>,
    ) -> Result<MemSink, AllocError>
        requires { 0 < piece }
        ensures { IfOk result (λ sink. sink ≡
            record {
              written = [];
              flushed = 0;
              faults = 0;
              room = room;
              piece = piece;
              fails = fails.items;
              calls = 0;
            }) }
    {
        let kept = vec![in alloc; 0; room]?;
        Ok(MemSink {
            kept,
            filled: 0,
            flushed: 0,
            faults: 0,
            piece,
            fails,
            calls: 0,
        })
    }

    /// The bytes written.
    pub fn bytes(&self) -> &[u8]
        ensures { result.now ≡ self.now.written }
    {
        &self.kept[..self.filled]
    }

    /// How many of the bytes written are flushed.
    pub fn flushed(&self) -> usize
        ensures { result ≡ self.now.flushed }
    {
        self.flushed
    }
}

impl Sink for MemSink {
    ghost receipt = { mem_receipt };

    fn write(&mut self, piece: &[u8]) -> Result<usize, Failed>
        ensures wrote { IfOk result (λ n.
            Wrote (mem_receipt self.old) (mem_receipt self.new) piece.now n) }
        ensures failed { OnErr result (WriteFailed (mem_receipt self.old) (mem_receipt self.new)) }
        ensures count { IfOk result (λ n. n ≡
            min (min self.old.piece (length piece.now)) (self.old.room - length self.old.written)) }
        ensures fails { IsErr result ↔ FailsAt self.old (length piece.now) }
        ensures calls { self.new ≡ record self.old {
          written = self.new.written;
          faults = self.new.faults;
          calls = risen self.old.calls 1;
        } }
    {
        let number = self.calls;
        self.calls = number.saturating_add(1);
        let room = self.kept.len() - self.filled;
        if self.fails.contains(&number) || (room == 0 && !piece.is_empty()) {
            self.faults = self.faults.saturating_add(1);
            return Err(Failed);
        }
        let count = self.piece.min(piece.len()).min(room);
        keep(self.kept.as_mut_slice(), self.filled, &piece[..count]);
        self.filled += count;
        Ok(count)
    }

    fn flush(&mut self) -> Result<(), Failed>
        ensures flushed { OnOk result (Flushed (mem_receipt self.old) (mem_receipt self.new)) }
        ensures failed { OnErr result (WriteFailed (mem_receipt self.old) (mem_receipt self.new)) }
        ensures fails { IsErr result ↔ Contains self.old.fails self.old.calls }
        ensures calls { self.new ≡ record self.old {
          flushed = self.new.flushed;
          faults = self.new.faults;
          calls = risen self.old.calls 1;
        } }
    {
        let number = self.calls;
        self.calls = number.saturating_add(1);
        if self.fails.contains(&number) {
            self.faults = self.faults.saturating_add(1);
            return Err(Failed);
        }
        self.flushed = self.filled;
        Ok(())
    }
}

/// A sink that drops what is written and never fails. It doesn't tell its bytes.
#[derive(Debug, Drop)]
pub struct SureSink(());

impl SureSink {
    /// A sink that keeps nothing.
    pub fn new() -> SureSink {
        SureSink(())
    }
}

impl Sink for SureSink {
    ghost receipt = { λ _. untold };

    fn write(&mut self, piece: &[u8]) -> Result<usize, Failed>
        ensures wrote { IfOk result (λ n. Wrote untold untold piece.now n) }
        ensures failed { OnErr result (WriteFailed untold untold) }
        ensures whole { result ≡ Ok (length piece.now) }
    {
        Ok(piece.len())
    }

    fn flush(&mut self) -> Result<(), Failed>
        ensures flushed { OnOk result (Flushed untold untold) }
        ensures failed { OnErr result (WriteFailed untold untold) }
        ensures sure { IsOk result }
    {
        Ok(())
    }
}

/// Writes `piece` into `kept` from `at` on.
fn keep(kept: &mut [u8], at: usize, piece: &[u8])
    requires { at + length piece.now ≤ length kept.old }
    ensures { take (at + length piece.now) kept.new ≡ take at kept.old ++ piece.now }
{
    kept[at..at + piece.len()].copy_from_slice(piece);
}
