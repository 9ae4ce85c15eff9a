//! Sources and sinks over std's readers and writers: standard input and output, files, buffers.
ghost use Rattle.std.specs.Prelude.{◌≡◌, ◌≤◌, ◌-◌, length, IfOk, OnErr, OnOk, Some, None};
ghost use Rattle.outer_io.specs.Receipt.{Wrote, WriteFailed, Flushed, flushed_of};
ghost use Rattle.outer_io.specs.Supply.{Gave, ReadFailed, untouched};

use crate::edge::{Failed, Sink, Source};
use std::io::{Read, Write};
use std::marker::Model;

/// A source over a reader of std. Each error of the reader, an interrupted call among them, is a fault.
#[derive(Drop)]
pub struct StdSource<R: Read> {
    reader: R,
    taken: u64,
    ended: bool,
    faults: u64,
}

impl<R: Read> Model for StdSource<R> {
    ghost use Rattle.outer_io.specs.Supply.{Supply};

    ghost Value = { Supply };

    ghost view = { λ s. record {
      left = R.remaining s.reader;
      taken = s.taken;
      ended = s.ended;
      faults = s.faults;
    } };
}

impl<R: Read> StdSource<R> {
    /// A source of the bytes that are left in `reader`.
    pub fn new(reader: R) -> StdSource<R>
        ensures { result ≡ untouched (R.remaining reader) }
    {
        StdSource {
            reader,
            taken: 0,
            ended: false,
            faults: 0,
        }
    }
}

impl<R: Read> Source for StdSource<R> {
    ghost supply = { λ s. s };

    fn read(&mut self, buf: &mut [u8]) -> Result<usize, Failed> {
        match self.reader.read(buf) {
            Ok(count) => {
                self.taken = self.taken.saturating_add(count as u64);
                if count == 0 && !buf.is_empty() {
                    self.ended = true;
                }
                Ok(count)
            }
            Err(_) => {
                self.faults = self.faults.saturating_add(1);
                Err(Failed)
            }
        }
    }
}

/// A sink over a writer of std. Each error of the writer is a fault, and so is a write that takes
/// nothing of a piece.
#[derive(Drop)]
pub struct StdSink<W: Write> {
    writer: W,
    // How many bytes were written since the last flush.
    unflushed: u64,
    faults: u64,
}

impl<W: Write> StdSink<W> {
    /// A sink into `writer`. What the writer holds already counts as flushed.
    pub fn new(writer: W) -> StdSink<W>
        ensures { result ≡ record {
          written = W.contents writer;
          flushed = flushed_of (W.contents writer) 0;
          faults = 0;
        } }
    {
        StdSink {
            writer,
            unflushed: 0,
            faults: 0,
        }
    }
}

impl<W: Write> Model for StdSink<W> {
    ghost use Rattle.outer_io.specs.Receipt.{Receipt, flushed_of};

    ghost Value = { Receipt };

    ghost view = { λ s. record {
      written = W.contents s.writer;
      flushed = flushed_of (W.contents s.writer) s.unflushed;
      faults = s.faults;
    } };
}

impl<W: Write> Sink for StdSink<W> {
    ghost receipt = { λ s. s };

    fn write(&mut self, piece: &[u8]) -> Result<usize, Failed> {
        match self.writer.write(piece) {
            Ok(count) if count > 0 || piece.is_empty() => {
                self.unflushed = self.unflushed.saturating_add(count as u64);
                Ok(count)
            }
            _ => {
                self.faults = self.faults.saturating_add(1);
                Err(Failed)
            }
        }
    }

    fn flush(&mut self) -> Result<(), Failed> {
        match self.writer.flush() {
            Ok(()) => {
                self.unflushed = 0;
                Ok(())
            }
            Err(_) => {
                self.faults = self.faults.saturating_add(1);
                Err(Failed)
            }
        }
    }
}
