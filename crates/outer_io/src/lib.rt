//! The edge of the program: where bytes come from and where they go, and the reader that cuts what
//! comes into lines.
//!
//! A [`Source`] and a [`Sink`] count their faults, so a caller can tell a fault from a refusal.
//! [`MemSource`], [`SureSource`], [`EndlessSource`], [`MemSink`] and [`SureSink`] live in memory;
//! [`StdSource`] and [`StdSink`] stand over std's `Read` and `Write`. [`LineReader`] hands out the
//! lines of a source one after another, however the source cuts its bytes.
#![tactic(auto)]

mod edge;
mod line_reader;
mod mem_sink;
mod mem_source;
mod standard;
#[cfg(test)]
mod tests;

pub use edge::{Failed, Sink, Source};
pub use line_reader::{Got, LineReader, ReadStop};
pub use mem_sink::{MemSink, SureSink};
pub use mem_source::{EndlessSource, MemSource, SureSource};
pub use standard::{StdSink, StdSource};
