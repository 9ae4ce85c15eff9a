//! The reader that cuts the bytes of a source into lines.
ghost use Rattle.std.specs.Prelude.{◌≡◌, ◌≢◌, ◌↔◌, ◌≤◌, ◌<◌, ◌+◌, ◌-◌, ◌^◌, ◌==◌, min, max, IfOk, OnOk, OnErr, IsErr, length, take, drop, Some, None, true, false, MatchOption, slice_index, slice_range, IfSome, IsSomeAnd, ℕ, [], ◌∷◌};
ghost use Rattle.std.specs.List.{Contains};
ghost use Rattle.std.specs.Str.Lines.{strip_carriage_return};
ghost use Rattle.outer_io.specs.Reached.{ReachedFrom, Took};
ghost use Rattle.outer_io.specs.Advance.{Advances};
ghost use Rattle.outer_io.specs.Reading.{fresh, ahead, used, HandsOut, SawNoLine, FaultsAfter, CountsOn, Ends};
ghost use Rattle.outer_io.specs.Seen.{NoFeed, FeedAt};
ghost use Rattle.outer_io.specs.Supply.{ReadFailed};

use crate::edge::{Failed, Source};
use memchr::memchr;
use std::alloc::{AllocError, Global};
use std::marker::Model;
use thiserror::Error;

/// The most bytes that a reader hands out of a line's content: one more than a line may have.
const CONTENT_LEN: usize = 1025;

/// How many bytes of a line that has begun are kept: a content and its carriage return.
const BEGUN_LEN: usize = 1026;

/// How many bytes a read asks for.
const READ_LEN: usize = 65_536;

/// How many bytes an input may have.
const INPUT_LEN: u64 = 0xFFFF_FFFF;

/// What a call of [`LineReader::next`] came to.
#[derive(Clone, Copy, Debug, PartialEq, Eq)]
pub enum Got {
    /// A line, which [`LineReader::line`] lends.
    Line,
    /// The end: every line was handed out.
    End,
}

/// Why a reader stopped before the end.
#[derive(Clone, Copy, Debug, PartialEq, Eq, Error)]
pub enum ReadStop {
    /// A read of the source failed.
    #[error("a read failed")]
    Failed,
    /// The source gave a byte after 2^32 - 1 bytes.
    #[error("the input is too long")]
    TooLong,
}

/// Cuts the bytes of a source into lines, and hands out their contents one after another.
///
/// A content is a line's bytes without its line feed and without one carriage return just before
/// it. A last line that no line feed ends keeps its carriage return.
#[derive(Debug, Drop)]
pub struct LineReader {
    buffer: Vec<u8>,
    // What is held back lies from `start` to `end`.
    start: usize,
    end: usize,
    // The last line's content lies from `line_start` to `line_end`.
    line_start: usize,
    line_end: usize,
    took: u64,
    ended: bool,
    stopped: bool,
}

impl Model for LineReader {
    ghost use Rattle.std.specs.Prelude.{◌≡◌, ◌+◌, ◌-◌, ◌≤◌, ◌<◌, length, true, false, slice_range};
    ghost use Rattle.outer_io.specs.Reading.{Reading};
    ghost use Rattle.outer_io.specs.Sound.{IsSound};

    ghost Value = { Reading };

    ghost view = { λ r. record {
      held = slice_range r.buffer.items r.start r.end;
      took = r.took;
      ended = r.ended;
      stopped = r.stopped;
      line = slice_range r.buffer.items r.line_start r.line_end;
    } };

    ghost invariant = { λ r. IsSound
        (length r.buffer.items) r.start r.end r.line_start r.line_end r.took r.ended r.stopped };
}

/// How a search for a line feed in the source came out. The line that had begun lies at the front
/// of the buffer.
enum Reached {
    /// A line feed at `feed`, and the bytes up to `end` are held.
    Feed { feed: usize, end: usize },
    /// The end, with a begun line of `begun` bytes.
    End { begun: usize },
    Failed,
    TooLong,
}

impl LineReader {
    /// A reader that holds nothing back and has taken no byte. It takes all its memory here.
    ///
    /// # Errors
    ///
    /// `AllocError` where there is no memory for its buffer, of some 67 kB.
    pub fn new(alloc: Global) -> Result<LineReader, AllocError>
        ensures { IfOk result (λ reader. reader ≡ fresh) }
    {
        let buffer = vec![in alloc; 0; BEGUN_LEN + READ_LEN]?;
        Ok(LineReader {
            buffer,
            start: 0,
            end: 0,
            line_start: 0,
            line_end: 0,
            took: 0,
            ended: false,
            stopped: false,
        })
    }

    /// The content of the last line, cut after 1,025 bytes. It is empty before the first line and
    /// once the reader has stopped.
    pub fn line(&self) -> &[u8]
        ensures { result.now ≡ self.now.line }
    {
        &self.buffer[self.line_start..self.line_end]
    }

    /// Goes on to the next line. It reads from `source` only where no whole line is held back.
    ///
    /// # Errors
    ///
    /// `Failed` where a read fails, and `TooLong` where a byte comes after 2^32 - 1 bytes. After
    /// either, and after `End`, the reader has stopped.
    pub fn next<S: Source>(&mut self, source: &mut S) -> Result<Got, ReadStop>
        requires unstopped { self.old.stopped ≡ false }

        // Where the source tells its bytes: the lines come one after another, and none is left at the end.
        ensures line { result ≡ Ok Got.Line → IfSome (ahead self.old (S.supply source.old))
            (λ bytes. IsSomeAnd (ahead self.new (S.supply source.new))
            (λ rest. HandsOut bytes self.new.line rest self.new.ended)) }
        ensures end { result ≡ Ok Got.End →
            IfSome (ahead self.old (S.supply source.old)) (λ bytes. bytes ≡ []) }
        ensures failed { result ≡ Err ReadStop.Failed →
            SawNoLine self.old self.new (S.supply source.old) (S.supply source.new) [] }
        ensures too_long { result ≡ Err ReadStop.TooLong → (extra : ℕ)
            × SawNoLine self.old self.new (S.supply source.old) (S.supply source.new) (extra ∷ []) }

        // At any source.
        ensures faults { FaultsAfter result (S.supply source.old).faults
            (S.supply source.new).faults }
        ensures counts { CountsOn self.old self.new (S.supply source.old) (S.supply source.new) }
        ensures limit { (result ≡ Err ReadStop.TooLong) ↔ (self.new.took ≡ 2 ^ 32) }
        ensures progress { result ≡ Ok Got.Line → used self.old < used self.new }
        ensures ends { Ends self.old self.new (S.supply source.old) (S.supply source.new) }
        ensures answered { result ≡ Ok Got.End → self.new.ended ≡ true }
        ensures stopped { (self.new.stopped ≡ false) ↔ (result ≡ Ok Got.Line) }
        ensures empty { self.new.stopped ≡ true → (self.new.held ≡ []) × (self.new.line ≡ []) }

        // Nothing is read where a whole line is held back, or a read answered the end.
        ensures waiting { Contains self.old.held 10 →
            (result ≡ Ok Got.Line) × (source.new ≡ source.old) }
        ensures over { self.old.ended ≡ true → (result ≡ Ok Got.End) × (source.new ≡ source.old) }
    {
        self.advance(source)
    }

    /// The same, by what the reader comes to.
    fn advance<S: Source>(&mut self, source: &mut S) -> Result<Got, ReadStop>
        requires unstopped { self.old.stopped ≡ false }
        ensures advances { Advances self.old self.new (S.supply source.old)
            (S.supply source.new) result }
        ensures waiting { Contains self.old.held 10 →
            (result ≡ Ok Got.Line) × (source.new ≡ source.old) }
        ensures over { self.old.ended ≡ true → source.new ≡ source.old }
    {
        match find_feed(self.buffer.as_slice(), self.start, self.end) {
            Some(feed) => {
                self.line_start = self.start;
                self.line_end = content_end(self.buffer.as_slice(), self.start, feed);
                self.start = feed + 1;
                Ok(Got::Line)
            }
            None => self.read_on(source),
        }
    }

    /// Reads up to the next line feed, where what is held back has none.
    fn read_on<S: Source>(&mut self, source: &mut S) -> Result<Got, ReadStop>
        requires unstopped { self.old.stopped ≡ false }
        requires none { NoFeed self.old.held }
        ensures advances { Advances self.old self.new (S.supply source.old)
            (S.supply source.new) result }
        ensures over { self.old.ended ≡ true → source.new ≡ source.old }
    {
        self.line_start = 0;
        self.line_end = 0;
        if self.ended {
            self.stopped = true;
            return Ok(Got::End);
        }
        let (start, end) = (self.start, self.end);
        self.start = 0;
        self.end = 0;
        match read_behind(
            self.buffer.as_mut_slice(),
            start,
            end,
            &mut self.took,
            source,
        ) {
            Reached::Feed { feed, end } => {
                self.line_end = content_end(self.buffer.as_slice(), 0, feed);
                self.start = feed + 1;
                self.end = end;
                Ok(Got::Line)
            }
            Reached::End { begun } => {
                self.ended = true;
                if begun == 0 {
                    self.stopped = true;
                    return Ok(Got::End);
                }
                self.line_end = begun.min(CONTENT_LEN);
                Ok(Got::Line)
            }
            Reached::Failed => {
                self.stopped = true;
                Err(ReadStop::Failed)
            }
            Reached::TooLong => {
                self.stopped = true;
                Err(ReadStop::TooLong)
            }
        }
    }
}

#[cfg(test)]
impl LineReader {
    /// A reader that took `took` bytes and holds none of them back.
    pub(crate) fn after(alloc: Global, took: u64) -> Result<LineReader, AllocError>
        requires { took < 2 ^ 32 }
        ensures { IfOk result (λ reader. reader.stopped ≡ false) }
    {
        let mut reader = LineReader::new(alloc)?;
        reader.took = took;
        Ok(reader)
    }
}

/// The place of the first line feed from `start` up to `end`.
fn find_feed(buffer: &[u8], start: usize, end: usize) -> Option<usize>
    requires order { start ≤ end }
    requires within { end ≤ length buffer.now }
    ensures { MatchOption result (NoFeed (slice_range buffer.now start end))
        (FeedAt buffer.now start end) }
{
    memchr(b'\n', &buffer[start..end]).map(|at| start + at)
}

/// Where the content ends of a line that lies from `start` up to its line feed at `feed`.
fn content_end(buffer: &[u8], start: usize, feed: usize) -> usize
    requires order { start ≤ feed }
    requires within { feed < length buffer.now }
    ensures order { start ≤ result }
    ensures within { result ≤ feed }
    ensures content { slice_range buffer.now start result ≡
        take 1025 (strip_carriage_return (slice_range buffer.now start feed)) }
{
    stripped_end(buffer, start, feed).min(start + CONTENT_LEN)
}

/// Where a line ends without the carriage return before its line feed, if it has one.
fn stripped_end(buffer: &[u8], start: usize, feed: usize) -> usize
    requires order { start ≤ feed }
    requires within { feed < length buffer.now }
    ensures order { start ≤ result }
    ensures within { result ≤ feed }
    ensures content { slice_range buffer.now start result ≡
        strip_carriage_return (slice_range buffer.now start feed) }
{
    if start < feed && buffer[feed - 1] == b'\r' {
        return feed - 1;
    }
    feed
}

/// Moves the line that has begun, from `start` to `end`, to the front of the buffer, and reads until
/// a line feed comes. `took` counts the bytes.
fn read_behind<S: Source>(
    buffer: &mut [u8],
    start: usize,
    end: usize,
    took: &mut u64,
    source: &mut S,
) -> Reached
    requires room { length buffer.old ≡ 66562 }
    requires order { start ≤ end }
    requires within { end ≤ length buffer.old }
    requires limit { took.old < 2 ^ 32 }
    ensures { ReachedFrom (slice_range buffer.old start end) buffer.new took.old took.new
        (S.supply source.old) (S.supply source.new) result }
{
    let begun = keep_begun(buffer, start, end);
    read_to_feed(buffer, begun, took, source)
}

/// Moves the line that has begun, from `start` to `end`, to the front of the buffer, and returns how
/// many of its bytes are kept.
fn keep_begun(buffer: &mut [u8], start: usize, end: usize) -> usize
    requires order { start ≤ end }
    requires within { end ≤ length buffer.old }
    ensures count { result ≡ min (end - start) 1026 }
    ensures front { take result buffer.new ≡ take 1026 (slice_range buffer.old start end) }
{
    let count = (end - start).min(BEGUN_LEN);
    buffer.copy_within(start..start + count, 0);
    count
}

/// Reads until a line feed comes. The begun line lies in the first `begun` bytes of the buffer, and
/// `took` counts the bytes.
fn read_to_feed<S: Source>(
    buffer: &mut [u8],
    begun: usize,
    took: &mut u64,
    source: &mut S,
) -> Reached
    requires room { length buffer.old ≡ 66562 }
    requires begun { begun ≤ 1026 }
    requires limit { took.old < 2 ^ 32 }
    ensures { ReachedFrom (take begun buffer.old) buffer.new took.old took.new
        (S.supply source.old) (S.supply source.new) result }
{
    let mut kept = begun;
    loop {
        let asked = ask_for(*took);
        match read_into(buffer, kept, asked, source) {
            Err(Failed) => return Reached::Failed,
            Ok(0) => return Reached::End { begun: kept },
            Ok(count) => {
                let full = *took == INPUT_LEN;
                *took += count as u64;
                if full {
                    return Reached::TooLong;
                }
                let end = kept + count;
                if let Some(feed) = find_feed(buffer, kept, end) {
                    return Reached::Feed { feed, end };
                }
                kept = end.min(BEGUN_LEN);
            }
        }
    }
}

/// Reads up to `asked` bytes into the buffer, from `kept` on.
fn read_into<S: Source>(
    buffer: &mut [u8],
    kept: usize,
    asked: usize,
    source: &mut S,
) -> Result<usize, Failed>
    requires room { kept + asked ≤ length buffer.old }
    requires some { 0 < asked }
    ensures front { take kept buffer.new ≡ take kept buffer.old }
    ensures within { IfOk result (λ count. count ≤ asked) }
    ensures took { IfOk result (λ count. Took (S.supply source.old) (S.supply source.new)
        (slice_range buffer.new kept (kept + count)) (count == 0)) }
    ensures faults { OnOk result ((S.supply source.new).faults ≡ (S.supply source.old).faults) }
    ensures failed { OnErr result (ReadFailed (S.supply source.old) (S.supply source.new)) }
{
    source.read(&mut buffer[kept..kept + asked])
}

/// How many bytes a read asks for after `took` bytes: those that are left of an input of the
/// greatest length, and one more once there are none, so that a longer input is seen.
fn ask_for(took: u64) -> usize
    ensures exact { result ≡ max 1 (min (2 ^ 32 - 1 - took) 65536) }
{
    (INPUT_LEN.saturating_sub(took)).clamp(1, READ_LEN as u64) as usize
}
