//! Sources in memory.
ghost use Rattle.std.specs.Prelude.{◌≡◌, ◌↔◌, ◌≤◌, ◌<◌, ◌+◌, ◌-◌, ◌++◌, min, false, IfOk, OnErr, IsErr, length, take, drop, replicate};
ghost use Rattle.std.specs.List.{Contains};
ghost use Rattle.outer_io.specs.Supply.{Gave, ReadFailed, risen};
ghost use Rattle.outer_io.specs.Kept.{sure_supply, mem_supply, endless_supply};

use crate::edge::{Failed, Source};
use std::marker::Model;

/// A source over bytes in memory that gives them in pieces, and whose calls fail where it is told so.
#[derive(Debug, Drop)]
pub struct MemSource {
    bytes: Vec<u8>,
    at: usize,
    ended: bool,
    faults: u64,
    piece: usize,
    fails: Vec<u64>,
    calls: u64,
}

impl Model for MemSource {
    ghost use Rattle.std.specs.Prelude.{◌≤◌, ◌<◌, length, drop};
    ghost use Rattle.outer_io.specs.Kept.{MemSupply};

    ghost Value = { MemSupply };

    ghost view = { λ s. record {
      left = drop s.at s.bytes.items;
      taken = s.at;
      ended = s.ended;
      faults = s.faults;
      piece = s.piece;
      fails = s.fails.items;
      calls = s.calls;
    } };

    ghost invariant = { λ s. (s.at ≤ length s.bytes.items) × (0 < s.piece) };
}

impl MemSource {
    /// A source of `bytes` that gives at most `piece` bytes in a call. A call whose number, from 0,
    /// stands in `fails` fails.
    pub fn new(bytes: Vec<u8>, piece: usize, fails: Vec<u64>) -> MemSource
        requires { 0 < piece }
        ensures { result ≡ record {
          left = bytes.items;
          taken = 0;
          ended = false;
          faults = 0;
          piece = piece;
          fails = fails.items;
          calls = 0;
        } }
    {
        MemSource {
            bytes,
            at: 0,
            ended: false,
            faults: 0,
            piece,
            fails,
            calls: 0,
        }
    }
}

impl Source for MemSource {
    ghost supply = { mem_supply };

    fn read(&mut self, buf: &mut [u8]) -> Result<usize, Failed>
        ensures gave { IfOk result (λ n.
            Gave (mem_supply self.old) (mem_supply self.new) buf.new n) }
        ensures failed { OnErr result (ReadFailed (mem_supply self.old) (mem_supply self.new)) }
        ensures count { IfOk result (λ n. n ≡
            min (min self.old.piece (length buf.new)) (length self.old.left)) }
        ensures fails { IsErr result ↔ Contains self.old.fails self.old.calls }
        ensures calls { self.new.calls ≡ risen self.old.calls 1 }
        ensures kept { (self.new.piece ≡ self.old.piece) × (self.new.fails ≡ self.old.fails) }
    {
        let number = self.calls;
        self.calls = number.saturating_add(1);
        if self.fails.contains(&number) {
            self.faults = self.faults.saturating_add(1);
            return Err(Failed);
        }
        let count = give(self.bytes.as_slice(), self.at, self.piece, buf);
        self.at += count;
        if count == 0 && !buf.is_empty() {
            self.ended = true;
        }
        Ok(count)
    }
}

/// A source over bytes in memory that never fails.
#[derive(Debug, Drop)]
pub struct SureSource {
    bytes: Vec<u8>,
    at: usize,
    ended: bool,
}

impl Model for SureSource {
    ghost use Rattle.std.specs.Prelude.{◌≤◌, length, drop};
    ghost use Rattle.outer_io.specs.Kept.{SureSupply};

    ghost Value = { SureSupply };

    ghost view = { λ s. record { left = drop s.at s.bytes.items; taken = s.at; ended = s.ended } };

    ghost invariant = { λ s. s.at ≤ length s.bytes.items };
}

impl SureSource {
    /// A source of `bytes`.
    pub fn new(bytes: Vec<u8>) -> SureSource
        ensures { result ≡ record { left = bytes.items; taken = 0; ended = false } }
    {
        SureSource {
            bytes,
            at: 0,
            ended: false,
        }
    }
}

impl Source for SureSource {
    ghost supply = { sure_supply };

    fn read(&mut self, buf: &mut [u8]) -> Result<usize, Failed>
        ensures gave { IfOk result (λ n.
            Gave (sure_supply self.old) (sure_supply self.new) buf.new n) }
        ensures failed { OnErr result (ReadFailed (sure_supply self.old) (sure_supply self.new)) }
        ensures whole { result ≡ Ok (min (length buf.new) (length self.old.left)) }
    {
        let count = give(self.bytes.as_slice(), self.at, usize::MAX, buf);
        self.at += count;
        if count == 0 && !buf.is_empty() {
            self.ended = true;
        }
        Ok(count)
    }
}

/// A source that gives one byte without end, and never fails. It doesn't tell its bytes.
#[derive(Debug, Drop)]
pub struct EndlessSource {
    byte: u8,
    taken: u64,
}

impl Model for EndlessSource {
    ghost use Rattle.outer_io.specs.Kept.{EndlessSupply};

    ghost Value = { EndlessSupply };

    ghost view = { λ s. record { byte = s.byte; taken = s.taken } };
}

impl EndlessSource {
    /// A source of `byte`.
    pub fn new(byte: u8) -> EndlessSource
        ensures { result ≡ record { byte = byte; taken = 0 } }
    {
        EndlessSource { byte, taken: 0 }
    }
}

impl Source for EndlessSource {
    ghost supply = { endless_supply };

    fn read(&mut self, buf: &mut [u8]) -> Result<usize, Failed>
        ensures gave { IfOk result (λ n.
            Gave (endless_supply self.old) (endless_supply self.new) buf.new n) }
        ensures failed { OnErr result
            (ReadFailed (endless_supply self.old) (endless_supply self.new)) }
        ensures whole { result ≡ Ok (length buf.old) }
        ensures byte { self.new.byte ≡ self.old.byte }
        ensures bytes { buf.new ≡ replicate (length buf.old) self.old.byte }
    {
        buf.fill(self.byte);
        self.taken = self.taken.saturating_add(buf.len() as u64);
        Ok(buf.len())
    }
}

/// Copies the bytes from `at` on into the front of `buf`, at most `piece` of them, and returns how many.
fn give(bytes: &[u8], at: usize, piece: usize, buf: &mut [u8]) -> usize
    requires { at ≤ length bytes.now }
    ensures count { result ≡ min (min piece (length buf.new)) (length bytes.now - at) }
    ensures within { at + result ≤ length bytes.now }
    ensures bytes { drop at bytes.now ≡ take result buf.new ++ drop (at + result) bytes.now }
{
    let count = piece.min(buf.len()).min(bytes.len() - at);
    buf[..count].copy_from_slice(&bytes[at..at + count]);
    count
}
