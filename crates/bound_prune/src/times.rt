//! How long it may take from what lies in one box to what lies in a later one.

ghost use Rattle.std.specs.Prelude.{◌≡◌, pos, ◌-ℤ◌, ◌≤ℤ◌};
ghost use Rattle.sky_units.specs.Ranges.{IsBetween};
ghost use Rattle.bound_prune.specs.Bounds.{lasting as lasting_of, kept_within};
ghost use Rattle.bound_prune.specs.Times.{AreTimes};

use box_tree::Bounds;
use sky_units::ARC_TICKS;

/// The axis of time in a tracklet's box.
pub const EPOCH: usize = 2;

/// Times from what lies in one box to what lies in a later one, in ticks.
#[derive(Clone, Copy)]
pub struct Times {
    /// The fewest ticks between two first spots.
    pub shortest: i64,
    /// The most ticks between two first spots.
    pub longest: i64,
    /// The most ticks that two tracklets last together.
    pub lasting: i64,
}

/// The times from one box to a later one.
pub fn times_between(a: &Bounds, b: &Bounds) -> Times
    ensures { AreTimes a.now b.now result }
{
    let longest = kept_difference(a.low[EPOCH], b.high[EPOCH], ARC_TICKS - 1);
    Times {
        shortest: kept_difference(a.high[EPOCH], b.low[EPOCH], longest),
        longest,
        lasting: lasting(a) + lasting(b),
    }
}

/// The most ticks that a tracklet in a box may last.
fn lasting(a: &Bounds) -> i64
    ensures value { result ≡ lasting_of a.now }
    ensures range { IsBetween (pos 0) (pos 29999999) result }
{
    kept_difference(a.low[EPOCH], a.high[EPOCH], ARC_TICKS - 1)
}

/// The time from one epoch to another, or the end of the range from 0 to `most` that it lies beyond.
fn kept_difference(from: i64, to: i64, most: i64) -> i64
    requires { IsBetween (pos 0) (pos 29999999) most }
    ensures value { result ≡ kept_within (pos 0) most (to -ℤ from) }
    ensures range { IsBetween (pos 0) most result }
{
    if to <= from {
        return 0;
    }
    kept_apart(from, to, most)
}

/// How far one number lies above another one, or `most` where it is farther.
pub fn kept_apart(low: i64, high: i64, most: i64) -> i64
    requires order { low ≤ℤ high }
    requires most { IsBetween (pos 0) (pos 1000000000) most }
    ensures value { result ≡ kept_within (pos 0) most (high -ℤ low) }
    ensures range { IsBetween (pos 0) most result }
{
    // Unsigned, no two numbers are too far apart.
    if high.abs_diff(low) >= most as u64 {
        return most;
    }
    high - low
}

/// A time, or the end of the range from 0 to `most` that it lies beyond.
pub fn kept(time: i64, most: i64) -> i64
    requires { IsBetween (pos 0) (pos 29999999) most }
    ensures value { result ≡ kept_within (pos 0) most time }
    ensures range { IsBetween (pos 0) most result }
{
    time.clamp(0, most)
}
