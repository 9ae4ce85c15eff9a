//! Slopes on one axis, and those that two lists of bounds have in common.

ghost use Rattle.std.specs.Prelude.{◌≡◌, true, ℤ, pos, neg_ℤ, ◌-ℤ◌, ◌≤ℤ◌, ◌<ℤ◌, ◌↔◌};
ghost use Rattle.sky_units.specs.Ranges.{IsBetween};
ghost use Rattle.line_fit.specs.Lines.{per_tick, least_slope, greatest_slope};
ghost use Rattle.line_fit.specs.Quotients.{IsAtMost, IsAtLeast};
ghost use Rattle.line_fit.specs.Slopes.{Holds, IsFilled, IsNarrowed};

use crate::quotients::Slope;
use sky_units::{Axis, Spot, offset};
/// The slopes from `low` to `high`, both among them.
#[derive(Clone, Copy)]
pub struct Slopes {
    pub low: Slope,
    pub high: Slope,
}

impl Slopes {
    /// Whether a slope is among these.
    pub fn hold(&self, slope: &Slope) -> bool
        ensures { result ≡ true → Holds self.now slope.now.num slope.now.den }
    {
        self.low.is_at_most(slope) && slope.is_at_most(&self.high)
    }
}

/// The ticks of a day, over which rates are counted.
const TICKS_PER_DAY: i64 = 1_000_000;

/// The slopes of a rate of at most `rate` per day.
pub fn of_rate(rate: i64) -> Slopes
    requires { IsBetween (pos 0) (pos 10000000) rate }
    ensures filled { IsFilled result }
    ensures low { result.low ≡ per_tick (neg_ℤ rate) }
    ensures high { result.high ≡ per_tick rate }
{
    Slopes {
        low: Slope {
            num: -rate,
            den: TICKS_PER_DAY,
        },
        high: Slope {
            num: rate,
            den: TICKS_PER_DAY,
        },
    }
}

/// The slopes of the lines within `tol` of two spots of one day.
pub fn of_two(axis: Axis, from: &Spot, to: &Spot, tol: i64) -> Slopes
    requires tol { IsBetween (pos 0) (pos 100000) tol }
    requires later { from.now.epoch <ℤ to.now.epoch }
    requires day { (to.now.epoch -ℤ from.now.epoch) ≤ℤ pos 1000000 }
    ensures filled { IsFilled result }
    ensures low { result.low ≡ least_slope axis tol (from.now, to.now) }
    ensures high { result.high ≡ greatest_slope axis tol (from.now, to.now) }
{
    let moved = offset(axis, from, to);
    let den = to.epoch - from.epoch;
    Slopes {
        low: Slope {
            num: moved - (tol + tol),
            den,
        },
        high: Slope {
            num: moved + (tol + tol),
            den,
        },
    }
}

/// The greater of two slopes.
fn greater(a: Slope, b: Slope) -> Slope
    ensures positive { pos 0 <ℤ result.den }
    ensures bounds { (n d : ℤ) → pos 0 <ℤ d →
        IsAtMost result n d ↔ (IsAtMost a n d × IsAtMost b n d) }
{
    let _ = &a.den;
    let _ = &b.den;
    if a.is_at_most(&b) { b } else { a }
}

/// The lesser of two slopes.
fn lesser(a: Slope, b: Slope) -> Slope
    ensures positive { pos 0 <ℤ result.den }
    ensures bounds { (n d : ℤ) → pos 0 <ℤ d →
        IsAtLeast result n d ↔ (IsAtLeast a n d × IsAtLeast b n d) }
{
    let _ = &a.den;
    let _ = &b.den;
    if a.is_at_most(&b) { a } else { b }
}

/// What is left of some slopes where they must be among others too, or None where that is nothing.
pub fn meet(one: Slopes, other: Slopes) -> Option<Slopes>
    ensures { IsNarrowed one (Holds other) result }
{
    let low = greater(one.low, other.low);
    let high = lesser(one.high, other.high);
    if low.is_at_most(&high) {
        Some(Slopes { low, high })
    } else {
        None
    }
}
