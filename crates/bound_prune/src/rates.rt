//! The rates that the tolerances of a tracklet leave, and whether rates agree.

ghost use Rattle.std.specs.Prelude.{◌≡◌, ◌<◌, ◌↔◌, pos, negsuc, ◌-ℤ◌, ◌*ℤ◌, ◌≤ℤ◌, ◌<ℤ◌, IsTrue};
ghost use Rattle.sky_units.specs.Motion.{acceleration as acceleration_on};
ghost use Rattle.sky_units.specs.Ranges.{IsBetween};
ghost use Rattle.bound_prune.specs.BoxEnds.{AreRates, DifferLittle, rates_in};
ghost use Rattle.bound_prune.specs.Boxes.{floor_of, ceiling_of};
ghost use Rattle.bound_prune.specs.EndsData.{AreUsual, IsUsualRate};
ghost use Rattle.bound_prune.specs.Bounds.{RatesAgree, longest as longest_of, rate_axis as rate_axis_of};

use box_tree::Bounds;
use sky_units::{Axis, Settings, Spot, offset};

/// The ticks of a day, over which rates are counted.
const TICKS_PER_DAY: i64 = 1_000_000;

/// No mean rate of a tracklet is greater, in 10^-6 degree per day.
const MOST_RATE: i64 = 1_000_000_000_000_000;

/// No two rates that agree differ by so much, in 10^-6 degree per day.
const FAR_APART: i64 = 100_000_000;

/// The least and the greatest rate, in 10^-6 degree per day.
#[derive(Clone, Copy)]
pub struct Rates {
    /// The least rate.
    pub least: i64,
    /// The greatest rate.
    pub greatest: i64,
}

/// The mean rates on an axis of what is within the tolerance of two spots, rounded outward.
pub fn rates_of(axis: Axis, tol: i64, first: &Spot, last: &Spot) -> Rates
    requires tol { IsBetween (pos 0) (pos 100000) tol }
    requires later { first.now.epoch <ℤ last.now.epoch }
    ensures are { AreRates axis tol first.now last.now result }
    ensures usual { AreUsual result }
{
    let ticks = last.epoch - first.epoch;
    let moved = offset(axis, first, last);
    Rates {
        least: rounded_down((moved - (tol + tol)) * TICKS_PER_DAY, ticks),
        greatest: rounded_up((moved + (tol + tol)) * TICKS_PER_DAY, ticks),
    }
}

/// A quotient, rounded down.
fn rounded_down(above: i64, below: i64) -> i64
    requires below { pos 0 <ℤ below }
    ensures { result ≡ floor_of above below }
{
    above.div_euclid(below)
}

/// A quotient, rounded up.
fn rounded_up(above: i64, below: i64) -> i64
    requires above { IsBetween (negsuc 999999999999999) (pos 1000000000000000) above }
    requires below { pos 0 <ℤ below }
    ensures { result ≡ ceiling_of above below }
{
    -(-above).div_euclid(below)
}

/// The axis of a tracklet's box that holds its rate on an axis of the sky.
pub fn rate_axis(axis: Axis) -> usize
    ensures value { result ≡ rate_axis_of axis }
    ensures range { result < 8 }
{
    match axis {
        Axis::Ra => 3,
        Axis::Dec => 4,
    }
}

/// The greatest acceleration on an axis, in 10^-6 degree per day squared.
pub fn acceleration(axis: Axis, settings: &Settings) -> i64
    ensures value { result ≡ acceleration_on axis settings.now }
    ensures range { IsBetween (pos 0) (pos 1000000) result }
{
    match axis {
        Axis::Ra => settings.acc_ra,
        Axis::Dec => settings.acc_dec,
    }
}

/// Whether the rates of two boxes differ by no more than the acceleration allows over the longest time between them.
pub fn rates_agree(axis: Axis, settings: &Settings, a: &Bounds, b: &Bounds, longest: i64) -> bool
    requires value { longest ≡ longest_of a.now b.now }
    requires range { IsBetween (pos 0) (pos 29999999) longest }
    ensures { IsTrue result ↔ RatesAgree axis settings.now a.now b.now }
{
    differ_little(
        axis,
        settings,
        rates_on(axis, a),
        rates_on(axis, b),
        longest,
    )
}

/// The rates of a box on an axis of the sky.
pub fn rates_on(axis: Axis, a: &Bounds) -> Rates
    ensures { result ≡ rates_in axis a.now }
{
    let rate = rate_axis(axis);
    Rates {
        least: a.low[rate],
        greatest: a.high[rate],
    }
}

/// Whether no rate is greater than a tracklet's may be.
pub fn are_usual(rates: Rates) -> bool
    ensures { IsTrue result ↔ AreUsual rates }
{
    if !is_usual(rates.least) {
        return false;
    }
    is_usual(rates.greatest)
}

/// Whether a rate is no greater than a tracklet's may be.
fn is_usual(rate: i64) -> bool
    ensures { IsTrue result ↔ IsUsualRate rate }
{
    if rate < -MOST_RATE {
        return false;
    }
    rate <= MOST_RATE
}

/// Whether rates differ by no more than the acceleration allows over some time.
pub fn differ_little(axis: Axis, settings: &Settings, a: Rates, b: Rates, longest: i64) -> bool
    requires { IsBetween (pos 0) (pos 29999999) longest }
    ensures { IsTrue result ↔ DifferLittle axis settings.now a b longest }
{
    let most = acceleration(axis, settings) * longest;
    if !is_above_by(a.least, b.greatest, most) {
        return false;
    }
    is_above_by(b.least, a.greatest, most)
}

/// Whether one rate is above another by no more than so much in so many ticks of a day.
fn is_above_by(one: i64, other: i64, most: i64) -> bool
    requires { IsBetween (pos 0) (pos 29999999000000) most }
    ensures { IsTrue result ↔ (pos 1000000 *ℤ (one -ℤ other)) ≤ℤ most }
{
    if one <= other {
        return true;
    }
    let apart = one.saturating_sub(other).min(FAR_APART);
    TICKS_PER_DAY * apart <= most
}
