//! The leading coefficients of the quadratics near three spots.
ghost use Rattle.std.specs.Prelude.{◌≡◌, ◌↔◌, ◌≤◌, ◌^◌, IsTrue, pos, ◌+ℤ◌, ◌<ℤ◌, ◌∷◌, []};
ghost use Rattle.std.specs.Int.RustNames.{unsigned_abs};
ghost use Rattle.sky_units.specs.Arcs.{IsArc};
ghost use Rattle.sky_units.specs.Limits.{arc_ticks};
ghost use Rattle.sky_units.specs.Motion.{acceleration, tolerance};
ghost use Rattle.sky_units.specs.Ranges.{IsBetween};
ghost use Rattle.refusal_cert.specs.Coefficients.{AreEnds, IsAtMost, KeepsLimit, HaveCommon, coefficient_of, step_of, bend_of, slack_of, stretch_of};

use sky_units::{Axis, Frac, Settings, Spot, offset};
use std::cmp::Ordering;
use std::marker::Model;

/// A step on one axis from a spot to a later one of its arc.
#[derive(Clone, Copy)]
struct Step {
    /// How much later, in ticks: 1 to 30,000,000.
    time: i64,
    /// How far, in 10^-6 degree: less than 90,000,000 either way.
    rise: i64,
}

impl Model for Step {
    ghost use Rattle.refusal_cert.specs.Coefficients.{StepData, IsStep};

    ghost Value = { StepData };

    ghost view = { λ s. record { time = s.time; rise = s.rise } };

    ghost invariant = { λ s. IsStep s.time s.rise };

    ghost inverse = { λ s. record { time = s.time; rise = s.rise } };
}

/// The leading coefficients of the quadratics within the tolerance of three spots: those from `low`
/// to `high`, in 10^-6 degree per tick squared.
#[derive(Clone, Copy)]
pub struct Coefficients {
    low: Frac,
    high: Frac,
}

/// What a greatest acceleration, in 10^-6 degree per day squared, is divided by to give the
/// greatest leading coefficient: twice the squared ticks of a day.
const ACCELERATION_SCALE: i128 = 2_000_000_000_000;

impl Coefficients {
    /// Whether one of the coefficients has an acceleration of at most `acc`.
    pub fn keep(&self, acc: i64) -> bool
        requires { IsBetween (pos 0) (pos 1000000) acc }
        ensures { IsTrue result ↔ KeepsLimit acc self.now.low self.now.high }
    {
        let greatest = coefficient_of(acc);
        let least = coefficient_of(-acc);
        is_at_most(&self.low, &greatest) && is_at_most(&least, &self.high)
    }

    /// Whether the coefficients and other ones have some in common.
    pub fn meet(&self, other: &Coefficients) -> bool
        ensures { IsTrue result ↔
            HaveCommon self.now.low self.now.high other.now.low other.now.high }
    {
        is_at_most(&self.low, &other.high) && is_at_most(&other.low, &self.high)
    }
}

/// The leading coefficients of three spots of an arc.
pub fn coefficients_of(axis: Axis, x: &Spot, y: &Spot, z: &Spot, tol: i64) -> Coefficients
    requires arc { IsArc (x.now ∷ y.now ∷ z.now ∷ []) }
    requires tol { IsBetween (pos 0) (pos 100000) tol }
    ensures { AreEnds axis tol x.now y.now z.now result.low result.high }
{
    let first = step_between(axis, x, y);
    let second = step_between(axis, y, z);
    let bend = bend_of(&first, &second);
    let slack = slack_of(&first, &second, tol);
    let den = stretch_of(&first, &second);
    Coefficients {
        low: Frac {
            num: (bend - slack) as i128,
            den,
        },
        high: Frac {
            num: (bend + slack) as i128,
            den,
        },
    }
}

/// The step from one spot to a later one of its arc.
fn step_between(axis: Axis, from: &Spot, to: &Spot) -> Step
    requires { IsArc (from.now ∷ to.now ∷ []) }
    ensures { result ≡ step_of axis from.now to.now }
{
    Step {
        time: to.epoch - from.epoch,
        rise: offset(axis, from, to),
    }
}

/// What the slope of the second step exceeds that of the first by, times both times.
fn bend_of(s: &Step, t: &Step) -> i64
    requires { (s.now.time +ℤ t.now.time) <ℤ arc_ticks }
    ensures value { result ≡ bend_of s.now t.now }
    ensures size { unsigned_abs result ≤ 2700000000000000 }
{
    t.rise * s.time - s.rise * t.time
}

/// Twice the tolerance, over the time of both steps.
fn slack_of(s: &Step, t: &Step, tol: i64) -> i64
    requires brief { (s.now.time +ℤ t.now.time) <ℤ arc_ticks }
    requires tol { IsBetween (pos 0) (pos 100000) tol }
    ensures value { result ≡ slack_of tol s.now t.now }
    ensures size { unsigned_abs result ≤ 6000000000000 }
{
    (tol + tol) * (s.time + t.time)
}

/// The product of the times of both steps and of their sum.
fn stretch_of(s: &Step, t: &Step) -> i128
    requires { (s.now.time +ℤ t.now.time) <ℤ arc_ticks }
    ensures value { result ≡ stretch_of s.now t.now }
    ensures size { IsBetween (pos 1) (pos (10 ^ 22)) result }
{
    (s.time * t.time) as i128 * (s.time + t.time) as i128
}

/// The leading coefficient of an acceleration.
fn coefficient_of(acc: i64) -> Frac
    requires { unsigned_abs acc ≤ 1000000 }
    ensures { result ≡ coefficient_of acc }
{
    Frac {
        num: acc as i128,
        den: ACCELERATION_SCALE,
    }
}

/// Whether one fraction is at most another one.
fn is_at_most(one: &Frac, other: &Frac) -> bool
    ensures { IsTrue result ↔ IsAtMost one.now other.now }
{
    one.compare(other) != Ordering::Greater
}

/// The greatest acceleration and the tolerance of an axis.
pub fn limits_of(axis: Axis, settings: &Settings) -> (i64, i64)
    ensures acc { result.0 ≡ acceleration axis settings.now }
    ensures acc_range { IsBetween (pos 0) (pos 1000000) result.0 }
    ensures tol { result.1 ≡ tolerance axis settings.now }
    ensures tol_range { IsBetween (pos 0) (pos 100000) result.1 }
{
    match axis {
        Axis::Ra => (settings.acc_ra, settings.tol_ra),
        Axis::Dec => (settings.acc_dec, settings.tol_dec),
    }
}
