//! Curves of time, in Newton's form.
ghost use Rattle.std.specs.Prelude.{◌≡◌, ◌≤◌, ◌^◌, pos, IsTrue, ◌↔◌};
ghost use Rattle.std.specs.Int.RustNames.{unsigned_abs};
ghost use Rattle.sky_math.specs.Quadratics.{residual, IsAdmitted};
ghost use Rattle.sky_units.specs.Ranges.{IsBetween};
ghost use Rattle.quad_fit.specs.Curves.{quadratic_of};

use crate::marks::Mark;
use std::marker::Model;

/// A curve in Newton's form: at the time `t` its value is
/// `(start + (slope + bend * (t - second)) * (t - first)) / den`, in 10^-6 degree.
#[derive(Clone, Copy)]
pub struct Curve {
    pub start: i128,
    pub slope: i128,
    pub bend: i64,
    pub den: i128,
    pub first: i64,
    pub second: i64,
}

impl Model for Curve {
    ghost use Rattle.quad_fit.specs.Curves.{CurveData, IsCurve};

    ghost Value = { CurveData };

    ghost view = { λ c. record {
      start = c.start;
      slope = c.slope;
      bend = c.bend;
      den = c.den;
      first = c.first;
      second = c.second;
    } };

    ghost invariant = { λ c. IsCurve c.start c.slope c.bend c.den c.first c.second };

    ghost inverse = { λ c. record {
      start = c.start;
      slope = c.slope;
      bend = c.bend;
      den = c.den;
      first = c.first;
      second = c.second;
    } };
}

/// What a greatest acceleration, in 10^-6 degree per day squared, is divided by to give the
/// greatest leading coefficient: twice the squared ticks of a day.
pub const ACCELERATION_SCALE: i128 = 2_000_000_000_000;

impl Curve {
    /// How far the curve lies above a mark, times its denominator.
    pub fn residual(&self, mark: Mark) -> i128
        ensures value { result ≡ residual (quadratic_of self.now) mark }
        ensures size { unsigned_abs result ≤ 10 ^ 32 }
    {
        let bent = self.bend as i128 * (mark.time - self.second) as i128;
        let risen = (self.slope + bent) * (mark.time - self.first) as i128;
        self.start + risen - mark.position as i128 * self.den
    }

    /// Whether the acceleration of the curve is at most `acc`, in 10^-6 degree per day squared.
    pub fn is_admitted(&self, acc: i64) -> bool
        requires { IsBetween (pos 0) (pos 1000000) acc }
        ensures { IsTrue result ↔ IsAdmitted acc (quadratic_of self.now) }
    {
        let twice = ACCELERATION_SCALE * self.bend as i128;
        let most = acc as i128 * self.den;
        -most <= twice && twice <= most
    }
}
