//! Quadratics as they are told.
use std::marker::Model;

/// The motion of a track on one axis: at the epoch `start` + s, in ticks, its position is
/// `base` + (`p` + `v`*s + `q`*s^2) / `den`, in 10^-6 degree, right ascension modulo 360 degrees.
///
/// Nothing above 1 divides all of `den`, `p`, `v` and `q`.
#[derive(Clone, Copy, Debug, PartialEq, Eq)]
pub struct Quad {
    /// The position from which the others are counted, in 10^-6 degree.
    pub base: i64,
    /// The epoch from which times are counted, in ticks.
    pub start: i64,
    /// What stands below: 1 to 21 * 10^28.
    pub den: i128,
    /// The constant: at most 63 * 10^36 in absolute value.
    pub p: i128,
    /// The rate per tick: at most 14 * 10^29 in absolute value.
    pub v: i128,
    /// The leading coefficient, half the acceleration: at most 11 * 10^22 in absolute value.
    pub q: i128,
}

impl Model for Quad {
    ghost use Rattle.sky_units.specs.QuadData.{QuadData, IsQuad};

    ghost Value = { QuadData };

    ghost view = { λ x. record {
      base = x.base;
      start = x.start;
      den = x.den;
      p = x.p;
      v = x.v;
      q = x.q;
    } };

    ghost invariant = { λ x. IsQuad x.den x.p x.v x.q };

    ghost inverse = { λ x. record {
      base = x.base;
      start = x.start;
      den = x.den;
      p = x.p;
      v = x.v;
      q = x.q;
    } };
}
