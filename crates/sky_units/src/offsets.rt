//! Where a spot lies as seen from another.
ghost use Rattle.std.specs.Prelude.{◌≡◌, neg_ℤ};
ghost use Rattle.sky_math.specs.Circle.{half_turn};
ghost use Rattle.sky_units.specs.Motion.{offset};
ghost use Rattle.sky_units.specs.Ranges.{IsBetween};

use crate::{Axis, Spot, wrap};

/// Where `to` lies on an axis as seen from `from`, in 10^-6 degree; right ascension goes the short
/// way round the circle (the definition `offset`).
pub fn offset(axis: Axis, from: &Spot, to: &Spot) -> i64
    ensures value { result ≡ offset axis from.now to.now }
    ensures range { IsBetween (neg_ℤ half_turn) half_turn result }
{
    match axis {
        Axis::Ra => wrap(to.ra - from.ra),
        Axis::Dec => to.dec - from.dec,
    }
}
