//! Quadratics that are read: their bounds and their lowest terms.
ghost use Rattle.std.specs.Prelude.{◌≡◌, SomeIff, MatchBool};
ghost use Rattle.sky_units.specs.QuadData.{IsQuad, HaveNoCommonDivisor};
ghost use Rattle.track_report.specs.Reading.{told_quad};

use sky_units::{Quad, common_divisor};

/// The greatest denominator.
const MOST_DEN: i128 = 210_000_000_000_000_000_000_000_000_000;

/// The greatest constant, in absolute value.
const MOST_P: i128 = 63_000_000_000_000_000_000_000_000_000_000_000_000;

/// The greatest rate, in absolute value.
const MOST_V: i128 = 1_400_000_000_000_000_000_000_000_000_000;

/// The greatest leading coefficient, in absolute value.
const MOST_Q: i128 = 110_000_000_000_000_000_000_000;

/// The quadratic of these numbers; None where they break a bound or have a common divisor above 1.
pub fn quad_of(base: i64, start: i64, den: i128, p: i128, v: i128, q: i128) -> Option<Quad>
    ensures { SomeIff result (IsQuad den p v q) (told_quad base start den p v q) }
{
    if den < 1 || den > MOST_DEN {
        return None;
    }
    if p < -MOST_P || p > MOST_P {
        return None;
    }
    if v < -MOST_V || v > MOST_V {
        return None;
    }
    if q < -MOST_Q || q > MOST_Q {
        return None;
    }
    if !have_no_common_divisor(den, p, v, q) {
        return None;
    }
    Some(Quad {
        base,
        start,
        den,
        p,
        v,
        q,
    })
}

/// Whether nothing above 1 divides all four numbers.
fn have_no_common_divisor(den: i128, p: i128, v: i128, q: i128) -> bool
    ensures { MatchBool result (HaveNoCommonDivisor den p v q) (¬ (HaveNoCommonDivisor den p v q)) }
{
    let front = common_divisor(den.unsigned_abs(), p.unsigned_abs());
    let back = common_divisor(v.unsigned_abs(), q.unsigned_abs());
    common_divisor(front, back) == 1
}
