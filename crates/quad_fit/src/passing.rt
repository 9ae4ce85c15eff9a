//! Whether a quadratic passes spots.
ghost use Rattle.std.specs.Prelude.{◌≡◌, ◌≤◌, ◌≤ℤ◌, pos, map, ◌↔◌, IsTrue};
ghost use Rattle.std.specs.Int.RustNames.{unsigned_abs};
ghost use Rattle.std.specs.List.{All};
ghost use Rattle.sky_math.specs.Quadratics.{IsAdmitted, IsWithin, Passes, residual};
ghost use Rattle.sky_units.specs.QuadData.{quadratic_of};
ghost use Rattle.sky_units.specs.Ranges.{IsBetween};
ghost use Rattle.sky_units.specs.Reported.{PassesAll, offset_from, point_at};
ghost use Rattle.quad_fit.specs.NearStart.{AreNearInTime, IsNearInTime, IsPositionOn};

use crate::curves::ACCELERATION_SCALE;
use crate::growing::{acceleration_of, tolerance_of};
use sky_units::{Axis, Quad, Settings, Spot, wrap};

/// Whether a quadratic keeps the greatest acceleration of an axis and is nowhere farther than the
/// tolerance from the spots, both by the settings. Times are counted from `quad.start`, from which
/// each spot is at most 15,000,000 ticks away, and positions from `quad.base`, a position on the
/// axis, whatever the spots' own middle epoch and first position are.
pub fn passes(quad: &Quad, spots: &[Spot], axis: Axis, settings: &Settings) -> bool
    requires base { IsPositionOn axis quad.now.base }
    requires near { AreNearInTime quad.now.start spots.now }
    ensures { IsTrue result ↔
        PassesAll axis settings.now quad.now.base quad.now.start (quadratic_of quad.now) spots.now }
{
    if !is_admitted(quad, acceleration_of(axis, settings)) {
        return false;
    }
    passes_each(quad, spots, axis, tolerance_of(axis, settings))
}

/// Whether the acceleration of a quadratic is at most `acc`, in 10^-6 degree per day squared.
fn is_admitted(quad: &Quad, acc: i64) -> bool
    requires { IsBetween (pos 0) (pos 1000000) acc }
    ensures { IsTrue result ↔ IsAdmitted acc (quadratic_of quad.now) }
{
    is_within(ACCELERATION_SCALE * quad.q, acc as i128 * quad.den)
}

/// Whether a quadratic is nowhere farther from the spots than `tol`, in 10^-6 degree.
fn passes_each(quad: &Quad, spots: &[Spot], axis: Axis, tol: i64) -> bool
    requires base { IsPositionOn axis quad.now.base }
    requires near { AreNearInTime quad.now.start spots.now }
    requires tol { IsBetween (pos 0) (pos 100000) tol }
    ensures { IsTrue result ↔
        All (Passes tol (quadratic_of quad.now))
        (map (point_at axis quad.now.base quad.now.start) spots.now) }
{
    for place in 0..spots.len() {
        if !passes_spot(quad, &spots[place], axis, tol) {
            return false;
        }
    }
    true
}

/// Whether a quadratic is at most `tol` away from a spot.
fn passes_spot(quad: &Quad, spot: &Spot, axis: Axis, tol: i64) -> bool
    requires base { IsPositionOn axis quad.now.base }
    requires near { IsNearInTime quad.now.start spot.now }
    requires tol { IsBetween (pos 0) (pos 100000) tol }
    ensures { IsTrue result ↔
        Passes tol (quadratic_of quad.now) (point_at axis quad.now.base quad.now.start spot.now) }
{
    let position = offset_from(axis, quad.base, spot);
    let residual = residual_at(quad, spot.epoch - quad.start, position);
    is_within(residual, tol as i128 * quad.den)
}

/// Where a spot lies on an axis as seen from a base, in 10^-6 degree.
fn offset_from(axis: Axis, base: i64, spot: &Spot) -> i64
    requires { IsPositionOn axis base }
    ensures value { result ≡ offset_from axis base spot.now }
    ensures size { unsigned_abs result ≤ 180000000 }
{
    match axis {
        Axis::Ra => wrap(spot.ra - base),
        Axis::Dec => spot.dec - base,
    }
}

/// How far a quadratic lies above a position at a time, counted from its base and its start, times
/// its denominator.
fn residual_at(quad: &Quad, time: i64, position: i64) -> i128
    requires time { unsigned_abs time ≤ 15000000 }
    requires position { unsigned_abs position ≤ 180000000 }
    ensures { result ≡ residual (quadratic_of quad.now)
        (record { time = time; position = position }) }
{
    let s = time as i128;
    let y = position as i128;
    quad.p + quad.v * s + quad.q * (s * s) - y * quad.den
}

/// Whether a number is at most a bound in absolute value.
fn is_within(number: i128, bound: i128) -> bool
    requires { pos 0 ≤ℤ bound }
    ensures { IsTrue result ↔ IsWithin bound number }
{
    number.unsigned_abs() <= bound.unsigned_abs()
}
