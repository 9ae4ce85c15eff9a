//! Whether spots of one night lie on a line, and how steep such lines are.

ghost use Rattle.std.specs.Prelude.{◌≡◌, ◌<◌, ◌≤◌, pos, true, length, MatchOption};
ghost use Rattle.sky_units.specs.Arcs.{IsArc};
ghost use Rattle.sky_units.specs.Pairs.{EpochsDontFall};
ghost use Rattle.sky_units.specs.Ranges.{IsBetween};
ghost use Rattle.line_fit.specs.Lines.{lies_on_line, slopes_meet};
ghost use Rattle.line_fit.specs.Slopes.{AreOfOneDay, AreSuited, NoSlope, IsSlopeRange};

use crate::narrowing::narrow;
use crate::quotients::Slope;
use crate::slopes::{of_rate, of_two};
use sky_units::{Axis, Frac, Spot, is_arc};

/// Whether the spots, of epochs that don't fall and all of one day, lie on a line within `tol`
/// (10^-6 degree): their epochs are all different, each two are less than a quarter of a turn apart,
/// and on each axis some line of at most the axis's rate (10^-6 degree per day) is nowhere farther
/// than `tol` from a spot.
pub fn fits_line(spots: &[Spot], tol: i64, rate_ra: i64, rate_dec: i64) -> bool
    requires some { 0 < length spots.now }
    requires order { EpochsDontFall spots.now }
    requires day { AreOfOneDay spots.now }
    requires tol { IsBetween (pos 0) (pos 100000) tol }
    requires rate_ra { IsBetween (pos 0) (pos 10000000) rate_ra }
    requires rate_dec { IsBetween (pos 0) (pos 10000000) rate_dec }
    ensures { result ≡ lies_on_line tol rate_ra rate_dec spots.now }
{
    is_arc(spots)
        && axis_fits(spots, Axis::Ra, tol, rate_ra)
        && axis_fits(spots, Axis::Dec, tol, rate_dec)
}

/// Whether the slopes that each two spots and the rate allow have one in common on an axis.
fn axis_fits(spots: &[Spot], axis: Axis, tol: i64, rate: i64) -> bool
    requires arc { IsArc spots.now }
    requires day { AreOfOneDay spots.now }
    requires tol { IsBetween (pos 0) (pos 100000) tol }
    requires rate { IsBetween (pos 0) (pos 10000000) rate }
    ensures { result ≡ slopes_meet axis tol rate spots.now }
{
    if lies_along(spots, axis, tol, rate) {
        return true;
    }
    narrow(spots, axis, tol, of_rate(rate)).is_some()
}

/// Whether the line through the first and the last spot keeps the rate, and is near all others: then
/// no two of them need be compared.
fn lies_along(spots: &[Spot], axis: Axis, tol: i64, rate: i64) -> bool
    requires arc { IsArc spots.now }
    requires day { AreOfOneDay spots.now }
    requires tol { IsBetween (pos 0) (pos 100000) tol }
    requires rate { IsBetween (pos 0) (pos 10000000) rate }
    ensures { result ≡ true → slopes_meet axis tol rate spots.now ≡ true }
{
    if spots.len() < 2 {
        return false;
    }
    let along = of_two(axis, &spots[0], &spots[spots.len() - 1], 0).low;
    if !of_rate(rate).hold(&along) {
        return false;
    }
    are_near(spots, axis, tol / 2, along)
}

/// Whether a line through the first spot with this slope is at most twice `tol` away from each other one.
fn are_near(spots: &[Spot], axis: Axis, tol: i64, along: Slope) -> bool
    requires arc { IsArc spots.now }
    requires day { AreOfOneDay spots.now }
    requires tol { IsBetween (pos 0) (pos 100000) tol }
    ensures { result ≡ true → AreSuited axis tol along.num along.den spots.now (length spots.now) }
{
    for at in 1..spots.len() {
        if !of_two(axis, &spots[0], &spots[at], tol).hold(&along) {
            return false;
        }
    }
    true
}

/// The least and the greatest slope, in lowest terms and in 10^-6 degree per tick, of the lines on an
/// axis that are nowhere farther than `tol` (10^-6 degree) from the spots, which are an arc within one
/// day. None where there is no such line.
pub fn slope_range(spots: &[Spot], axis: Axis, tol: i64) -> Option<(Frac, Frac)>
    requires arc { IsArc spots.now }
    requires day { AreOfOneDay spots.now }
    requires two { 2 ≤ length spots.now }
    requires tol { IsBetween (pos 0) (pos 100000) tol }
    ensures { MatchOption result (NoSlope axis tol spots.now)
        (λ range. IsSlopeRange axis tol spots.now range.0 range.1) }
{
    let widest = of_two(axis, &spots[0], &spots[1], tol);
    let range = narrow(spots, axis, tol, widest)?;
    Some((
        fraction(range.low).lowest_terms(),
        fraction(range.high).lowest_terms(),
    ))
}

/// A slope as a fraction.
fn fraction(slope: Slope) -> Frac
    ensures { result ≡ slope }
{
    Frac {
        num: slope.num as i128,
        den: slope.den as i128,
    }
}
