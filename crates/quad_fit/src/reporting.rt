//! The reported quadratic: of those that pass the spots the one of the least acceleration.
ghost use Rattle.std.specs.Prelude.{◌≡◌, ◌≤◌, ◌<◌, ◌*◌, ◌^◌, length};
ghost use Rattle.std.specs.Int.RustNames.{unsigned_abs};
ghost use Rattle.std.specs.List.{Contains};
ghost use Rattle.sky_units.specs.Arcs.{IsArc};
ghost use Rattle.sky_units.specs.Motion.{AxisAdmits};
ghost use Rattle.sky_units.specs.QuadData.{quadratic_of};
ghost use Rattle.sky_units.specs.Ranges.{IsEpoch};
ghost use Rattle.sky_units.specs.Reported.{IsReported, middle_epoch, position_of};
ghost use Rattle.sky_units.specs.SettingsData.{SettingsData};
ghost use Rattle.quad_fit.specs.Bases.{IsBasis, IsLevelOn};
ghost use Rattle.quad_fit.specs.Curves as curves;
ghost use Rattle.quad_fit.specs.Lowering.{IsDivisorOf, IsLowered, IsSeenFrom};

use crate::curves::Curve;
use crate::growing::{Basis, axis_level};
use crate::levelling::Levelled;
use sky_units::{Axis, Quad, Settings, Spot, common_divisor, offset, quotient};
use std::marker::Model;

/// The reported quadratic of the spots of an arc, two or more, that an axis admits: of the
/// quadratics that keep the greatest acceleration and are nowhere farther than the tolerance from
/// the spots, both by the settings, the one of the least acceleration, then of the least rate, then
/// of the least constant. It is counted from the middle epoch, rounded down, and from the first
/// position.
pub fn reported(spots: &[Spot], axis: Axis, settings: &Settings) -> Quad
    requires arc { IsArc spots.now }
    requires two { 2 ≤ length spots.now }
    requires admitted { AxisAdmits axis settings.now spots.now }
    ensures { IsReported axis settings.now spots.now result }
{
    let base = spots[0];
    match axis_level(spots, &[], &[], base, axis, settings) {
        Some(levelled) => told(&levelled, base, spots, axis),
        None => unreachable!(),
    }
}

/// `reported` of spots whose basis is known, as a test that found them to fit gave it: no curve is
/// sought anew.
pub fn reported_from(basis: &Basis, spots: &[Spot], axis: Axis) -> Quad
    requires arc { IsArc spots.now }
    requires known { (settings : SettingsData) × IsBasis settings spots.now basis.now }
    ensures { (settings : SettingsData) → IsBasis settings spots.now basis.now →
        IsReported axis settings spots.now result }
{
    match axis {
        Axis::Ra => told(&basis.ra, basis.base, spots, axis),
        Axis::Dec => told(&basis.dec, basis.base, spots, axis),
    }
}

/// The quadratic of a curve that is levelled on the spots, counted from a base among them.
fn told(levelled: &Levelled, base: Spot, spots: &[Spot], axis: Axis) -> Quad
    requires arc { IsArc spots.now }
    requires base { Contains spots.now base }
    ensures { (settings : SettingsData) → IsLevelOn axis settings base spots.now levelled.now →
        IsReported axis settings spots.now result }
{
    let first = &spots[0];
    let start = middle_epoch(spots);
    let time = start - base.epoch;
    let seen = seen_from(&levelled.curve, time, offset(axis, &base, first));
    lowered(&seen, position_of(axis, first), start)
}

/// The epoch in the middle between the first and the last spot, rounded down.
fn middle_epoch(spots: &[Spot]) -> i64
    requires { 0 < length spots.now }
    ensures value { result ≡ middle_epoch spots.now }
    ensures range { IsEpoch result }
{
    let first = &spots[0];
    let last = &spots[spots.len() - 1];
    (first.epoch + last.epoch).div_euclid(2)
}

/// Where a spot lies on an axis.
fn position_of(axis: Axis, spot: &Spot) -> i64
    ensures { result ≡ position_of axis spot.now }
{
    match axis {
        Axis::Ra => spot.ra,
        Axis::Dec => spot.dec,
    }
}

/// A quadratic of time: at the time s its value is (`p` + `v`*s + `q`*s^2) / `den`.
#[derive(Clone, Copy)]
struct Coefficients {
    p: i128,
    v: i128,
    q: i128,
    den: i128,
}

impl Model for Coefficients {
    ghost use Rattle.sky_math.specs.Quadratics.{Quadratic};
    ghost use Rattle.quad_fit.specs.Lowering.{AreCoefficients};

    ghost Value = { Quadratic };

    ghost view = { λ c. record { p = c.p; v = c.v; q = c.q; d = c.den } };

    ghost invariant = { λ c. AreCoefficients c.p c.v c.q c.den };

    ghost inverse = { λ c. record { p = c.p; v = c.v; q = c.q; den = c.d } };
}

/// The coefficients of a curve as seen from a time and a position.
fn seen_from(curve: &Curve, time: i64, position: i64) -> Coefficients
    requires time { unsigned_abs time ≤ 30000000 }
    requires position { unsigned_abs position ≤ 180000000 }
    ensures { IsSeenFrom time position (curves.quadratic_of curve.now) result }
{
    let first = (curve.first - time) as i128;
    let second = (curve.second - time) as i128;
    let bend = curve.bend as i128;
    let start = curve.start - position as i128 * curve.den;
    Coefficients {
        p: start - curve.slope * first + bend * (first * second),
        v: curve.slope - bend * (first + second),
        q: bend,
        den: curve.den,
    }
}

/// A quadratic in lowest terms, counted from a base and a start.
fn lowered(seen: &Coefficients, base: i64, start: i64) -> Quad
    ensures base { result.base ≡ base }
    ensures start { result.start ≡ start }
    ensures lowered { IsLowered seen.now (quadratic_of result) }
{
    let divisor = divisor_of(seen) as i128;
    Quad {
        base,
        start,
        den: quotient(seen.den, divisor),
        p: quotient(seen.p, divisor),
        v: quotient(seen.v, divisor),
        q: quotient(seen.q, divisor),
    }
}

/// The greatest common divisor of the numbers of a quadratic.
fn divisor_of(seen: &Coefficients) -> u128
    ensures value { IsDivisorOf seen.now result }
    ensures size { result ≤ 21 * 10 ^ 28 }
{
    let one = common_divisor(seen.den.unsigned_abs(), seen.p.unsigned_abs());
    let two = common_divisor(seen.v.unsigned_abs(), seen.q.unsigned_abs());
    common_divisor(one, two)
}
