//! The reported quadratics of plain values.
ghost use Rattle.std.specs.Prelude.{neg_ℤ, pos, IsTrue};
ghost use Rattle.sky_units.specs.Ranges.{IsBetween};
ghost use Rattle.quad_fit.specs.NearStart.{AreNearInTime, IsNearInTime, IsPositionOn};

use crate::{fits_basis, passes, reported, reported_from};
use sky_units::{Axis, Quad, Settings, Spot, Tally, is_arc};
use std::alloc::Global;
use std::process::Abort;
use std::test::Fail;

/// A quadratic's base, start, denominator, constant, rate and leading coefficient.
type Numbers = (i64, i64, i128, i128, i128, i128);

/// When there are two detections in each of three nights, in ticks.
const THREE_NIGHTS: [i64; 6] = [
    59_000_250_000,
    59_000_270_000,
    59_001_250_000,
    59_001_270_000,
    59_002_250_000,
    59_002_270_000,
];

/// The declination is 5 degrees throughout.
const LEVEL: Numbers = (5_000_000, 59_001_260_000, 10_100, 0, -3, 0);

#[test]
fn three_nights(rt: HostRuntime) -> Result<(), Fail> {
    let ra = [
        10_000_000, 10_002_000, 10_100_000, 10_102_000, 10_200_000, 10_202_000,
    ];
    let told = told_of(&rt, rt.alloc(), &THREE_NIGHTS, &ra, &Settings::standard())?;
    let line = (10_000_000, 59_001_260_000, 10_100, 1_020_100_000, 1_007, 0);
    assert_eq!(rt; told, Some((line, LEVEL)));
    Ok(())
}

#[test]
fn across_ra_zero(rt: HostRuntime) -> Result<(), Fail> {
    let ra = [359_990_000, 359_992_000, 90_000, 92_000, 190_000, 192_000];
    let told = told_of(&rt, rt.alloc(), &THREE_NIGHTS, &ra, &Settings::standard())?;
    let line = (359_990_000, 59_001_260_000, 10_100, 1_020_100_000, 1_007, 0);
    assert_eq!(rt; told, Some((line, LEVEL)));
    Ok(())
}

#[test]
fn straight_lines_at_the_tolerance(rt: HostRuntime) -> Result<(), Fail> {
    let mut settings = Settings::standard();
    settings.set(b"acc_ra", 0)?;
    let at = [
        10_000_000, 10_002_000, 10_100_600, 10_102_600, 10_200_000, 10_202_000,
    ];
    let past = [
        10_000_000, 10_002_000, 10_100_601, 10_102_601, 10_200_000, 10_202_000,
    ];
    let line = (10_000_000, 59_001_260_000, 10, 1_013_000, 1, 0);
    let told_at = told_of(&rt, rt.alloc(), &THREE_NIGHTS, &at, &settings)?;
    let told_past = told_of(&rt, rt.alloc(), &THREE_NIGHTS, &past, &settings)?;
    assert_eq!(rt; told_at, Some((line, LEVEL)));
    assert_eq!(rt; told_past, None);
    Ok(())
}

#[test]
fn acceleration_at_its_limit(rt: HostRuntime) -> Result<(), Fail> {
    let mut settings = Settings::standard();
    settings.set(b"tol_ra", 0)?;
    let ra = [
        10_000_000, 10_000_004, 10_010_000, 10_010_404, 10_040_000, 10_040_804,
    ];
    let told = told_of(&rt, rt.alloc(), &THREE_NIGHTS, &ra, &settings)?;
    let constant = 1_020_100_000_000;
    let curve = (
        10_000_000,
        59_001_260_000,
        100_000_000,
        constant,
        2_020_000,
        1,
    );
    assert_eq!(rt; told, Some((curve, LEVEL)));
    Ok(())
}

#[test]
fn window_move_keeps_the_rest(rt: HostRuntime) -> Result<(), Fail> {
    let epochs = [
        59_000_250_000,
        59_000_270_000,
        59_001_250_000,
        59_001_270_000,
        59_002_250_000,
        59_002_270_000,
        59_003_250_000,
        59_003_270_000,
    ];
    let ra = [
        10_000_000, 10_002_000, 10_100_000, 10_102_000, 10_200_000, 10_202_000, 10_300_000,
        10_302_000,
    ];
    let told = told_of(&rt, rt.alloc(), &epochs, &ra, &Settings::standard())?;
    let line = (10_000_000, 59_001_760_000, 15_100, 2_280_100_000, 1_507, 0);
    let level = (5_000_000, 59_001_760_000, 15_100, 0, -3, 0);
    assert_eq!(rt; told, Some((line, level)));
    Ok(())
}

#[test]
fn thirty_nights(rt: HostRuntime) -> Result<(), Fail> {
    let epochs = [
        59_000_250_000,
        59_000_270_000,
        59_014_250_000,
        59_014_270_000,
        59_029_250_000,
        59_029_270_000,
    ];
    let ra = [
        10_000_000, 10_002_000, 11_400_000, 11_402_000, 12_900_000, 12_902_000,
    ];
    let told = told_of(&rt, rt.alloc(), &epochs, &ra, &Settings::standard())?;
    let constant = 210_540_100_000;
    let line = (10_000_000, 59_014_760_000, 145_100, constant, 14_507, 0);
    let level = (5_000_000, 59_014_760_000, 145_100, 0, -3, 0);
    assert_eq!(rt; told, Some((line, level)));
    Ok(())
}

/// A constant, a rate and a leading coefficient over 1, whether this quadratic passes a detection at
/// its start, and whether it passes one 1,000 ticks before that besides.
const CASES: [(i64, i64, i64, bool, bool); 6] = [
    (0, 0, 0, true, true),
    (300, 0, 0, true, true),
    (-301, 0, 0, false, false),
    (300, 1, 0, true, false),
    (-300, -1, 0, true, false),
    (0, 0, 1, false, false),
];

#[test]
fn passes_what_is_near(rt: HostRuntime) {
    let start = spot_at(59_001_000_000, 10_000_000);
    let before = spot_at(59_000_999_000, 10_000_000);
    let settings = Settings::standard();
    for (p, v, q, one, both) in CASES {
        let quad = whole(p, v, q);
        assert_eq!(rt; passes_near(&quad, &[start], Axis::Ra, &settings), one);
        assert_eq!(rt;
            passes_near(&quad, &[before, start], Axis::Ra, &settings),
            both
        );
    }
}

/// A quadratic over 1, counted from right ascension 10 degrees and the epoch 59001, its numbers at
/// most 1,000.
fn whole(p: i64, v: i64, q: i64) -> Quad {
    Quad {
        base: 10_000_000,
        start: 59_001_000_000,
        den: 1,
        p: small(p) as i128,
        v: small(v) as i128,
        q: small(q) as i128,
    }
}

/// The number nearest to `number` from -1,000 to 1,000.
fn small(number: i64) -> i64
    ensures { IsBetween (neg_ℤ (pos 1000)) (pos 1000) result }
{
    number.max(-1_000).min(1_000)
}

/// The reported quadratics of both axes, if the detections at these times with these right
/// ascensions fit.
fn told_of(
    rt: &impl Abort,
    alloc: Global,
    epochs: &[i64],
    ra: &[i64],
    settings: &Settings,
) -> Result<Option<(Numbers, Numbers)>, Fail> {
    let spots = spots_of(alloc, epochs, ra)?;
    Ok(told_on(rt, &spots, settings))
}

/// The reported quadratics of both axes, if the spots are an arc and fit. They pass the spots, and
/// are the same from the basis of a test.
fn told_on(rt: &impl Abort, spots: &[Spot], settings: &Settings) -> Option<(Numbers, Numbers)> {
    if !is_arc(spots) || spots.len() < 2 {
        return None;
    }
    let basis = fits_basis(&[], &[], spots, settings, &mut Tally::zero())?;
    let on_ra = reported_from(&basis, spots, Axis::Ra);
    let on_dec = reported_from(&basis, spots, Axis::Dec);
    assert_eq!(rt; reported(spots, Axis::Ra, settings), on_ra);
    assert_eq!(rt; reported(spots, Axis::Dec, settings), on_dec);
    assert!(rt; passes_near(&on_ra, spots, Axis::Ra, settings));
    assert!(rt; passes_near(&on_dec, spots, Axis::Dec, settings));
    Some((numbers_of(&on_ra), numbers_of(&on_dec)))
}

/// The detections at these times and right ascensions.
fn spots_of(alloc: Global, epochs: &[i64], ra: &[i64]) -> Result<Vec<Spot>, Fail> {
    let mut spots = Vec::new(alloc);
    for place in 0..epochs.len().min(ra.len()) {
        spots.push(spot_at(epochs[place], ra[place]))?;
    }
    Ok(spots)
}

/// A detection at declination 5 degrees.
fn spot_at(epoch: i64, ra: i64) -> Spot {
    Spot {
        num: 0,
        epoch: epoch.max(0).min(200_000_000_000),
        ra: ra.max(0).min(359_999_999),
        dec: 5_000_000,
    }
}

/// Whether a quadratic that starts near the spots passes them.
fn passes_near(quad: &Quad, spots: &[Spot], axis: Axis, settings: &Settings) -> bool {
    if !is_position(axis, quad.base) {
        return false;
    }
    if !are_near(spots, quad.start) {
        return false;
    }
    passes(quad, spots, axis, settings)
}

/// Whether spots may have a position on an axis.
fn is_position(axis: Axis, position: i64) -> bool
    ensures { IsTrue result → IsPositionOn axis position }
{
    match axis {
        Axis::Ra => is_between(position, 0, 359_999_999),
        Axis::Dec => is_between(position, -90_000_000, 90_000_000),
    }
}

/// Whether a number is from `low` to `high`.
fn is_between(number: i64, low: i64, high: i64) -> bool
    ensures { IsTrue result → IsBetween low high number }
{
    if number < low {
        return false;
    }
    number <= high
}

/// Whether each spot is at most half the time of an arc away from an epoch.
fn are_near(spots: &[Spot], epoch: i64) -> bool
    ensures { IsTrue result → AreNearInTime epoch spots.now }
{
    for place in 0..spots.len() {
        if !is_near(&spots[place], epoch) {
            return false;
        }
    }
    true
}

/// Whether a spot is at most half the time of an arc away from an epoch.
fn is_near(spot: &Spot, epoch: i64) -> bool
    ensures { IsTrue result → IsNearInTime epoch spot.now }
{
    let away = spot.epoch as i128 - epoch as i128;
    -15_000_000 <= away && away <= 15_000_000
}

/// The numbers of a quadratic.
fn numbers_of(quad: &Quad) -> Numbers {
    (quad.base, quad.start, quad.den, quad.p, quad.v, quad.q)
}
