//! Each public function, called on plain values.
use crate::{acc_range, fits, fits_joined};
use sky_units::{Axis, Settings, Spot, Tally, is_arc, is_arc_joined};
use std::process::Abort;
use std::test::Fail;

/// A detection at declination 5 degrees.
fn spot(num: u32, epoch: i64, ra: i64) -> Spot {
    Spot {
        num,
        epoch: epoch.max(0).min(200_000_000_000),
        ra: ra.max(0).min(359_999_999),
        dec: 5_000_000,
    }
}

/// Two detections in each of three nights, with these right ascensions.
fn six(ra: [i64; 6]) -> [Spot; 6] {
    [
        spot(0, 59_000_250_000, ra[0]),
        spot(1, 59_000_270_000, ra[1]),
        spot(2, 59_001_250_000, ra[2]),
        spot(3, 59_001_270_000, ra[3]),
        spot(4, 59_002_250_000, ra[4]),
        spot(5, 59_002_270_000, ra[5]),
    ]
}

/// Whether six detections fit, in one slice and in three.
fn six_fit(rt: &impl Abort, ra: [i64; 6], settings: &Settings) -> bool {
    let spots = six(ra);
    let mut tally = Tally::zero();
    assert!(rt; is_arc(&spots));
    let whole = fits(&spots, settings, &mut tally);
    assert_eq!(rt; tally.tests, 1);
    let (a, rest) = spots.split_at(2);
    let (b, c) = rest.split_at(2);
    assert!(rt; is_arc_joined(a, b, c));
    let joined = fits_joined(a, b, c, settings, &mut tally);
    assert_eq!(rt; tally.tests, 2);
    assert_eq!(rt; whole, joined);
    whole
}

const LINE: [i64; 6] = [
    10_000_000, 10_002_000, 10_100_000, 10_102_000, 10_200_000, 10_202_000,
];

#[test]
fn straight_lines_at_the_tolerance(rt: HostRuntime) -> Result<(), Fail> {
    let mut settings = Settings::standard();
    settings.set(b"acc_ra", 0)?;
    let at = [
        10_000_000, 10_002_000, 10_100_600, 10_102_600, 10_200_000, 10_202_000,
    ];
    let past = [
        10_000_000, 10_002_000, 10_100_601, 10_102_601, 10_200_000, 10_202_000,
    ];
    assert!(rt; six_fit(&rt, at, &settings));
    assert!(rt; !six_fit(&rt, past, &settings));
    Ok(())
}

#[test]
fn acceleration_at_its_limit(rt: HostRuntime) -> Result<(), Fail> {
    let bent = [
        10_000_000, 10_000_004, 10_010_000, 10_010_404, 10_040_000, 10_040_804,
    ];
    let mut settings = Settings::standard();
    settings.set(b"tol_ra", 0)?;
    assert!(rt; six_fit(&rt, bent, &settings));
    settings.set(b"acc_ra", 19_999)?;
    assert!(rt; !six_fit(&rt, bent, &settings));
    Ok(())
}

#[test]
fn misfit_of_four(rt: HostRuntime) -> Result<(), Fail> {
    let past = [
        10_000_000, 10_002_000, 10_100_000, 10_102_000, 10_200_000, 10_202_001,
    ];
    let mut settings = Settings::standard();
    settings.set(b"tol_ra", 0)?;
    assert!(rt; six_fit(&rt, LINE, &settings));
    assert!(rt; !six_fit(&rt, past, &settings));
    settings.set(b"tol_ra", 1)?;
    assert!(rt; six_fit(&rt, past, &settings));
    Ok(())
}

#[test]
fn across_ra_zero(rt: HostRuntime) {
    let round = [359_990_000, 359_992_000, 90_000, 92_000, 190_000, 192_000];
    assert!(rt; six_fit(&rt, round, &Settings::standard()));
}

/// The least and greatest leading coefficient of six detections on right ascension.
fn six_range(rt: &impl Abort, ra: [i64; 6], tol: i64) -> Option<(i128, i128, i128, i128)> {
    let spots = six(ra);
    assert!(rt; is_arc(&spots));
    assert!(rt; tol >= 0 && tol <= 100_000);
    let (low, high) = acc_range(&spots, Axis::Ra, tol)?;
    Some((low.num, low.den, high.num, high.den))
}

#[test]
fn least_and_greatest_coefficient(rt: HostRuntime) {
    let bent = [
        10_000_000, 10_000_004, 10_010_000, 10_010_404, 10_040_000, 10_040_804,
    ];
    let past = [
        10_000_000, 10_002_000, 10_100_000, 10_102_000, 10_200_000, 10_202_001,
    ];
    assert_eq!(rt;
        six_range(&rt, LINE, 300),
        Some((-1, 1_700_000_000, 1, 1_700_000_000))
    );
    assert_eq!(rt;
        six_range(&rt, bent, 0),
        Some((1, 100_000_000, 1, 100_000_000))
    );
    assert_eq!(rt; six_range(&rt, past, 0), None);
    assert_eq!(rt;
        six_range(&rt, past, 1),
        Some((-151, 103_020_000_000_000, 1, 500_000_000_000))
    );
}
