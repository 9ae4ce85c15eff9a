//! Each public function, called on plain values.
ghost use Rattle.std.specs.Prelude.{IsTrue};
ghost use Rattle.refusal_cert.specs.Certificates.{HaveDifferentNumbers};

use crate::numbers::number_at;
use crate::{check, four_suffice, refuse};
use sky_units::{Axis, Cert, Settings, Spot, is_arc};
use std::process::Abort;
use std::test::Fail;

/// A detection at declination 5 degrees.
fn seen(num: u32, epoch: i64, ra: i64) -> Spot {
    Spot {
        num,
        epoch: epoch.max(0).min(200_000_000_000),
        ra: ra.max(0).min(359_999_999),
        dec: 5_000_000,
    }
}

/// Two detections in each of three nights, with these right ascensions, numbered from 0.
fn asked(ra: [i64; 6]) -> [Spot; 6] {
    [
        seen(0, 59_000_250_000, ra[0]),
        seen(1, 59_000_270_000, ra[1]),
        seen(2, 59_001_250_000, ra[2]),
        seen(3, 59_001_270_000, ra[3]),
        seen(4, 59_002_250_000, ra[4]),
        seen(5, 59_002_270_000, ra[5]),
    ]
}

/// Whether the number of each spot is its place.
fn are_numbered(spots: &[Spot]) -> bool
    ensures { IsTrue result → HaveDifferentNumbers spots.now }
{
    for place in 0..spots.len() {
        if number_at(spots, place) as usize != place {
            return false;
        }
    }
    true
}

/// The settings of a tolerance and a greatest acceleration in right ascension.
fn limits(tol: i64, acc: i64) -> Result<Settings, Fail> {
    let mut settings = Settings::standard();
    settings.set(b"tol_ra", tol)?;
    settings.set(b"acc_ra", acc)?;
    Ok(settings)
}

/// The certificate of six detections in right ascension. In declination there is none.
fn refused(rt: &impl Abort, ra: [i64; 6], settings: &Settings) -> Option<Cert> {
    let spots = asked(ra);
    assert!(rt; is_arc(&spots));
    assert!(rt; are_numbered(&spots));
    assert!(rt; refuse(&spots, Axis::Dec, settings).is_none());
    let found = refuse(&spots, Axis::Ra, settings);
    if let Some(cert) = &found {
        assert!(rt; check(&spots, Axis::Ra, cert, settings));
        assert!(rt; !check(&spots, Axis::Dec, cert, settings));
    }
    found
}

const LINE: [i64; 6] = [
    10_000_000, 10_002_000, 10_100_000, 10_102_000, 10_200_000, 10_202_000,
];

const BENT: [i64; 6] = [
    10_000_000, 10_000_004, 10_010_000, 10_010_404, 10_040_000, 10_040_804,
];

const PAST: [i64; 6] = [
    10_000_000, 10_002_000, 10_100_000, 10_102_000, 10_200_000, 10_202_001,
];

#[test]
fn asked_misfit_of_three(rt: HostRuntime) {
    let far = [
        10_000_000, 10_002_000, 55_000_000, 55_002_000, 99_998_000, 99_999_999,
    ];
    assert_eq!(rt;
        refused(&rt, far, &Settings::standard()),
        Some(Cert::Three([0, 1, 2]))
    );
}

#[test]
fn straight_lines_at_the_tolerance(rt: HostRuntime) -> Result<(), Fail> {
    let at = [
        10_000_000, 10_002_000, 10_100_600, 10_102_600, 10_200_000, 10_202_000,
    ];
    let past = [
        10_000_000, 10_002_000, 10_100_601, 10_102_601, 10_200_000, 10_202_000,
    ];
    let settings = limits(300, 0)?;
    assert_eq!(rt; refused(&rt, at, &settings), None);
    assert_eq!(rt; refused(&rt, past, &settings), Some(Cert::Three([0, 2, 4])));
    Ok(())
}

#[test]
fn acceleration_at_its_limit(rt: HostRuntime) -> Result<(), Fail> {
    assert_eq!(rt; refused(&rt, BENT, &limits(0, 20_000)?), None);
    assert_eq!(rt;
        refused(&rt, BENT, &limits(0, 19_999)?),
        Some(Cert::Three([0, 1, 2]))
    );
    Ok(())
}

#[test]
fn misfit_of_four(rt: HostRuntime) -> Result<(), Fail> {
    assert_eq!(rt; refused(&rt, LINE, &limits(0, 20_000)?), None);
    assert_eq!(rt;
        refused(&rt, PAST, &limits(0, 20_000)?),
        Some(Cert::Four([0, 1, 2, 5]))
    );
    four_suffice();
    Ok(())
}

#[test]
fn misfit_of_three_without_acceleration(rt: HostRuntime) -> Result<(), Fail> {
    assert_eq!(rt;
        refused(&rt, PAST, &limits(0, 0)?),
        Some(Cert::Three([0, 1, 5]))
    );
    Ok(())
}

/// Whether a certificate is shown by six detections in right ascension.
fn shown(rt: &impl Abort, ra: [i64; 6], cert: Cert, settings: &Settings) -> bool {
    let spots = asked(ra);
    assert!(rt; is_arc(&spots));
    assert!(rt; are_numbered(&spots));
    check(&spots, Axis::Ra, &cert, settings)
}

#[test]
fn certificates_checked(rt: HostRuntime) -> Result<(), Fail> {
    let settings = limits(0, 20_000)?;
    assert!(rt; shown(&rt, PAST, Cert::Four([0, 1, 2, 5]), &settings));
    assert!(rt; shown(&rt, PAST, Cert::Four([1, 2, 3, 5]), &settings));
    assert!(rt; !shown(&rt, PAST, Cert::Four([0, 1, 2, 3]), &settings));
    assert!(rt; !shown(&rt, PAST, Cert::Four([1, 0, 2, 5]), &settings));
    assert!(rt; !shown(&rt, PAST, Cert::Four([0, 1, 2, 6]), &settings));
    assert!(rt; !shown(&rt, PAST, Cert::Three([0, 1, 5]), &settings));
    assert!(rt; shown(&rt, PAST, Cert::Three([0, 1, 5]), &limits(0, 0)?));
    assert!(rt; !shown(&rt, PAST, Cert::Three([0, 0, 5]), &limits(0, 0)?));
    Ok(())
}
