//! Each public function once, on plain values.

ghost use Rattle.std.specs.Prelude.{IsTrue};
ghost use Rattle.sky_units.specs.Arcs.{HaveRisingEpochs};
ghost use Rattle.sky_units.specs.Pairs.{EpochsDontFall};
ghost use Rattle.line_fit.specs.Slopes.{AreOfOneDay};

use crate::{fits_line, slope_range, slopes_tell_lines};
use sky_units::{Axis, Spot, is_arc};
use std::process::Abort;
use std::test::Fail;

/// A detection at 5 degrees of declination.
fn spot(num: u32, epoch: i64, ra: i64) -> Spot {
    Spot {
        num,
        epoch: epoch.max(0).min(200_000_000_000),
        ra: ra.max(0).min(359_999_999),
        dec: 5_000_000,
    }
}

/// Four detections, 10,000 ticks apart, with these right ascensions.
fn four(ra: [i64; 4]) -> [Spot; 4] {
    [
        spot(0, 59_000_250_000, ra[0]),
        spot(1, 59_000_260_000, ra[1]),
        spot(2, 59_000_270_000, ra[2]),
        spot(3, 59_000_280_000, ra[3]),
    ]
}

/// Whether spots of rising epochs, which then don't fall, are of one day.
fn are_of_one_day(spots: &[Spot]) -> bool
    requires { HaveRisingEpochs spots.now }
    ensures day { IsTrue result → AreOfOneDay spots.now }
    ensures order { EpochsDontFall spots.now }
{
    if spots.is_empty() {
        return true;
    }
    let first = &spots[0];
    let last = &spots[spots.len() - 1];
    last.epoch - first.epoch <= 1_000_000
}

const CURVED: [i64; 4] = [10_000_000, 10_001_000, 10_002_500, 10_003_000];

#[test]
fn four_on_a_line_at_the_tolerance(rt: HostRuntime) -> Result<(), Fail> {
    let spots = four(CURVED);
    assert!(rt; is_arc(&spots));
    assert!(rt; are_of_one_day(&spots));
    assert!(rt; fits_line(&spots, 250, 500_000, 500_000));
    assert!(rt; !fits_line(&spots, 249, 500_000, 500_000));
    assert!(rt; !fits_line(&spots, 250, 50_000, 500_000));
    slopes_tell_lines();
    Ok(())
}

#[test]
fn slopes_of_four(rt: HostRuntime) -> Result<(), Fail> {
    let spots = four(CURVED);
    assert!(rt; is_arc(&spots));
    assert!(rt; are_of_one_day(&spots));
    assert!(rt; slope_range(&spots, Axis::Ra, 0).is_none());
    let exact = four([359_999_000, 0, 1_000, 2_000]);
    assert!(rt; is_arc(&exact));
    assert!(rt; are_of_one_day(&exact));
    let found = slope_range(&exact, Axis::Ra, 0);
    assert!(rt;
        found.is_some_and(|range| range.0.num == 1 && range.0.den == 10 && range.0 == range.1)
    );
    Ok(())
}
