//! The purge of a few detections.

ghost use Rattle.std.specs.Prelude.{IsTrue};
ghost use Rattle.sky_units.specs.Arcs.{HaveRisingEpochs, IsArc};
ghost use Rattle.line_fit.specs.Slopes.{AreOfOneDay};

use crate::{purge, residuals_are_scaled, worst};
use sky_units::{NoMemory, Places, Settings, Spot, Tracklet, is_arc};
use std::alloc::Global;
use std::process::Abort;
use std::test::Fail;

/// A detection at 5 degrees of declination.
fn spot(num: u32, epoch: i64, ra: i64) -> Spot {
    Spot {
        num,
        epoch: epoch.max(0).min(200_000_000_000),
        ra: ra.max(0).min(359_999_999),
        dec: 5_000_000,
    }
}

/// Whether spots of rising epochs are of one day.
fn are_of_one_day(spots: &[Spot]) -> bool
    requires { HaveRisingEpochs spots.now }
    ensures { IsTrue result → AreOfOneDay spots.now }
{
    if spots.is_empty() {
        return true;
    }
    let first = &spots[0];
    let last = &spots[spots.len() - 1];
    last.epoch - first.epoch <= 1_000_000
}

/// What is left of the group of all the spots.
fn purge_all(
    alloc: Global,
    spots: &[Spot],
    settings: &Settings,
) -> Result<Option<Tracklet>, NoMemory>
    requires arc { IsArc spots.now }
    requires day { AreOfOneDay spots.now }
{
    let mut group = Places::new(alloc);
    for at in 0..spots.len() {
        group.push(at as u32)?;
    }
    purge(alloc, spots, &group, settings)
}

/// The numbers of what is left of the group of all the spots: none where nothing is.
fn numbers_left(alloc: Global, spots: &[Spot]) -> Result<Vec<u32>, NoMemory> {
    let mut numbers = Vec::new(alloc);
    if !is_arc(spots) {
        return Ok(numbers);
    }
    if !are_of_one_day(spots) {
        return Ok(numbers);
    }
    if let Some(left) = purge_all(alloc, spots, &Settings::standard())? {
        for spot in left.spots() {
            numbers.push(spot.num)?;
        }
    }
    Ok(numbers)
}

#[test]
fn third_of_four_is_dropped(rt: HostRuntime) -> Result<(), Fail> {
    residuals_are_scaled();
    let spots = [
        spot(0, 59_000_250_000, 10_000_000),
        spot(1, 59_000_260_000, 10_001_000),
        spot(2, 59_000_270_000, 10_002_500),
        spot(3, 59_000_280_000, 10_003_000),
    ];
    assert!(rt; is_arc(&spots));
    assert!(rt; are_of_one_day(&spots));
    assert_eq!(rt; worst(&spots), 2);
    let left = numbers_left(rt.alloc(), &spots)?;
    assert_eq!(rt; left.as_slice(), [0, 1, 3].as_slice());
    Ok(())
}

/// All four lie equally far from their line, so the last one is dropped.
#[test]
fn latest_of_a_tie_is_dropped(rt: HostRuntime) -> Result<(), Fail> {
    let spots = [
        spot(0, 59_000_250_000, 10_000_500),
        spot(1, 59_000_260_000, 10_000_000),
        spot(2, 59_000_270_000, 10_000_000),
        spot(3, 59_000_280_000, 10_000_500),
    ];
    let left = numbers_left(rt.alloc(), &spots)?;
    assert_eq!(rt; left.as_slice(), [0, 1, 2].as_slice());
    Ok(())
}

/// The middle one is dropped first. The two that are left exceed the greatest rate.
#[test]
fn nothing_is_left_of_two_too_fast(rt: HostRuntime) -> Result<(), Fail> {
    let spots = [
        spot(0, 59_000_250_000, 10_000_000),
        spot(1, 59_000_260_000, 10_050_000),
        spot(2, 59_000_270_000, 10_020_000),
    ];
    let left = numbers_left(rt.alloc(), &spots)?;
    assert_eq!(rt; left.len(), 0);
    Ok(())
}
