//! The groups of a few detections.

ghost use Rattle.std.specs.Prelude.{◌<◌, ◌^◌, IsTrue, length};
ghost use Rattle.sky_units.specs.Arcs.{HaveRisingEpochs};
ghost use Rattle.sky_units.specs.Pairs.{EpochsDontFall};
ghost use Rattle.line_fit.specs.Slopes.{AreOfOneDay};

use crate::collapse;
use pair_finder::pairs;
use sky_units::{NoMemory, Places, Settings, Spot};
use std::alloc::Global;
use std::process::Abort;
use std::test::Fail;

/// A detection at 5 degrees of declination.
fn spot(num: u32, epoch: i64, ra: i64) -> Spot {
    Spot {
        num,
        epoch: epoch.max(0).min(200_000_000_000),
        ra: ra.max(0).min(359_999_999),
        dec: 5_000_000,
    }
}

/// Whether the epochs of spots don't fall.
fn dont_fall(spots: &[Spot]) -> bool
    ensures { IsTrue result → EpochsDontFall spots.now }
{
    for i in 1..spots.len() {
        let before = &spots[i - 1];
        let spot = &spots[i];
        if spot.epoch < before.epoch {
            return false;
        }
    }
    true
}

/// Whether spots, of epochs that don't fall, are of one day.
fn are_of_one_day(spots: &[Spot]) -> bool
    requires { EpochsDontFall spots.now }
    ensures { IsTrue result → AreOfOneDay spots.now }
{
    if spots.is_empty() {
        return true;
    }
    let first = &spots[0];
    let last = &spots[spots.len() - 1];
    last.epoch - first.epoch <= 1_000_000
}

/// Whether each group has the places of its row.
fn are(groups: &[Places], rows: &[&[u32]]) -> bool {
    if groups.len() != rows.len() {
        return false;
    }
    for i in 0..groups.len() {
        let group = &groups[i];
        if i < rows.len() && group.items() != rows[i] {
            return false;
        }
    }
    true
}

/// Whether the pairs of spots make the groups of these rows.
fn make(alloc: Global, spots: &[Spot], rows: &[&[u32]]) -> Result<bool, NoMemory>
    requires few { length spots.now < 2 ^ 32 }
{
    if !dont_fall(spots) {
        return Ok(false);
    }
    if !are_of_one_day(spots) {
        return Ok(false);
    }
    let settings = Settings::standard();
    let found = pairs(alloc, spots, &settings)?;
    let groups = collapse(alloc, spots, found.as_slice(), &settings)?;
    Ok(are(groups.as_slice(), rows))
}

#[test]
fn four_of_one_night(rt: HostRuntime) -> Result<(), Fail> {
    let spots = [
        spot(0, 59_000_250_000, 10_000_000),
        spot(1, 59_000_260_000, 10_001_000),
        spot(2, 59_000_270_000, 10_002_500),
        spot(3, 59_000_280_000, 10_003_000),
    ];
    assert!(rt; make(rt.alloc(), &spots, &[&[0, 1, 2, 3]])?);
    Ok(())
}

/// The pair of places 1 and 4 joins the group of 1 and 2, though that of 1 and 3 lies closer.
#[test]
fn first_group_of_two(rt: HostRuntime) -> Result<(), Fail> {
    let spots = [
        spot(0, 59_000_250_000, 10_000_000),
        spot(1, 59_000_250_000, 10_000_400),
        spot(2, 59_000_260_000, 10_000_000),
        spot(3, 59_000_260_000, 10_000_400),
        spot(4, 59_000_270_000, 10_000_390),
        spot(5, 59_000_280_000, 10_000_390),
    ];
    assert!(rt;
        make(
            rt.alloc(),
            &spots,
            &[&[0, 2, 4, 5], &[0, 3, 4, 5], &[1, 2, 4, 5], &[1, 3]]
        )?
    );
    Ok(())
}

/// The first and the last are 0.1 days apart, more than a pair may be.
#[test]
fn farther_than_the_pair_gap(rt: HostRuntime) -> Result<(), Fail> {
    let spots = [
        spot(0, 59_000_200_000, 10_000_000),
        spot(1, 59_000_250_000, 10_005_000),
        spot(2, 59_000_300_000, 10_010_000),
    ];
    assert!(rt; make(rt.alloc(), &spots, &[&[0, 1, 2]])?);
    Ok(())
}

#[test]
fn across_ra_zero(rt: HostRuntime) -> Result<(), Fail> {
    let spots = [
        spot(0, 59_000_250_000, 359_999_000),
        spot(1, 59_000_260_000, 100),
        spot(2, 59_000_270_000, 1_000),
    ];
    assert!(rt; make(rt.alloc(), &spots, &[&[0, 1, 2]])?);
    Ok(())
}

/// Three of one epoch share both later ones, on lines that an earlier one lies off.
#[test]
fn three_of_one_epoch(rt: HostRuntime) -> Result<(), Fail> {
    let spots = [
        spot(0, 59_000_240_000, 9_995_000),
        spot(1, 59_000_250_000, 10_001_000),
        spot(2, 59_000_250_000, 10_001_000),
        spot(3, 59_000_250_000, 10_001_000),
        spot(4, 59_000_260_000, 10_002_000),
        spot(5, 59_000_270_000, 10_003_000),
    ];
    assert!(rt;
        make(
            rt.alloc(),
            &spots,
            &[&[0, 4], &[0, 5], &[1, 4, 5], &[2, 4, 5], &[3, 4, 5]]
        )?
    );
    Ok(())
}
