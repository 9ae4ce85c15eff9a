//! Small nights.
ghost use Rattle.std.specs.Prelude.{◌≡◌, ◌<◌, ◌^◌, pos, IfOk, IsTrue};
ghost use Rattle.std.specs.Vec.{vec_len};
ghost use Rattle.sky_units.specs.Pairs.{EpochsDontFall};
ghost use Rattle.sky_units.specs.Ranges.{IsBetween};
ghost use Rattle.line_fit.specs.Slopes.{AreOfOneDay};

use crate::Night;
use sky_units::{NoMemory, Settings, Spot, Tracklet};
use std::alloc::Global;
use std::process::Abort;
use std::test::Fail;

/// A spot at 5 degrees of declination, so many ticks after the first and so many units beside it.
fn spot(num: u32, ticks: u32, ra: u32) -> Spot {
    Spot {
        num,
        epoch: 59_000_250_000 + i64::from(ticks),
        ra: (10_000_000 + i64::from(ra)).min(359_999_999),
        dec: 5_000_000,
    }
}

/// Whether the epochs of spots don't fall.
fn dont_fall(spots: &[Spot]) -> bool
    ensures { IsTrue result → EpochsDontFall spots.now }
{
    for i in 1..spots.len() {
        let before = &spots[i - 1];
        let spot = &spots[i];
        if spot.epoch < before.epoch {
            return false;
        }
    }
    true
}

/// Whether spots, of epochs that don't fall, are of one day.
fn are_of_one_day(spots: &[Spot]) -> bool
    requires { EpochsDontFall spots.now }
    ensures { IsTrue result → AreOfOneDay spots.now }
{
    if spots.is_empty() {
        return true;
    }
    let first = &spots[0];
    let last = &spots[spots.len() - 1];
    last.epoch - first.epoch <= 1_000_000
}

/// Whether each tracklet has spots of the numbers of its row.
fn are(tracklets: &[Tracklet], rows: &[&[u32]]) -> bool {
    if tracklets.len() != rows.len() {
        return false;
    }
    for i in 0..tracklets.len() {
        let tracklet = &tracklets[i];
        if i < rows.len() && !has_numbers(tracklet.spots(), rows[i]) {
            return false;
        }
    }
    true
}

/// Whether spots have these numbers.
fn has_numbers(spots: &[Spot], numbers: &[u32]) -> bool {
    if spots.len() != numbers.len() {
        return false;
    }
    for i in 0..spots.len() {
        let spot = &spots[i];
        if i < numbers.len() && spot.num != numbers[i] {
            return false;
        }
    }
    true
}

/// Whether the night of some spots has at a stage the tracklets of these rows.
fn makes(alloc: Global, spots: Vec<Spot>, stages: i64, rows: &[&[u32]]) -> Result<bool, NoMemory>
    requires few { vec_len spots < 2 ^ 32 }
    requires stages { IsBetween (pos 1) (pos 3) stages }
{
    if !dont_fall(spots.as_slice()) {
        return Ok(false);
    }
    if !are_of_one_day(spots.as_slice()) {
        return Ok(false);
    }
    let settings = Settings {
        stages,
        ..Settings::standard()
    };
    let night = Night::build(alloc, 59_000, spots, &settings)?;
    Ok(night.number() == 59_000 && are(night.tracklets(), rows))
}

/// Four spots of one object, the third one off its line.
fn four_spots(alloc: Global) -> Result<Vec<Spot>, NoMemory>
    ensures { IfOk result (λ spots. vec_len spots ≡ 4) }
{
    let spots = vec![in alloc;
        spot(1, 0, 0),
        spot(2, 10_000, 1_000),
        spot(3, 20_000, 2_500),
        spot(4, 30_000, 3_000),
    ]?;
    Ok(spots)
}

#[test]
fn collapse_and_purge_of_one_night(rt: HostRuntime) -> Result<(), Fail> {
    let alloc = rt.alloc();
    let pairs: [&[u32]; 6] = [&[1, 2], &[1, 3], &[1, 4], &[2, 3], &[2, 4], &[3, 4]];
    assert!(rt; makes(alloc, four_spots(alloc)?, 1, &pairs)?);
    assert!(rt; makes(alloc, four_spots(alloc)?, 2, &[&[1, 2, 3, 4]])?);
    assert!(rt; makes(alloc, four_spots(alloc)?, 3, &[&[1, 2, 4]])?);
    Ok(())
}

/// Two groups, of which the purge leaves the same.
#[test]
fn equal_purged_groups_are_one(rt: HostRuntime) -> Result<(), Fail> {
    let alloc = rt.alloc();
    let spots = vec![in alloc;
        spot(1, 0, 0),
        spot(2, 10_000, 200),
        spot(3, 10_000, 1_300),
        spot(4, 20_000, 1_400),
    ]?;
    assert!(rt; makes(alloc, spots, 3, &[&[1, 4]])?);
    Ok(())
}

/// Two groups, of which the purge leaves all of the second, and a part of that of the first.
#[test]
fn contained_purged_group_stays(rt: HostRuntime) -> Result<(), Fail> {
    let alloc = rt.alloc();
    let spots = vec![in alloc;
        spot(1, 0, 500),
        spot(2, 30_000, 600),
        spot(3, 30_000, 1_200),
        spot(4, 40_000, 1_400),
    ]?;
    assert!(rt; makes(alloc, spots, 3, &[&[1, 3, 4], &[1, 4]])?);
    Ok(())
}
