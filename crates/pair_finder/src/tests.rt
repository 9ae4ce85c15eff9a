//! Pairs by the tree beside those of two loops.

ghost use Rattle.std.specs.Prelude.{◌≡◌, ◌<◌, ◌^◌, IsTrue, length, ◌≤ℤ◌};
ghost use Rattle.sky_units.specs.Ranges.{IsBetween};
ghost use Rattle.sky_units.specs.Pairs.{EpochsDontFall};

use super::*;
use rates::are_pair;

/// A spot at so many ticks of a night, near these places on the sky.
fn spot(ticks: i64, ra: i64, dec: i64) -> Spot {
    Spot {
        num: 0,
        epoch: clamped(ticks, 0, 200_000_000_000),
        ra: clamped(ra, 0, 359_999_999),
        dec: clamped(dec, -90_000_000, 90_000_000),
    }
}

/// The number nearest to a value between two ends.
fn clamped(value: i64, low: i64, high: i64) -> i64
    requires { low ≤ℤ high }
    ensures { IsBetween low high result }
{
    value.max(low).min(high)
}

/// Whether the epochs of spots don't fall.
fn dont_fall(spots: &[Spot]) -> bool
    ensures { IsTrue result → EpochsDontFall spots.now }
{
    for later in 1..spots.len() {
        let before = &spots[later - 1];
        let spot = &spots[later];
        if spot.epoch < before.epoch {
            return false;
        }
    }
    true
}

/// Adds the pairs of one earlier spot, each later spot in turn.
fn push_row(
    found: &mut Vec<(u32, u32)>,
    spots: &[Spot],
    first: usize,
    settings: &Settings,
) -> Result<(), NoMemory>
    requires few { length spots.now < 2 ^ 32 }
    requires within { first < length spots.now }
{
    for second in 0..spots.len() {
        if are_pair(&spots[first], &spots[second], settings) {
            found.push((first as u32, second as u32))?;
        }
    }
    Ok(())
}

/// The pairs by two loops.
fn pairs_by_loops(
    alloc: Global,
    spots: &[Spot],
    settings: &Settings,
) -> Result<Vec<(u32, u32)>, NoMemory>
    requires few { length spots.now < 2 ^ 32 }
{
    let mut found = Vec::new(alloc);
    for first in 0..spots.len() {
        push_row(&mut found, spots, first, settings)?;
    }
    Ok(found)
}

/// Whether a night has so many pairs, the same by the tree and by two loops.
fn has_pairs(alloc: Global, spots: &[Spot], many: usize) -> Result<bool, NoMemory>
    requires few { length spots.now < 2 ^ 32 }
{
    if !dont_fall(spots) {
        return Ok(false);
    }
    let settings = Settings::standard();
    let found = pairs(alloc, spots, &settings)?;
    let same = pairs_by_loops(alloc, spots, &settings)?;
    Ok(found.len() == many && found.as_slice() == same.as_slice())
}

/// A night of so many spots, three to an epoch, scattered about right ascension 0.
fn night(alloc: Global, many: u32) -> Result<Vec<Spot>, NoMemory> {
    let mut spots = Vec::new(alloc);
    for place in 0..many {
        let number = place as i64;
        let ahead = number * 7_919 % 20_011;
        let ra = if ahead < 10_000 {
            ahead
        } else {
            359_999_999 - ahead
        };
        spots.push(spot(number / 3 * 5_000, ra, number * 104_729 % 30_011))?;
    }
    Ok(spots)
}

#[test]
fn no_spots_and_spots_of_one_epoch(rt: HostRuntime) -> Result<(), NoMemory> {
    assert!(rt; has_pairs(rt.alloc(), &[], 0)?);
    assert!(rt; has_pairs(rt.alloc(), &[spot(5, 5, 5), spot(5, 5, 5)], 0)?);
    Ok(())
}

#[test]
fn one_line(rt: HostRuntime) -> Result<(), NoMemory> {
    let spots = [
        spot(250_000, 10_000_000, 0),
        spot(260_000, 10_001_000, 0),
        spot(270_000, 10_002_500, 0),
        spot(280_000, 10_003_000, 0),
    ];
    assert!(rt; has_pairs(rt.alloc(), &spots, 6)?);
    Ok(())
}

#[test]
fn scattered_about_right_ascension_zero(rt: HostRuntime) -> Result<(), NoMemory> {
    let spots = night(rt.alloc(), 60)?;
    let list = spots.as_slice();
    assert!(rt; list.len() < 1_000);
    assert!(rt; has_pairs(rt.alloc(), list, 604)?);
    Ok(())
}
