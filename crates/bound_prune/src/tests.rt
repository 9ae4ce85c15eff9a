//! Two tracklets and three: which may be of one object by their boxes, which are wanted, and how many tests that took.

use super::*;
use box_tree::{Bounds, Located, Prune2, Prune3};
use sky_units::{NoMemory, Settings, Spot, Tally, Tracklet};
use std::alloc::Global;

/// A tracklet of two spots, the second one 10,000 ticks later.
#[derive(Clone, Copy)]
struct Pair {
    day: i64,
    ra: i64,
    later_ra: i64,
    dec: i64,
}

/// The spot of a day, at a quarter of it and so many ticks.
fn spot(day: i64, ticks: i64, ra: i64, dec: i64) -> Spot {
    Spot {
        num: 0,
        epoch: day.clamp(0, 1_000) * 1_000_000 + 250_000 + ticks.clamp(0, 10_000),
        ra: ra.clamp(0, 359_999_999),
        dec: dec.clamp(-90_000_000, 90_000_000),
    }
}

/// The box of a tracklet of two spots.
fn boxed(alloc: Global, pair: Pair, settings: &Settings) -> Result<Option<TrackletBox>, NoMemory> {
    let mut spots = Vec::new(alloc);
    spots.push(spot(pair.day, 0, pair.ra, pair.dec))?;
    spots.push(spot(pair.day, 10_000, pair.later_ra, pair.dec))?;
    match Tracklet::from_spots(spots) {
        Some(tracklet) => Ok(Some(TrackletBox::make(tracklet, settings))),
        None => Ok(None),
    }
}

/// The own bounds of a box.
fn bounds_of(item: &TrackletBox) -> Bounds {
    Bounds {
        low: [
            item.low(0),
            item.low(1),
            item.low(2),
            item.low(3),
            item.low(4),
            0,
            0,
            0,
        ],
        high: [
            item.high(0),
            item.high(1),
            item.high(2),
            item.high(3),
            item.high(4),
            0,
            0,
            0,
        ],
    }
}

/// Whether two tracklets may be of one object, whether they are wanted, and the tests that this took.
fn of_two(
    alloc: Global,
    settings: &Settings,
    made_by: &Settings,
    first: Pair,
    second: Pair,
) -> Result<(bool, bool, u64), NoMemory> {
    let prune = PairPrune::new(*settings);
    let mut tally = Tally::zero();
    match (
        boxed(alloc, first, made_by)?,
        boxed(alloc, second, made_by)?,
    ) {
        (Some(a), Some(b)) => {
            let may = prune.may(&bounds_of(&a), &bounds_of(&b));
            let wanted = prune.wants(&a, &b, &mut tally);
            Ok((may, wanted, tally.tests))
        }
        _ => Ok((false, false, 9)),
    }
}

/// A tracklet of 100,000 in 10^-6 degree per day.
fn at(day: i64, ra: i64, dec: i64) -> Pair {
    let ra = ra.clamp(0, 359_000_000);
    Pair {
        day,
        ra,
        later_ra: ra + 1_000,
        dec,
    }
}

#[test]
fn two_tracklets(rt: HostRuntime) -> Result<(), NoMemory> {
    let usual = Settings::standard();
    let cases = [
        (at(0, 10_000_000, 0), at(1, 10_100_000, 0)),
        (at(1, 10_100_000, 0), at(0, 10_000_000, 0)),
        (at(0, 10_000_000, 0), at(1, 10_500_000, 0)),
        (
            at(0, 10_000_000, -60_000_000),
            at(1, 10_100_000, 60_000_000),
        ),
        (at(0, 10_000_000, 0), at(31, 13_100_000, 0)),
        (at(0, 10_000_000, 0), at(0, 10_000_000, 0)),
    ];
    let mut outcomes = [(false, false, 9); 6];
    for place in 0..6 {
        let (first, second) = cases[place];
        outcomes[place] = of_two(rt.alloc(), &usual, &usual, first, second)?;
    }
    let expected = [
        (true, true, 1),
        (false, false, 0),
        (false, false, 1),
        (false, false, 0),
        (true, false, 0),
        (true, false, 0),
    ];
    assert!(rt; outcomes == expected);
    Ok(())
}

/// Whether three tracklets may be of one object, whether they are wanted, and the tests that this took.
fn of_three(
    alloc: Global,
    settings: &Settings,
    pairs: [Pair; 3],
) -> Result<(bool, bool, u64), NoMemory> {
    let prune = TriplePrune::new(*settings);
    let mut tally = Tally::zero();
    match (
        boxed(alloc, pairs[0], settings)?,
        boxed(alloc, pairs[1], settings)?,
        boxed(alloc, pairs[2], settings)?,
    ) {
        (Some(a), Some(b), Some(c)) => {
            let may = prune.may(&bounds_of(&a), &bounds_of(&b), &bounds_of(&c));
            let wanted = prune.wants(&a, &b, &c, &mut tally);
            Ok((may, wanted, tally.tests))
        }
        _ => Ok((false, false, 9)),
    }
}

#[test]
fn three_tracklets(rt: HostRuntime) -> Result<(), NoMemory> {
    let usual = Settings::standard();
    let first = at(0, 10_000_000, 0);
    let second = at(1, 10_100_000, 0);
    let line = of_three(rt.alloc(), &usual, [first, second, at(2, 10_200_000, 0)])?;
    let astray = of_three(rt.alloc(), &usual, [first, second, at(2, 10_500_000, 0)])?;
    assert!(rt; line == (true, true, 1));
    assert!(rt; astray == (false, false, 1));
    Ok(())
}

/// Settings of these tolerances, with no acceleration.
fn unaccelerated(tol: i64) -> Settings {
    let tol = tol.clamp(0, 100_000);
    Settings {
        tol_ra: tol,
        tol_dec: tol,
        acc_ra: 0,
        acc_dec: 0,
        ..Settings::standard()
    }
}

#[test]
fn across_ra_zero_by_tolerance(rt: HostRuntime) -> Result<(), NoMemory> {
    let first = Pair {
        day: 0,
        ra: 359_950_000,
        later_ra: 359_951_000,
        dec: 0,
    };
    let second = Pair {
        day: 1,
        ra: 0,
        later_ra: 0,
        dec: 0,
    };
    let near = at(1, 50_000, 0);
    let least = unaccelerated(0);
    let greatest = unaccelerated(100_000);
    let usual = Settings::standard();
    let outcomes = [
        of_two(rt.alloc(), &greatest, &greatest, first, near)?,
        of_two(rt.alloc(), &greatest, &usual, first, near)?,
        of_two(rt.alloc(), &least, &least, first, second)?,
        of_two(rt.alloc(), &least, &least, at(0, 0, 0), at(1, 100_000, 0))?,
    ];
    let expected = [
        (true, true, 1),
        (true, false, 0),
        (false, false, 1),
        (true, true, 1),
    ];
    assert!(rt; outcomes == expected);
    Ok(())
}
