//! Nights of one object, of none, of boxes with other tolerances, and of many objects near right
//! ascension 0.

use super::*;
use bound_prune::TrackletBox;
use box_tree::Tree;
use quad_fit::fits_joined;
use sky_units::{NoMemory, Settings, Spot, Tally, Tracklet, is_arc_joined};
use std::alloc::Global;

/// A spot at 5 degrees of declination, so many nights and ticks after the first.
fn spot(night: u8, ticks: u32, ra: u32) -> Spot {
    Spot {
        num: 0,
        epoch: 59_000_250_000 + i64::from(night) * 1_000_000 + i64::from(ticks),
        ra: i64::from(ra).min(359_999_999),
        dec: 5_000_000,
    }
}

/// The tree of tracklets of two spots, 20,000 ticks apart, by the right ascensions of each.
fn tree_of(
    alloc: Global,
    night: u8,
    rows: &[(u32, u32)],
    settings: &Settings,
) -> Result<Tree<TrackletBox>, NoMemory> {
    let mut boxes = Vec::new(alloc);
    for row in rows {
        let spots = vec![in alloc; spot(night, 0, row.0), spot(night, 20_000, row.1)]?;
        if let Some(tracklet) = Tracklet::from_spots(spots) {
            boxes.push(TrackletBox::make(tracklet, settings))?;
        }
    }
    Tree::build(alloc, boxes)
}

/// The seeds of three nights under the standard settings, and how many tests were counted, as a
/// text. Each night has a tracklet, whose boxes are made with other settings.
fn told(
    alloc: Global,
    nights: [u8; 3],
    rows: [(u32, u32); 3],
    settings: &Settings,
) -> Result<String, NoMemory> {
    let a = tree_of(alloc, nights[0], &rows[..1], settings)?;
    let b = tree_of(alloc, nights[1], &rows[1..2], settings)?;
    let c = tree_of(alloc, nights[2], &rows[2..], settings)?;
    let mut tally = Tally::zero();
    let found = seeds(alloc, &a, &b, &c, &Settings::standard(), &mut tally)?;
    let tests = tally.tests;
    format!(in alloc; "{found:?} {tests}")
}

/// One object that moves 0.1 degree in a night.
const THREE_NIGHTS: [(u32, u32); 3] = [
    (10_000_000, 10_002_000),
    (10_100_000, 10_102_000),
    (10_200_000, 10_202_000),
];

#[test]
fn three_nights_of_one_object(rt: HostRuntime) -> Result<(), NoMemory> {
    let alloc = rt.alloc();
    let settings = Settings::standard();
    let three_nights = told(alloc, [0, 1, 2], THREE_NIGHTS, &settings)?;
    assert_eq!(rt; three_nights.as_str(), "[(0, 0, 0)] 1");
    let across_ra_zero = [
        (359_990_000, 359_992_000),
        (90_000, 92_000),
        (190_000, 192_000),
    ];
    let across_ra_zero = told(alloc, [0, 1, 2], across_ra_zero, &settings)?;
    assert_eq!(rt; across_ra_zero.as_str(), "[(0, 0, 0)] 1");
    let rest_of_the_window = [
        (10_100_000, 10_102_000),
        (10_200_000, 10_202_000),
        (10_300_000, 10_302_000),
    ];
    let rest_of_the_window = told(alloc, [1, 2, 3], rest_of_the_window, &settings)?;
    assert_eq!(rt; rest_of_the_window.as_str(), "[(0, 0, 0)] 1");
    Ok(())
}

#[test]
fn no_three_nights_in_order(rt: HostRuntime) -> Result<(), NoMemory> {
    let alloc = rt.alloc();
    let settings = Settings::standard();
    let turned_round = told(alloc, [2, 1, 0], THREE_NIGHTS, &settings)?;
    assert_eq!(rt; turned_round.as_str(), "[] 0");
    let of_one_night = told(alloc, [1, 1, 1], THREE_NIGHTS, &settings)?;
    assert_eq!(rt; of_one_night.as_str(), "[] 0");
    let months_apart = told(alloc, [0, 30, 60], THREE_NIGHTS, &settings)?;
    assert_eq!(rt; months_apart.as_str(), "[] 0");
    Ok(())
}

#[test]
fn boxes_of_other_tolerances(rt: HostRuntime) -> Result<(), NoMemory> {
    let alloc = rt.alloc();
    let narrow = Settings {
        tol_ra: 0,
        ..Settings::standard()
    };
    let narrow = told(alloc, [0, 1, 2], THREE_NIGHTS, &narrow)?;
    assert_eq!(rt; narrow.as_str(), "[] 0");
    let wide = Settings {
        tol_dec: 100_000,
        ..Settings::standard()
    };
    let wide = told(alloc, [0, 1, 2], THREE_NIGHTS, &wide)?;
    assert_eq!(rt; wide.as_str(), "[] 0");
    Ok(())
}

#[test]
fn empty_trees(rt: HostRuntime) -> Result<(), NoMemory> {
    let alloc = rt.alloc();
    let settings = Settings::standard();
    let none = tree_of(alloc, 1, &[], &settings)?;
    let one = tree_of(alloc, 0, &THREE_NIGHTS[..1], &settings)?;
    let mut tally = Tally::zero();
    assert!(rt; seeds(alloc, &none, &none, &none, &settings, &mut tally)?.is_empty());
    assert!(rt; seeds(alloc, &one, &none, &none, &settings, &mut tally)?.is_empty());
    assert_eq!(rt; tally.tests, 0);
    Ok(())
}

/// The tree of twenty objects that stand 8,000 units of right ascension apart, on both sides of 0 in
/// the first night. They are more than a leaf has.
fn crowd(alloc: Global, night: u8, settings: &Settings) -> Result<Tree<TrackletBox>, NoMemory> {
    let mut rows = Vec::new(alloc);
    for i in 0..20 {
        let ra = 359_970_000 + 8_000 * i + 100_000 * u32::from(night);
        rows.push((ra % 360_000_000, (ra + 2_000) % 360_000_000))?;
    }
    tree_of(alloc, night, rows.as_slice(), settings)
}

/// The triples of places of three nights whose tracklets, one after the other, are an arc that fits:
/// each is tested.
fn all_fitting(
    alloc: Global,
    a: &[TrackletBox],
    b: &[TrackletBox],
    c: &[TrackletBox],
    settings: &Settings,
) -> Result<Vec<(usize, usize, usize)>, NoMemory> {
    let mut found = Vec::new(alloc);
    for i in 0..a.len() {
        for j in 0..b.len() {
            for k in 0..c.len() {
                if fit(&a[i], &b[j], &c[k], settings) {
                    found.push((i, j, k))?;
                }
            }
        }
    }
    Ok(found)
}

/// Whether the spots of three tracklets, one tracklet after the other, are an arc that fits.
fn fit(a: &TrackletBox, b: &TrackletBox, c: &TrackletBox, settings: &Settings) -> bool {
    let first = a.tracklet().spots();
    let second = b.tracklet().spots();
    let third = c.tracklet().spots();
    is_arc_joined(first, second, third)
        && fits_joined(first, second, third, settings, &mut Tally::zero())
}

#[test]
fn as_a_plain_triple_loop(rt: HostRuntime) -> Result<(), NoMemory> {
    let alloc = rt.alloc();
    let settings = Settings::standard();
    let a = crowd(alloc, 0, &settings)?;
    let b = crowd(alloc, 1, &settings)?;
    let c = crowd(alloc, 3, &settings)?;
    let mut tally = Tally::zero();
    let found = seeds(alloc, &a, &b, &c, &settings, &mut tally)?;
    let plain = all_fitting(alloc, a.items(), b.items(), c.items(), &settings)?;
    assert_eq!(rt; found.as_slice(), plain.as_slice());
    assert!(rt; 20 < found.len());
    assert!(rt; found.len() < 8_000);
    Ok(())
}

#[test]
fn laws_do_nothing(_rt: HostRuntime) {
    fitting_triples_are_fitting_sets();
}
