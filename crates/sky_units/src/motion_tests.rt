//! Angles, arcs, tracklets, settings and lists, on plain values.
use crate::{
    Axis, Frac, Groups, Places, Quad, Report, SetError, Settings, Spot, Track, TrackSet, Tracklet,
    Tracks, Word, Words, is_arc, is_arc_joined, joined_len, joined_spot, lift,
    lifted_differences_agree, offset, origin_is_free, reported_is_unique, spots_at, spread_fault,
};
use std::cmp::Ordering;
use std::test::Fail;

/// A spot at declination 5 degrees.
fn spot(num: u32, epoch: i64, ra: i64) -> Spot {
    Spot {
        num,
        epoch: epoch.max(0).min(200_000_000_000),
        ra: ra.max(0).min(359_999_999),
        dec: 5_000_000,
    }
}

#[test]
fn fractions_compare_by_value(rt: HostRuntime) -> Result<(), Fail> {
    let half = Frac::new(-3, 6).ok_or("in bounds")?;
    let third = Frac::new(-1, 3).ok_or("in bounds")?;
    assert_eq!(rt; half.compare(&third), Ordering::Less);
    assert_eq!(rt; third.compare(&half), Ordering::Greater);
    let lowest = half.lowest_terms();
    assert_eq!(rt; (lowest.num, lowest.den), (-1, 2));
    assert_eq!(rt; half.compare(&lowest), Ordering::Equal);
    assert!(rt; Frac::new(10_000_000_000_000_001, 1).is_none());
    assert!(rt; Frac::new(0, 0).is_none());
    Ok(())
}

#[test]
fn spots_too_far_apart(rt: HostRuntime) {
    let near = [
        spot(7, 0, 359_990_000),
        spot(8, 1, 44_990_000),
        spot(9, 2, 89_989_999),
    ];
    let far = [
        spot(7, 0, 359_990_000),
        spot(8, 1, 44_990_000),
        spot(9, 2, 89_990_000),
    ];
    let here = spot(7, 0, 359_990_000);
    let there = spot(9, 2, 89_989_999);
    assert_eq!(rt; offset(Axis::Ra, &here, &there), 89_999_999);
    assert!(rt; is_arc(&near));
    assert!(rt; spread_fault(&near).is_none());
    assert!(rt; !is_arc(&far));
    assert_eq!(rt; spread_fault(&far), Some((Axis::Ra, 7, 9)));
}

#[test]
fn arcs_rise_within_thirty_days(rt: HostRuntime) {
    let first = [spot(0, 1_000, 0)];
    let last = [spot(1, 30_000_999, 0)];
    let late = [spot(2, 30_001_000, 0)];
    assert!(rt; is_arc(&[]));
    assert!(rt; is_arc_joined(&first, &[], &last));
    assert!(rt; !is_arc_joined(&first, &late, &[]));
    assert!(rt; !is_arc_joined(&last, &[], &first));
    assert_eq!(rt; joined_len(&first, &last, &late), 3);
    assert_eq!(rt; joined_spot(&first, &last, &late, 2).num, 2);
}

#[test]
fn tracklets_follow_one_another(rt: HostRuntime) -> Result<(), Fail> {
    let early = vec![in rt.alloc(); spot(0, 10, 0), spot(1, 20, 0)]?;
    let late = vec![in rt.alloc(); spot(2, 30, 0), spot(3, 40, 0)]?;
    let falling = vec![in rt.alloc(); spot(4, 60, 0), spot(5, 50, 0)]?;
    let early = Tracklet::from_spots(early).ok_or("rising")?;
    let late = Tracklet::from_spots(late).ok_or("rising")?;
    assert!(rt; Tracklet::from_spots(falling).is_none());
    assert_eq!(rt; early.spots().len(), 2);
    let set = TrackSet::from_tracklets(vec![in rt.alloc(); early, late]?).ok_or("rising")?;
    assert_eq!(rt; set.tracklets().len(), 2);
    Ok(())
}

#[test]
fn tracklets_that_overlap_in_time(rt: HostRuntime) -> Result<(), Fail> {
    let first = vec![in rt.alloc(); spot(0, 10, 0), spot(1, 30, 0)]?;
    let second = vec![in rt.alloc(); spot(2, 30, 0), spot(3, 40, 0)]?;
    let first = Tracklet::from_spots(first).ok_or("rising")?;
    let second = Tracklet::from_spots(second).ok_or("rising")?;
    assert!(rt; TrackSet::from_tracklets(vec![in rt.alloc(); first, second]?).is_none());
    Ok(())
}

#[test]
fn spots_at_their_places(rt: HostRuntime) -> Result<(), Fail> {
    let spots = [spot(7, 0, 0), spot(8, 1, 0), spot(9, 2, 0)];
    let found = spots_at(rt.alloc(), &spots, &[2, 0])?;
    assert_eq!(rt; found.len(), 2);
    assert_eq!(rt; found[0].num, 9);
    assert_eq!(rt; found[1].num, 7);
    Ok(())
}

#[test]
fn right_ascensions_lifted_over_zero(rt: HostRuntime) {
    lifted_differences_agree();
    origin_is_free();
    reported_is_unique();
    assert_eq!(rt; lift(359_990_000, 10_000), 360_010_000);
    assert_eq!(rt; lift(10_000, 359_990_000), -10_000);
    assert_eq!(rt; lift(10_000_000, 20_000_000), 20_000_000);
    assert_eq!(rt; lift(0, 180_000_000), -180_000_000);
    assert_eq!(rt; lift(0, 179_999_999), 179_999_999);
}

#[test]
fn lists_keep_what_is_pushed(rt: HostRuntime) -> Result<(), Fail> {
    let mut places = Places::new(rt.alloc());
    assert_eq!(rt; places.items().len(), 0);
    places.push(7)?;
    places.push(0)?;
    assert_eq!(rt; places.items(), [7, 0].as_slice());
    let again = Places::of(places.into_items());
    assert_eq!(rt; again.items(), [7, 0].as_slice());
    let mut groups = Groups::new(rt.alloc());
    let mut words = Words::new(rt.alloc());
    words.push(Word::new(rt.alloc(), b"seventeen_bytes_x")?)?;
    groups.push(words)?;
    let words = groups.items().first().ok_or("one group")?;
    let word = words.items().first().ok_or("one word")?;
    assert_eq!(rt; word.bytes(), b"seventeen_bytes_x".as_slice());
    Ok(())
}

#[test]
fn settings_by_name(rt: HostRuntime) -> Result<(), Fail> {
    let names = [
        b"tol_ra".as_slice(),
        b"tol_dec".as_slice(),
        b"acc_ra".as_slice(),
        b"acc_dec".as_slice(),
        b"rate_ra".as_slice(),
        b"rate_dec".as_slice(),
        b"line_tol".as_slice(),
        b"purge_tol".as_slice(),
        b"pair_gap".as_slice(),
        b"night_shift".as_slice(),
        b"stages".as_slice(),
    ];
    let mut settings = Settings::standard();
    for name in names {
        settings.set(name, 1)?;
        assert_eq!(rt; settings.set(name, -1), Err(SetError::Range));
    }
    assert_eq!(rt; settings.set(b"tolerance", 5), Err(SetError::Name));
    assert_eq!(rt; settings.set(b"tol_ra", 100_001), Err(SetError::Range));
    assert_eq!(rt; settings.set(b"stages", 4), Err(SetError::Range));
    assert_eq!(rt; settings.tol_ra, 1);
    assert_eq!(rt; settings.rate_dec, 1);
    Ok(())
}

#[test]
fn a_report_of_one_track(rt: HostRuntime) -> Result<(), Fail> {
    let mut ids = Words::new(rt.alloc());
    ids.push(Word::new(rt.alloc(), b"a1")?)?;
    let mut tracks = Tracks::new(rt.alloc());
    let ra = Quad {
        base: 10_000_000,
        start: 59_001_260_000,
        den: 1,
        p: 0,
        v: 0,
        q: 0,
    };
    tracks.push(Track {
        nights: 3,
        ids,
        ra,
        dec: ra,
    })?;
    let report = Report {
        window: Some((59_000, 59_015)),
        tracks,
    };
    assert_eq!(rt; report.tracks.items().len(), 1);
    Ok(())
}
