//! The report list: the maximal tracks of the kept nights, sorted in canonical order.
ghost use Rattle.std.specs.Prelude.{◌≡◌, ◌++◌, ◌∷◌, [], IfOk, IsSome, MatchOption};
ghost use Rattle.std.specs.Option.{option_cmp};
ghost use Rattle.miti_text.specs.CanonicalOrder.{canonical_cmp};
ghost use Rattle.exposure_log.specs.Held.{held_at};
ghost use Rattle.sky_units.specs.TrackletData.{spots_of};
ghost use Rattle.window_incr.specs.Answers.{IsReportList, set_cmp};
ghost use Rattle.sky_units.specs.SettingsData.{SettingsData};
ghost use Rattle.window_incr.specs.Keeping.{AreResults};

use exposure_log::ExposureLog;
use kept_tracks::KeptTracks;
use night_tree::Night;
use sky_units::{NoMemory, Spot, TrackSet, Tracklet};
use std::alloc::Global;
use std::cmp::Ordering;

/// The report list of what is kept: the maximal tracks, in canonical order of their detections. They
/// are read, and not looked for.
pub(crate) fn listed(
    alloc: Global,
    log: &ExposureLog,
    nights: &[Night],
    kept: &KeptTracks,
) -> Result<Vec<TrackSet>, NoMemory>
    requires { (settings : SettingsData) × AreResults settings log.now nights.now kept.now }
    ensures { IfOk result (λ list. (settings : SettingsData) →
        AreResults settings log.now nights.now kept.now →
        IsReportList (record { settings = settings; log = log.now }) list.items) }
{
    let mut list = kept.maximal(alloc, nights)?;
    list.sort_by(|one, other| compare_sets(log, one, other))?;
    Ok(list)
}

/// How two sets of tracklets compare: detection by detection, in canonical order.
fn compare_sets(log: &ExposureLog, one: &TrackSet, other: &TrackSet) -> Ordering
    ensures { result ≡ set_cmp log.now one.now other.now }
{
    let mut left = SpotsLeft::of(one);
    let mut right = SpotsLeft::of(other);
    while let Some((spot, rest)) = left.next() {
        let Some((other_spot, other_rest)) = right.next() else {
            return Ordering::Greater;
        };
        let ordering = compare_detections(log, spot.num, other_spot.num);
        if ordering.is_ne() {
            return ordering;
        }
        left = rest;
        right = other_rest;
    }
    match right.next() {
        Some(_) => Ordering::Less,
        None => Ordering::Equal,
    }
}

/// How the held detections of two numbers compare in canonical order. A number without one stands
/// first.
#[tactic(auto, using(crate::proofs::ReportLists::itself))]
fn compare_detections(log: &ExposureLog, one: u32, other: u32) -> Ordering
    ensures { result ≡ option_cmp canonical_cmp (held_at log.now.exposures one)
        (held_at log.now.exposures other) }
{
    if one == other {
        return Ordering::Equal;
    }
    match (log.detection(one), log.detection(other)) {
        (None, None) => Ordering::Equal,
        (None, Some(_)) => Ordering::Less,
        (Some(_), None) => Ordering::Greater,
        (Some(_), Some(_)) => compare_held(log, one, other),
    }
}

/// How the detections of two held numbers compare in canonical order.
fn compare_held(log: &ExposureLog, one: u32, other: u32) -> Ordering
    requires one { IsSome (held_at log.now.exposures one) }
    requires other { IsSome (held_at log.now.exposures other) }
    ensures { result ≡ option_cmp canonical_cmp (held_at log.now.exposures one)
        (held_at log.now.exposures other) }
{
    if log.before(one, other) {
        return Ordering::Less;
    }
    if log.before(other, one) {
        return Ordering::Greater;
    }
    Ordering::Equal
}

/// What is left of the spots of a set: spots of a tracklet, and the tracklets after it.
#[derive(Clone, Copy)]
struct SpotsLeft<'a> {
    spots: &'a [Spot],
    tracklets: &'a [Tracklet],
}

impl<'a> SpotsLeft<'a> {
    /// All spots of a set.
    fn of(set: &'a TrackSet) -> SpotsLeft<'a>
        ensures { result.spots.now ++ spots_of result.tracklets.now ≡ spots_of set.now }
    {
        SpotsLeft {
            spots: &[],
            tracklets: set.tracklets(),
        }
    }

    /// The first spot that is left, and what is left after it.
    fn next(self) -> Option<(&'a Spot, SpotsLeft<'a>)>
        ensures { MatchOption result (self.entry.spots.now ++ spots_of self.entry.tracklets.now ≡
            []) (λ found. self.entry.spots.now ++ spots_of self.entry.tracklets.now ≡
            found.0.now ∷ (found.1.spots.now ++ spots_of found.1.tracklets.now)) }
    {
        if let Some((spot, spots)) = self.spots.split_first() {
            let tracklets = self.tracklets;
            return Some((spot, SpotsLeft { spots, tracklets }));
        }
        let (tracklet, tracklets) = self.tracklets.split_first()?;
        let (spot, spots) = tracklet.spots().split_first()?;
        Some((spot, SpotsLeft { spots, tracklets }))
    }
}
