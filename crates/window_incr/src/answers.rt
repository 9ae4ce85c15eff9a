//! Tracklets and tracks as they are answered: by the ids of their detections.
ghost use Rattle.std.specs.Prelude.{◌≡◌, ◌≤◌, ◌++◌, OnOk, IfOk, length, map};
ghost use Rattle.std.specs.List.{All};
ghost use Rattle.sky_units.specs.Arcs.{IsArc};
ghost use Rattle.sky_units.specs.Motion.{AxisAdmits};
ghost use Rattle.sky_units.specs.Reported.{IsReported};
ghost use Rattle.miti_text.specs.ValidReports.{IsValidQuad};
ghost use Rattle.window_incr.specs.Answers.{AreTracksOf, CanBeTold, HasValidQuads, IsPosition, IsTrackOf, ids_of, id_of_number};

use exposure_log::ExposureLog;
use quad_fit::reported;
use sky_units::{
    Axis, Groups, NoMemory, Quad, Settings, Spot, Track, TrackSet, Tracklet, Tracks, Word, Words,
    joined_spots,
};
use std::alloc::Global;

/// The ids of each of some tracklets.
#[tactic(auto, using(crate::proofs::Steps::map_one_more))]
pub(crate) fn groups_of(
    alloc: Global,
    log: &ExposureLog,
    tracklets: &[Tracklet],
) -> Result<Groups, NoMemory>
    ensures { IfOk result (λ groups. groups ≡ map (ids_of log.now) tracklets.now) }
{
    let mut groups = Groups::new(alloc);
    for tracklet in tracklets {
        let mut ids = Words::new(alloc);
        push_ids(&mut ids, alloc, log, tracklet.spots())?;
        groups.push(ids)?;
    }
    Ok(groups)
}

/// Each of some sets of tracklets as a track.
pub(crate) fn tracks_of(
    alloc: Global,
    log: &ExposureLog,
    settings: &Settings,
    sets: &[TrackSet],
) -> Result<Tracks, NoMemory>
    requires told { All (CanBeTold settings.now) sets.now }
    ensures tracks { IfOk result (AreTracksOf
        (record { settings = settings.now; log = log.now }) sets.now) }
    ensures valid { IfOk result (All HasValidQuads) }
{
    let mut tracks = Tracks::new(alloc);
    for set in sets {
        tracks.push(track_of(alloc, log, settings, set)?)?;
    }
    Ok(tracks)
}

/// A set of tracklets as a track.
fn track_of(
    alloc: Global,
    log: &ExposureLog,
    settings: &Settings,
    set: &TrackSet,
) -> Result<Track, NoMemory>
    requires told { CanBeTold settings.now set.now }
    ensures track { IfOk result (IsTrackOf
        (record { settings = settings.now; log = log.now }) set.now) }
    ensures valid { IfOk result HasValidQuads }
{
    let spots = joined_spots(alloc, set.tracklets())?;
    let mut ids = Words::new(alloc);
    push_ids(&mut ids, alloc, log, spots.as_slice())?;
    Ok(Track {
        nights: set.tracklets().len() as u32,
        ids,
        ra: quad_of(spots.as_slice(), Axis::Ra, settings),
        dec: quad_of(spots.as_slice(), Axis::Dec, settings),
    })
}

/// The reported quadratic of spots on an axis.
fn quad_of(spots: &[Spot], axis: Axis, settings: &Settings) -> Quad
    requires arc { IsArc spots.now }
    requires two { 2 ≤ length spots.now }
    requires admitted { AxisAdmits axis settings.now spots.now }
    ensures reported { IsReported axis settings.now spots.now result }
    ensures valid { IsValidQuad (IsPosition axis) result }
{
    // The base is the first position, and the start lies between the first and the last epoch.
    let first = &spots[0];
    let last = &spots[spots.len() - 1];
    let _ends = (first.epoch, last.epoch);
    let quad = reported(spots, axis, settings);
    let _ = &quad.den;
    quad
}

/// Adds the ids of some spots.
#[tactic(auto, using(crate::proofs::Steps::map_one_more))]
fn push_ids(
    ids: &mut Words,
    alloc: Global,
    log: &ExposureLog,
    spots: &[Spot],
) -> Result<(), NoMemory>
    ensures { OnOk result (ids.new ≡ ids.old ++ ids_of log.now spots.now) }
{
    for spot in spots {
        ids.push(id_of(alloc, log, spot.num)?)?;
    }
    Ok(())
}

/// The id of the held detection of a number. It is empty where there is none.
fn id_of(alloc: Global, log: &ExposureLog, number: u32) -> Result<Word, NoMemory>
    ensures { IfOk result (λ id. id ≡ id_of_number log.now number) }
{
    match log.detection(number) {
        Some(detection) => detection.id.clone(),
        None => Word::new(alloc, &[]),
    }
}
