//! Sets of tracklets from sets of their numbers.
ghost use Rattle.std.specs.Prelude.{ℕ, List, ◌≡◌, ◌<◌, IfOk, length, map};
ghost use Rattle.std.specs.List.{All, Contains};
ghost use Rattle.closed_tracks.specs.InOneList.{AreOfSet, tracklets_numbered};

use sky_units::{NoMemory, TrackSet, Tracklet};
use std::alloc::Global;

/// The sets of tracklets of some sets of numbers, in their order. A number is a place in the list of
/// tracklets.
pub fn tracks_of(
    alloc: Global,
    tracklets: &[&Tracklet],
    sets: &[Vec<u32>],
) -> Result<Vec<TrackSet>, NoMemory>
    requires { All (AreOfSet (map (λ tracklet. tracklet.now) tracklets.now))
        (map (λ set. set.items) sets.now) }
    ensures { IfOk result (λ tracks. tracks.items ≡
        map (tracklets_numbered (map (λ tracklet. tracklet.now) tracklets.now))
        (map (λ set. set.items) sets.now)) }
{
    let mut tracks = Vec::with_capacity(alloc, sets.len())?;
    for set in sets {
        let copies = copies_of(alloc, tracklets, set.as_slice())?;
        tracks.push(TrackSet::of_rising(copies))?;
    }
    Ok(tracks)
}

/// Copies of the tracklets of these numbers.
fn copies_of(
    alloc: Global,
    tracklets: &[&Tracklet],
    numbers: &[u32],
) -> Result<Vec<Tracklet>, NoMemory>
    requires { All (λ number. number < length tracklets.now) numbers.now }
    ensures { IfOk result (λ copies. copies.items ≡
        tracklets_numbered (map (λ tracklet. tracklet.now) tracklets.now) numbers.now) }
{
    let mut copies = Vec::with_capacity(alloc, numbers.len())?;
    for number in numbers {
        copies.push(copy_of(alloc, tracklets[*number as usize])?)?;
    }
    Ok(copies)
}

/// A copy of a tracklet.
fn copy_of(alloc: Global, tracklet: &Tracklet) -> Result<Tracklet, NoMemory>
    ensures { IfOk result (λ copy. copy ≡ tracklet.now) }
{
    let spots = Vec::from_slice(alloc, tracklet.spots())?;
    Ok(Tracklet::of_rising(spots))
}
