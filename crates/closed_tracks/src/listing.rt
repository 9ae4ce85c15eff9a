//! The maximal tracks of some nights.
ghost use Rattle.std.specs.Prelude.{◌≡◌, ◌<ℤ◌, IfOk};
ghost use Rattle.std.specs.List.{All};
ghost use Rattle.sky_math.specs.Lists.{EachTwo};
ghost use Rattle.sky_units.specs.Tracks.{AreMaximalTracks, AreNights};
ghost use Rattle.night_tree.specs.Nights.{tracklets_of_each};
ghost use Rattle.closed_tracks.specs.Candidates.{AreCandidates};

use crate::numbering::{numbered, numbers_below, places_of, tracklets_of};
use crate::tracks::tracks_of;
use night_tree::Night;
use set_grow::{grow_numbered, maximal_tracks_are_closed};
use sky_units::{NoMemory, Settings, Tally, TrackSet};
use std::alloc::Global;
use subset_drop::drop_subsets;

/// The fewest nights of a track.
const FEWEST_NIGHTS: usize = 3;

/// The maximal tracks of some nights, each once, in no order that is promised.
///
/// The nights follow one another within the time of an arc, their numbers rise, no two spots have one
/// number, and no night has a tracklet twice. The only error is want of memory: 2^32 or more
/// tracklets are refused as such, since the lists of them would not find room.
pub fn maximal_tracks(
    alloc: Global,
    nights: &[Night],
    settings: &Settings,
) -> Result<Vec<TrackSet>, NoMemory>
    requires follow { AreNights (tracklets_of_each nights.now) }
    requires rising { EachTwo (λ one later. one.number <ℤ later.number) nights.now }
    requires different { All (EachTwo (λ one other. one ≡ other → ⊥))
        (tracklets_of_each nights.now) }
    ensures { IfOk result (λ list.
        AreMaximalTracks settings.now (tracklets_of_each nights.now) list.items) }
{
    if nights.len() < FEWEST_NIGHTS {
        return Ok(Vec::new(alloc));
    }
    let tracks = closed_tracks(alloc, nights, settings)?;
    drop_subsets(alloc, tracks)
}

/// The tracks of the closed sets of three or more tracklets. The spots of one may lie in those of
/// another, where tracklets of one night share spots.
fn closed_tracks(
    alloc: Global,
    nights: &[Night],
    settings: &Settings,
) -> Result<Vec<TrackSet>, NoMemory>
    requires follow { AreNights (tracklets_of_each nights.now) }
    requires rising { EachTwo (λ one later. one.number <ℤ later.number) nights.now }
    requires different { All (EachTwo (λ one other. one ≡ other → ⊥))
        (tracklets_of_each nights.now) }
    ensures { IfOk result (λ tracks.
        AreCandidates settings.now (tracklets_of_each nights.now) tracks.items) }
{
    // A law: the maximal tracks are among those of the closed sets.
    maximal_tracks_are_closed();
    let tracklets = tracklets_of(alloc, nights)?;
    let places = places_of(alloc, nights)?;
    let numbers = numbers_below(alloc, tracklets.len())?;
    let numbered = numbered(alloc, nights, numbers.as_slice())?;
    let mut tally = Tally::zero();
    let sets = grow_numbered(
        alloc,
        numbered.as_slice(),
        places.as_slice(),
        numbers.as_slice(),
        settings,
        &mut tally,
    )?;
    tracks_of(alloc, tracklets.as_slice(), sets.as_slice())
}
