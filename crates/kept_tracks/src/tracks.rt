//! Sets of tracklets from sets of their numbers.
ghost use Rattle.std.specs.Prelude.{◌≡◌, IfOk};
ghost use Rattle.std.specs.List.{All};
ghost use Rattle.set_grow.specs.Nights.{AreInPlace, by_night};
ghost use Rattle.set_grow.specs.Numbered.{AreTrackletsOf};
ghost use Rattle.set_grow.specs.Seats.{IsSeat, one_at, tracklets_at};
ghost use Rattle.kept_tracks.specs.Stages.{AreTracksInOrder, HasTracklets};

use kept_sets::Sets;
use set_grow::{NumberedNight, Place, Seat, seats_of};
use sky_units::{NoMemory, TrackSet, Tracklet};
use std::alloc::Global;

/// The tracklets of some sets of their numbers, in the order of the sets.
pub fn tracks_of(
    alloc: Global,
    nights: &[NumberedNight<'_>],
    table: &[Place],
    sets: Sets<'_>,
) -> Result<Vec<TrackSet>, NoMemory>
    requires place { AreInPlace nights.now table.now }
    requires sets { All (HasTracklets (by_night nights.now)) sets }
    ensures { IfOk result (λ tracks.
        AreTracksInOrder (by_night nights.now) sets.entry tracks.items) }
{
    let mut tracks = Vec::new(alloc);
    for set in sets {
        tracks.push(track_of(alloc, nights, table, set)?)?;
    }
    Ok(tracks)
}

/// The tracklets of a set of their numbers, in order of their nights.
fn track_of(
    alloc: Global,
    nights: &[NumberedNight<'_>],
    table: &[Place],
    numbers: &[u32],
) -> Result<TrackSet, NoMemory>
    requires place { AreInPlace nights.now table.now }
    requires set { HasTracklets (by_night nights.now) numbers.now }
    ensures { IfOk result (λ track. AreTrackletsOf (by_night nights.now) numbers.now track) }
{
    match seats_of(alloc, nights, table, numbers)? {
        Some(seats) => {
            let copies = copies_at(alloc, nights, seats.as_slice())?;
            Ok(TrackSet::of_rising(copies))
        }
        None => unreachable!(),
    }
}

/// Copies of the tracklets at some seats.
fn copies_at(
    alloc: Global,
    nights: &[NumberedNight<'_>],
    seats: &[Seat],
) -> Result<Vec<Tracklet>, NoMemory>
    requires { All (IsSeat nights.now) seats.now }
    ensures { IfOk result (λ copies. copies.items ≡ tracklets_at nights.now seats.now) }
{
    let mut copies = Vec::with_capacity(alloc, seats.len())?;
    for seat in seats {
        copies.push(copy_at(alloc, nights, *seat)?)?;
    }
    Ok(copies)
}

/// A copy of the tracklet at a seat.
fn copy_at(alloc: Global, nights: &[NumberedNight<'_>], seat: Seat) -> Result<Tracklet, NoMemory>
    requires { IsSeat nights.now seat }
    ensures { IfOk result (λ copy. copy ≡ (one_at nights.now seat).tracklet) }
{
    let tracklet = &nights[seat.night].tracklets()[seat.place];
    let spots = Vec::from_slice(alloc, tracklet.spots())?;
    Ok(Tracklet::of_rising(spots))
}
