//! The maximal tracks of some nights.
ghost use Rattle.std.specs.Prelude.{◌≡◌, ◌≤◌, ◌↔◌, IfOk, length, map};
ghost use Rattle.std.specs.List.{Contains};
ghost use Rattle.sky_math.specs.Lists.{EachTwo};
ghost use Rattle.sky_units.specs.TrackletData.{TrackSetData};
ghost use Rattle.sky_units.specs.Tracks.{AreMaximalTracks, AreNights, numbers_of};
ghost use Rattle.night_tree.specs.Nights.{tracklets_of_each};
ghost use Rattle.plain_tracks.specs.Numbers.{AreKnownByNumbers, HaveDifferentNumbers, IsMaximalAmong};

use crate::growing::fitting_sets;
use crate::maximal::{is_maximal, longest, numbers, numbers_of_each};
use night_tree::Night;
use sky_units::{NoMemory, Settings, TrackSet};
use std::alloc::Global;
use std::collections::BTreeMap;

/// The maximal tracks of some nights, each once, in no order that is promised.
///
/// The nights follow one another within the time of an arc, and no two spots have one number.
pub fn maximal_tracks(
    alloc: Global,
    nights: &[Night],
    settings: &Settings,
) -> Result<Vec<TrackSet>, NoMemory>
    requires { AreNights (tracklets_of_each nights.now) }
    ensures { IfOk result (λ list.
        AreMaximalTracks settings.now (tracklets_of_each nights.now) list.items) }
{
    let sets = fitting_sets(alloc, nights, settings)?;
    maximal_among(alloc, of_three_nights(sets))
}

/// The sets of three or more tracklets, those that were found last first.
fn of_three_nights(sets: Vec<TrackSet>) -> Vec<TrackSet>
    ensures { (set : TrackSetData) →
        Contains result.items set ↔ (Contains sets.items set × (3 ≤ length set)) }
{
    let mut tracks = sets;
    tracks.retain(|set| set.tracklets().len() >= 3);
    // Sets of many nights were found last. With these first, what they contain is soon seen as such.
    tracks.reverse();
    tracks
}

/// The tracks whose spots no other track properly contains, each once.
fn maximal_among(alloc: Global, tracks: Vec<TrackSet>) -> Result<Vec<TrackSet>, NoMemory>
    requires known { AreKnownByNumbers tracks.items }
    requires different { HaveDifferentNumbers tracks.items }
    ensures once { IfOk result (λ list. EachTwo (λ one other. one ≡ other → ⊥) list.items) }
    ensures listed { IfOk result (λ list. (set : TrackSetData) →
        Contains list.items set ↔
        (Contains tracks.items set ×
        IsMaximalAmong (map numbers_of tracks.items) (numbers_of set))) }
{
    let lists = numbers_of_each(alloc, tracks.as_slice())?;
    let most = longest(lists.as_slice());
    let mut listed = BTreeMap::new(alloc);
    for set in tracks {
        let key = numbers(alloc, &set)?;
        if is_maximal(key.as_slice(), lists.as_slice(), most) {
            listed.insert(key, set)?;
        }
    }
    listed.into_values().collect(alloc)
}
