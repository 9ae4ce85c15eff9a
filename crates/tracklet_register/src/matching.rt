//! Which tracklets of a night were there before.
ghost use Rattle.std.specs.Prelude.{ℕ, ◌≡◌, ◌<◌, ◌↔◌, Some, IfOk, IsTrue, MatchOption, length, slice_get};
ghost use Rattle.std.specs.Cmp.Lexicographic.{slice_cmp};
ghost use Rattle.std.specs.BTreeMap.{get_by};
ghost use Rattle.std.specs.List.{Contains};
ghost use Rattle.std.specs.Ordering.{nat_cmp};
ghost use Rattle.sky_units.specs.TrackletData.{TrackletData};
ghost use Rattle.set_grow.specs.Nights.{numbered_by};
ghost use Rattle.tracklet_register.specs.Replacing.{HaveDifferentLabels, labels_of};

use sky_units::{NoMemory, Spot, Tracklet};
use std::alloc::Global;
use std::collections::BTreeMap;

/// The place of each tracklet, by the labels of its spots.
pub fn places_of(
    alloc: Global,
    tracklets: &[Tracklet],
) -> Result<BTreeMap<Vec<u32>, usize>, NoMemory>
    ensures { IfOk result (λ places. HaveDifferentLabels tracklets.now →
        (place : ℕ) (tracklet : TrackletData) → slice_get tracklets.now place ≡ Some tracklet →
        get_by (λ key. slice_cmp nat_cmp (labels_of tracklet) key.items) places ≡ Some place) }
{
    let mut places = BTreeMap::new(alloc);
    for place in 0..tracklets.len() {
        let labels = labels_of(alloc, tracklets[place].spots())?;
        places.insert(labels, place)?;
    }
    Ok(places)
}

/// The number of an equal tracklet among some with numbers. `places` leads to each of them, where
/// their labels differ.
pub fn number_of(
    alloc: Global,
    places: &BTreeMap<Vec<u32>, usize>,
    tracklets: &[Tracklet],
    numbers: &[u32],
    tracklet: &Tracklet,
) -> Result<Option<u32>, NoMemory>
    requires size { length numbers.now ≡ length tracklets.now }
    requires places { HaveDifferentLabels tracklets.now → (place : ℕ) (other : TrackletData) →
        slice_get tracklets.now place ≡ Some other →
        get_by (λ key. slice_cmp nat_cmp (labels_of other) key.items) places.now ≡ Some place }
    ensures { IfOk result (λ found. MatchOption found
        (HaveDifferentLabels tracklets.now → ¬ (Contains tracklets.now tracklet.now))
        (λ number. Contains (numbered_by numbers.now tracklets.now)
        (record { num = number; tracklet = tracklet.now }))) }
{
    let labels = labels_of(alloc, tracklet.spots())?;
    let place = places.get(labels.as_slice()).copied();
    Ok(number_at(place, tracklets, numbers, tracklet))
}

/// The number at a place, where an equal tracklet stands there.
fn number_at(
    place: Option<usize>,
    tracklets: &[Tracklet],
    numbers: &[u32],
    tracklet: &Tracklet,
) -> Option<u32>
    requires { length numbers.now ≡ length tracklets.now }
    ensures { MatchOption result
        ((here : ℕ) → place ≡ Some here → slice_get tracklets.now here ≡ Some tracklet.now → ⊥)
        (λ number. (here : ℕ) × (slice_get tracklets.now here ≡ Some tracklet.now) ×
        (slice_get numbers.now here ≡ Some number)) }
{
    let here = place?;
    if here >= tracklets.len() {
        return None;
    }
    if !are_equal(tracklets[here].spots(), tracklet.spots()) {
        return None;
    }
    Some(numbers[here])
}

/// Whether spots are the same.
pub fn are_equal(spots: &[Spot], others: &[Spot]) -> bool
    ensures { IsTrue result ↔ (spots.now ≡ others.now) }
{
    if spots.len() != others.len() {
        return false;
    }
    for place in 0..spots.len() {
        if !is_same(&spots[place], &others[place]) {
            return false;
        }
    }
    true
}

/// Whether two spots are the same.
fn is_same(one: &Spot, other: &Spot) -> bool
    ensures { IsTrue result ↔ (one.now ≡ other.now) }
{
    one == other
}

/// The labels of spots.
fn labels_of(alloc: Global, spots: &[Spot]) -> Result<Vec<u32>, NoMemory>
    ensures { IfOk result (λ labels. labels.items ≡ labels_of spots.now) }
{
    spots.iter().map(|spot| spot.num).collect(alloc)
}
