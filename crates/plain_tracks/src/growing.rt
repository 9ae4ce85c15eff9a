//! The fitting sets of some nights. They grow night by night: what is left of a fitting set without
//! its last tracklet fits too, so each grows out of one that was found before.
ghost use Rattle.std.specs.Prelude.{◌≡◌, ◌++◌, ◌∷◌, [], ◌⊎◌, ◌↔◌, IsTrue, IfOk, OnOk};
ghost use Rattle.std.specs.List.{Contains};
ghost use Rattle.sky_units.specs.TrackletData.{TrackSetData, IsTrackSet};
ghost use Rattle.night_tree.specs.Nights.{tracklets_of_each};
ghost use Rattle.sky_units.specs.Tracks.{AreNights, IsFittingSet};
ghost use Rattle.plain_tracks.specs.Growth.{AreTestable, FitTogether, MayGrow, IsGrown, IsSomeGrown};

use night_tree::Night;
use quad_fit::fits_joined;
use sky_units::{NoMemory, Settings, Spot, Tally, TrackSet, Tracklet, is_arc_joined, joined_spots};
use std::alloc::Global;

/// The fitting sets of some nights.
pub fn fitting_sets(
    alloc: Global,
    nights: &[Night],
    settings: &Settings,
) -> Result<Vec<TrackSet>, NoMemory>
    requires { AreNights (tracklets_of_each nights.now) }
    ensures { IfOk result (λ sets. (set : TrackSetData) →
        Contains sets.items set ↔ IsFittingSet settings.now (tracklets_of_each nights.now) set) }
{
    // The set of no tracklets fits, since no greatest acceleration is negative.
    let _ = &settings.acc_ra;
    let mut tally = Tally::zero();
    let mut sets = no_tracklets(alloc)?;
    for night in nights {
        sets = grow(alloc, sets, night.tracklets(), settings, &mut tally)?;
    }
    Ok(sets)
}

/// The set of no tracklets, alone.
fn no_tracklets(alloc: Global) -> Result<Vec<TrackSet>, NoMemory>
    ensures { IfOk result (λ sets. sets.items ≡ [] ∷ []) }
{
    let sets = vec![in alloc; TrackSet::of_rising(Vec::new(alloc))]?;
    Ok(sets)
}

/// Some sets, and each fitting set of one of them and a tracklet of the next night.
fn grow(
    alloc: Global,
    sets: Vec<TrackSet>,
    night: &[Tracklet],
    settings: &Settings,
    tally: &mut Tally,
) -> Result<Vec<TrackSet>, NoMemory>
    requires { (set : TrackSetData) → Contains sets.items set → MayGrow set night.now }
    ensures { IfOk result (λ all. (other : TrackSetData) →
        Contains all.items other ↔
        (Contains sets.items other ⊎ IsSomeGrown settings.now sets.items night.now other)) }
{
    let mut all = sets;
    let mut grown = Vec::new(alloc);
    for set in all.as_slice() {
        push_grown(alloc, set.tracklets(), night, settings, tally, &mut grown)?;
    }
    all.append(&mut grown)?;
    Ok(all)
}

/// Adds each fitting set of some tracklets and one of the next night.
fn push_grown(
    alloc: Global,
    set: &[Tracklet],
    night: &[Tracklet],
    settings: &Settings,
    tally: &mut Tally,
    grown: &mut Vec<TrackSet>,
) -> Result<(), NoMemory>
    requires { MayGrow set.now night.now }
    ensures { OnOk result ((other : TrackSetData) →
        Contains grown.new.items other ↔
        (Contains grown.old.items other ⊎ IsGrown settings.now set.now night.now other)) }
{
    let spots = joined_spots(alloc, set)?;
    for tracklet in night {
        if fit_together(spots.as_slice(), tracklet.spots(), settings, tally) {
            grown.push(set_and(alloc, set, tracklet)?)?;
        }
    }
    Ok(())
}

/// Whether the spots of two slices, one slice after the other, meet the spread rule and fit.
fn fit_together(spots: &[Spot], more: &[Spot], settings: &Settings, tally: &mut Tally) -> bool
    requires { AreTestable (spots.now ++ more.now) }
    ensures { IsTrue result ↔ FitTogether settings.now (spots.now ++ more.now) }
{
    is_arc_joined(spots, more, &[]) && fits_joined(spots, more, &[], settings, tally)
}

/// The set of some tracklets and one more after them.
fn set_and(alloc: Global, tracklets: &[Tracklet], last: &Tracklet) -> Result<TrackSet, NoMemory>
    requires { IsTrackSet (tracklets.now ++ last.now ∷ []) }
    ensures { IfOk result (λ set. set ≡ tracklets.now ++ last.now ∷ []) }
{
    Ok(TrackSet::of_rising(copies_and(alloc, tracklets, last)?))
}

/// Copies of some tracklets, and of one more after them.
fn copies_and(
    alloc: Global,
    tracklets: &[Tracklet],
    last: &Tracklet,
) -> Result<Vec<Tracklet>, NoMemory>
    ensures { IfOk result (λ copies. copies.items ≡ tracklets.now ++ last.now ∷ []) }
{
    let mut copies = Vec::new(alloc);
    for tracklet in tracklets {
        copies.push(copy_of(alloc, tracklet)?)?;
    }
    copies.push(copy_of(alloc, last)?)?;
    Ok(copies)
}

/// A copy of a tracklet.
fn copy_of(alloc: Global, tracklet: &Tracklet) -> Result<Tracklet, NoMemory>
    ensures { IfOk result (λ copy. copy ≡ tracklet.now) }
{
    let spots = Vec::from_slice(alloc, tracklet.spots())?;
    Ok(Tracklet::of_rising(spots))
}
