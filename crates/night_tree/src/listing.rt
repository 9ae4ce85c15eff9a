//! Sets of places in order, each once, and their tracklets.
ghost use Rattle.std.specs.Prelude.{◌≡◌, IfOk, map};
ghost use Rattle.std.specs.List.{All};
ghost use Rattle.sky_units.specs.AtPlaces.{spots_at};
ghost use Rattle.night_tree.specs.Nights.{in_order, places_of_pair};
ghost use Rattle.night_tree.specs.Tracklets.{IsSet};

use sky_units::{NoMemory, Places, Spot, Tracklet, spots_at};
use std::alloc::Global;
use std::collections::BTreeSet;

/// The tracklets at some sets of places: in the lexicographic order of their places, each once.
pub fn tracklets_at(
    alloc: Global,
    spots: &[Spot],
    sets: Vec<Places>,
) -> Result<Vec<Tracklet>, NoMemory>
    requires { All (IsSet spots.now) sets.items }
    ensures { IfOk result (λ tracklets. tracklets.items ≡
        map (spots_at spots.now) (in_order sets.items)) }
{
    let ordered = in_order(alloc, sets)?;
    let mut tracklets = Vec::with_capacity(alloc, ordered.len())?;
    for set in ordered {
        let together = spots_at(alloc, spots, set.as_slice())?;
        tracklets.push(Tracklet::of_rising(together))?;
    }
    Ok(tracklets)
}

/// The tracklets at the two places of each pair, in the order of the pairs.
pub fn tracklets_of_pairs(
    alloc: Global,
    spots: &[Spot],
    pairs: &[(u32, u32)],
) -> Result<Vec<Tracklet>, NoMemory>
    requires { All (λ pair. IsSet spots.now (places_of_pair pair)) pairs.now }
    ensures { IfOk result (λ tracklets. tracklets.items ≡
        map (λ pair. spots_at spots.now (places_of_pair pair)) pairs.now) }
{
    let mut tracklets = Vec::with_capacity(alloc, pairs.len())?;
    for pair in pairs {
        tracklets.push(tracklet_of_pair(alloc, spots, *pair)?)?;
    }
    Ok(tracklets)
}

/// The tracklet at the two places of a pair.
fn tracklet_of_pair(alloc: Global, spots: &[Spot], pair: (u32, u32)) -> Result<Tracklet, NoMemory>
    requires { IsSet spots.now (places_of_pair pair) }
    ensures { IfOk result (λ tracklet. tracklet ≡ spots_at spots.now (places_of_pair pair)) }
{
    let places = [pair.0, pair.1];
    Ok(Tracklet::of_rising(spots_at(alloc, spots, &places)?))
}

/// Sets of places in lexicographic order, each once.
fn in_order(alloc: Global, sets: Vec<Places>) -> Result<Vec<Vec<u32>>, NoMemory>
    ensures { IfOk result (λ ordered. map (λ set. set.items) ordered.items ≡ in_order sets.items) }
{
    let mut rest = sets;
    let mut ordered = BTreeSet::new(alloc);
    while let Some(set) = rest.pop() {
        ordered.insert(set.into_items())?;
    }
    ordered.into_iter().collect(alloc)
}
