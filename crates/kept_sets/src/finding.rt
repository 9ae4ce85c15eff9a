//! Where sets are: look-ups in an index by item. The index may name a place whose set has gone, so each
//! look-up reads the set itself.
ghost use Rattle.std.specs.Prelude.{ℕ, ◌≡◌, ◌<◌, ◌↔◌, ◌⊎◌, IfOk, OnOk, MatchOption, [], length, map};
ghost use Rattle.std.specs.List.{Contains};
ghost use Rattle.closed_sets.specs.Families.{IsSet};
ghost use Rattle.kept_sets.specs.Lists.{HoldsOne, less};
ghost use Rattle.kept_sets.specs.Stored.{IsFound, IsStore, at};

use crate::numbers::{has, without};
use sky_units::NoMemory;
use std::alloc::Global;

/// The places of all sets that hold an item, and perhaps more.
#[derive(Drop)]
pub struct Holders {
    pub places: Vec<u32>,
    /// How many of the places have lost their sets.
    pub emptied: usize,
}

/// The places of the sets that hold one of some items.
pub fn holding_places(
    alloc: Global,
    sets: &[Vec<u32>],
    index: &[Holders],
    items: &[u32],
) -> Result<Vec<u32>, NoMemory>
    requires { IsFound (map (λ set. set.items) sets.now)
        (map (λ holders. holders.places.items) index.now) }
    ensures { IfOk result (λ places. (place : ℕ) → Contains places.items place ↔
        HoldsOne items.now (at (map (λ set. set.items) sets.now) place)) }
{
    let mut places = Vec::new(alloc);
    for item in items {
        push_holding(&mut places, sets, holders_of(index, *item), *item)?;
    }
    keep_once(&mut places);
    Ok(places)
}

/// Keeps each of some places once.
fn keep_once(places: &mut Vec<u32>)
    ensures { (place : ℕ) → Contains places.new.items place ↔ Contains places.old.items place }
{
    places.sort_unstable();
    places.dedup();
}

/// Adds those of some places whose sets hold an item.
fn push_holding(
    places: &mut Vec<u32>,
    sets: &[Vec<u32>],
    holders: &[u32],
    item: u32,
) -> Result<(), NoMemory>
    ensures { OnOk result ((place : ℕ) → Contains places.new.items place ↔
        (Contains places.old.items place ⊎ (Contains holders.now place ×
        Contains (at (map (λ set. set.items) sets.now) place) item))) }
{
    for place in holders {
        if has(set_at(sets, *place as usize), item) {
            places.push(*place)?;
        }
    }
    Ok(())
}

/// The places of the sets that are some grown sets without what came.
pub fn extended_places(
    alloc: Global,
    sets: &[Vec<u32>],
    index: &[Holders],
    came: &[u32],
    grown: &[Vec<u32>],
) -> Result<Vec<u32>, NoMemory>
    requires store { IsStore (map (λ set. set.items) sets.now)
        (map (λ holders. holders.places.items) index.now) }
    requires came { IsSet came.now }
    ensures { IfOk result (λ places. (place : ℕ) → Contains places.items place ↔
        (Contains (map (less came.now) (map (λ set. set.items) grown.now))
        (at (map (λ set. set.items) sets.now) place) ×
        (0 < length (at (map (λ set. set.items) sets.now) place)))) }
{
    let mut places = Vec::new(alloc);
    for set in grown {
        let rest = without(alloc, came, set.as_slice())?;
        if let Some(place) = place_of(sets, index, rest.as_slice()) {
            places.push(place)?;
        }
    }
    Ok(places)
}

/// The place of a set; none where it has no items.
fn place_of(sets: &[Vec<u32>], index: &[Holders], set: &[u32]) -> Option<u32>
    requires { IsFound (map (λ set. set.items) sets.now)
        (map (λ holders. holders.places.items) index.now) }
    ensures { MatchOption result
        ((place : ℕ) → at (map (λ set. set.items) sets.now) place ≡ set.now → set.now ≡ [])
        (λ place. (at (map (λ set. set.items) sets.now) place ≡ set.now) × (0 < length set.now)) }
{
    if set.is_empty() {
        return None;
    }
    for place in fewest_places(index, set) {
        if set_at(sets, *place as usize) == set {
            return Some(*place);
        }
    }
    None
}

/// The places of an item of a set, the one that the index has fewest of.
pub fn fewest_places<'a>(index: &'a [Holders], set: &[u32]) -> &'a [u32]
    requires { 0 < length set.now }
    ensures { (item : ℕ) × Contains set.now item ×
        (result.now ≡ at (map (λ holders. holders.places.items) index.now) item) }
{
    let mut fewest = holders_of(index, set[0]);
    for item in set {
        let others = holders_of(index, *item);
        if others.len() < fewest.len() {
            fewest = others;
        }
    }
    fewest
}

/// The places of an item.
fn holders_of(index: &[Holders], item: u32) -> &[u32]
    ensures { result.now ≡ at (map (λ holders. holders.places.items) index.now) item }
{
    match index.get(item as usize) {
        Some(holders) => holders.places.as_slice(),
        None => &[],
    }
}

/// The set at a place.
pub fn set_at(sets: &[Vec<u32>], place: usize) -> &[u32]
    ensures { result.now ≡ at (map (λ set. set.items) sets.now) place }
{
    match sets.get(place) {
        Some(set) => set.as_slice(),
        None => &[],
    }
}
