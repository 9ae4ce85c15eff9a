//! Sets enter the index of places by item. Where memory is wanting half way, the index has entries
//! that no set needs, and lacks none.
ghost use Rattle.std.specs.Prelude.{ℕ, ◌≡◌, ◌<◌, ◌+◌, ◌^◌, OnOk, length, map};
ghost use Rattle.std.specs.List.{Contains};
ghost use Rattle.kept_sets.specs.Stored.{IsWider, at};

use crate::finding::Holders;
use sky_units::NoMemory;
use std::alloc::{AllocError, Global};

/// Enters some sets at places one behind the other, from a first one on.
pub fn enter_all(
    alloc: Global,
    index: &mut Vec<Holders>,
    sets: &[Vec<u32>],
    first: usize,
) -> Result<(), NoMemory>
    requires { first + length sets.now < 2 ^ 64 }
    ensures wider { IsWider (map (λ holders. holders.places.items) index.old.items)
        (map (λ holders. holders.places.items) index.new.items) }
    ensures entered { OnOk result ((place item : ℕ) →
        Contains (at (map (λ set. set.items) sets.now) place) item →
        Contains (at (map (λ holders. holders.places.items) index.new.items) item)
        (first + place)) }
{
    for place in 0..sets.len() {
        enter(alloc, index, sets[place].as_slice(), first + place)?;
    }
    Ok(())
}

/// Enters a set at a place. More places than numbers of 32 bits want memory.
pub fn enter(
    alloc: Global,
    index: &mut Vec<Holders>,
    set: &[u32],
    place: usize,
) -> Result<(), NoMemory>
    ensures wider { IsWider (map (λ holders. holders.places.items) index.old.items)
        (map (λ holders. holders.places.items) index.new.items) }
    ensures entered { OnOk result ((item : ℕ) → Contains set.now item →
        Contains (at (map (λ holders. holders.places.items) index.new.items) item) place) }
{
    let Ok(place) = u32::try_from(place) else {
        return Err(AllocError);
    };
    for item in set {
        enter_item(alloc, index, *item, place)?;
    }
    Ok(())
}

/// Enters an item of a set at a place.
fn enter_item(
    alloc: Global,
    index: &mut Vec<Holders>,
    item: u32,
    place: u32,
) -> Result<(), NoMemory>
    ensures wider { IsWider (map (λ holders. holders.places.items) index.old.items)
        (map (λ holders. holders.places.items) index.new.items) }
    ensures entered { OnOk result (
        Contains (at (map (λ holders. holders.places.items) index.new.items) item) place) }
{
    let item = item as usize;
    widen(alloc, index, item)?;
    index[item].places.push(place)?;
    Ok(())
}

/// Makes the index reach up to an item.
fn widen(alloc: Global, index: &mut Vec<Holders>, item: usize) -> Result<(), NoMemory>
    ensures same { (other : ℕ) →
        at (map (λ holders. holders.places.items) index.new.items) other ≡
        at (map (λ holders. holders.places.items) index.old.items) other }
    ensures reaches { OnOk result (item < length index.new.items) }
{
    while index.len() <= item {
        index.push(Holders {
            places: Vec::new(alloc),
            emptied: 0,
        })?;
    }
    Ok(())
}
