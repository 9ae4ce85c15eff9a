//! The rests of sets that lost items: which of them stay.
ghost use Rattle.std.specs.Prelude.{ℕ, ◌≡◌, ◌<◌, ◌↔◌, ◌++◌, IsTrue, OnOk, length, map};
ghost use Rattle.closed_sets.specs.Families.{IsSet};
ghost use Rattle.kept_sets.specs.Stored.{Allows, AreAdded, IsFound, IsRestAdded, IsWider, at};
ghost use Rattle.kept_sets.specs.Lists.{AreDifferent};

use crate::entering::enter;
use crate::finding::{Holders, fewest_places, set_at};
use crate::numbers::{are_among, rest_is_among, without};
use sky_units::NoMemory;
use std::alloc::Global;

/// Adds to grown sets the rests that stay of the sets at some places, and enters them behind these.
pub fn add_rests(
    alloc: Global,
    sets: &[Vec<u32>],
    index: &mut Vec<Holders>,
    went: &[u32],
    places: &[u32],
    added: &mut Vec<Vec<u32>>,
) -> Result<(), NoMemory>
    requires found { IsFound (map (λ set. set.items) sets.now ++ map (λ set. set.items) added.old.items)
        (map (λ holders. holders.places.items) index.old.items) }
    requires sets { (place : ℕ) → IsSet (at (map (λ set. set.items) sets.now) place) }
    requires once { AreDifferent (map (λ set. set.items) added.old.items) }
    requires went { IsSet went.now }
    ensures wider { IsWider (map (λ holders. holders.places.items) index.old.items)
        (map (λ holders. holders.places.items) index.new.items) }
    ensures found { OnOk result (
        IsFound (map (λ set. set.items) sets.now ++ map (λ set. set.items) added.new.items)
        (map (λ holders. holders.places.items) index.new.items)) }
    ensures added { OnOk result (AreAdded (map (λ set. set.items) sets.now) went.now
        (map (λ set. set.items) added.old.items) places.now
        (map (λ set. set.items) added.new.items)) }
{
    for place in places {
        add_rest(alloc, sets, index, went, *place as usize, added)?;
    }
    Ok(())
}

/// Adds the rest of the set at a place, where it stays.
fn add_rest(
    alloc: Global,
    sets: &[Vec<u32>],
    index: &mut Vec<Holders>,
    went: &[u32],
    place: usize,
    added: &mut Vec<Vec<u32>>,
) -> Result<(), NoMemory>
    requires found { IsFound (map (λ set. set.items) sets.now ++ map (λ set. set.items) added.old.items)
        (map (λ holders. holders.places.items) index.old.items) }
    requires went { IsSet went.now }
    ensures wider { IsWider (map (λ holders. holders.places.items) index.old.items)
        (map (λ holders. holders.places.items) index.new.items) }
    ensures found { OnOk result (
        IsFound (map (λ set. set.items) sets.now ++ map (λ set. set.items) added.new.items)
        (map (λ holders. holders.places.items) index.new.items)) }
    ensures added { OnOk result (IsRestAdded (map (λ set. set.items) sets.now) went.now place
        (map (λ set. set.items) added.old.items) (map (λ set. set.items) added.new.items)) }
{
    let rest = without(alloc, went, set_at(sets, place))?;
    if rest.len() < 3 {
        return Ok(());
    }
    if !is_allowed(
        sets,
        added.as_slice(),
        index.as_slice(),
        went,
        rest.as_slice(),
    ) {
        return Ok(());
    }
    enter(
        alloc,
        index,
        rest.as_slice(),
        sets.len() + added.as_slice().len(),
    )?;
    added.push(rest)?;
    Ok(())
}

/// Whether a rest, which has items, lies properly in the rest of no old set, and in no added set.
fn is_allowed(
    sets: &[Vec<u32>],
    added: &[Vec<u32>],
    index: &[Holders],
    went: &[u32],
    rest: &[u32],
) -> bool
    requires found { IsFound (map (λ set. set.items) sets.now ++ map (λ set. set.items) added.now)
        (map (λ holders. holders.places.items) index.now) }
    requires some { 0 < length rest.now }
    requires went { IsSet went.now }
    ensures { IsTrue result ↔ ((place : ℕ) → Allows (map (λ set. set.items) sets.now)
        (map (λ set. set.items) added.now) went.now rest.now place) }
{
    for place in fewest_places(index, rest) {
        if !allows(sets, added, went, rest, *place as usize) {
            return false;
        }
    }
    true
}

/// Whether a rest stays beside the set at a place: an old one, or, behind these, an added one.
fn allows(sets: &[Vec<u32>], added: &[Vec<u32>], went: &[u32], rest: &[u32], place: usize) -> bool
    requires { IsSet went.now }
    ensures { IsTrue result ↔ Allows (map (λ set. set.items) sets.now)
        (map (λ set. set.items) added.now) went.now rest.now place }
{
    if place < sets.len() {
        let set = set_at(sets, place);
        if !are_among(rest, set) {
            return true;
        }
        return rest_is_among(went, set, rest);
    }
    !are_among(rest, set_at(added, place - sets.len()))
}
