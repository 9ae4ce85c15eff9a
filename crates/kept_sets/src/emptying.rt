//! Sets are taken out of their places. The index keeps such a place under an item until more than half
//! of the item's places have lost their sets; so taking out costs no more than entering did.
ghost use Rattle.std.specs.Prelude.{ℕ, ◌≡◌, ◌<◌, [], length, map};
ghost use Rattle.std.specs.List.{Contains};
ghost use Rattle.kept_sets.specs.Stored.{IsFound, KeepsFilled, at};

use crate::finding::{Holders, set_at};
use crate::numbers::has_items;
use std::alloc::Global;
use std::mem;

/// Takes the sets at some places out.
pub fn take_out(alloc: Global, sets: &mut Vec<Vec<u32>>, index: &mut Vec<Holders>, places: &[u32])
    requires { IsFound (map (λ set. set.items) sets.old.items)
        (map (λ holders. holders.places.items) index.old.items) }
    ensures found { IsFound (map (λ set. set.items) sets.new.items)
        (map (λ holders. holders.places.items) index.new.items) }
    ensures emptied { (place : ℕ) → Contains places.now place →
        at (map (λ set. set.items) sets.new.items) place ≡ [] }
    ensures left { (place : ℕ) → (Contains places.now place → ⊥) →
        at (map (λ set. set.items) sets.new.items) place ≡
        at (map (λ set. set.items) sets.old.items) place }
{
    for place in places {
        let place = *place as usize;
        if place < sets.len() {
            let set = mem::replace(&mut sets[place], Vec::new(alloc));
            leave(sets.as_slice(), index, set.as_slice());
        }
    }
}

/// Notes that a place of each of some items has lost its set.
fn leave(sets: &[Vec<u32>], index: &mut Vec<Holders>, items: &[u32])
    ensures { KeepsFilled (map (λ set. set.items) sets.now)
        (map (λ holders. holders.places.items) index.old.items)
        (map (λ holders. holders.places.items) index.new.items) }
{
    for item in items {
        let item = *item as usize;
        if item < index.len() {
            lose_one(&mut index[item], sets);
        }
    }
}

/// Notes that one of the places of an item has lost its set. Where more than half have, these go.
fn lose_one(holders: &mut Holders, sets: &[Vec<u32>])
    ensures { (place : ℕ) → Contains holders.old.places.items place →
        0 < length (at (map (λ set. set.items) sets.now) place) →
        Contains holders.new.places.items place }
{
    holders.emptied = holders.emptied.saturating_add(1);
    if holders.emptied <= holders.places.len() / 2 {
        return;
    }
    holders
        .places
        .retain(|place| has_items(set_at(sets, *place as usize)));
    holders.emptied = 0;
}
