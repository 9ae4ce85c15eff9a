//! A walk over the kept sets.
ghost use Rattle.std.specs.Prelude.{ℕ, ◌≡◌, ◌∷◌, List, [], MatchOption, length, map};
ghost use Rattle.std.specs.Iterator.{YieldsFirstRef, at_most};
ghost use Rattle.kept_sets.specs.Stored.{filled};

use crate::numbers::has_items;
use std::marker::Model;

/// Kept sets one after another, seen as the list of those that are left.
#[derive(Drop)]
pub struct Sets<'a> {
    places: &'a [Vec<u32>],
}

impl<'a> Model for Sets<'a> {
    ghost Value = { List (List ℕ) };

    ghost view = { λ sets. filled (map (λ set. set.items) sets.places.now) };
}

impl<'a> Sets<'a> {
    /// The sets at the places that have one.
    pub(crate) fn at(places: &'a [Vec<u32>]) -> Sets<'a>
        ensures { result ≡ filled (map (λ set. set.items) places.now) }
    {
        Sets { places }
    }
}

impl<'a> Iterator for Sets<'a> {
    type Item = &'a [u32];

    ghost next_gives = { YieldsFirstRef (λ left. left) };

    ghost remaining = { λ left. at_most (length left) };

    fn next(&mut self) -> Option<&'a [u32]> {
        let (set, places) = first_set(self.places)?;
        self.places = places;
        Some(set)
    }
}

/// The first set, and the places behind it.
fn first_set(places: &[Vec<u32>]) -> Option<(&[u32], &[Vec<u32>])>
    ensures { MatchOption result (filled (map (λ set. set.items) places.now) ≡ [])
        (λ found. filled (map (λ set. set.items) places.now) ≡
        found.0.now ∷ filled (map (λ set. set.items) found.1.now)) }
{
    let mut left = places;
    while let Some((set, rest)) = left.split_first() {
        if has_items(set.as_slice()) {
            return Some((set.as_slice(), rest));
        }
        left = rest;
    }
    None
}
