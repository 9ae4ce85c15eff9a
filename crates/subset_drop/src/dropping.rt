//! Contained sets are dropped.
ghost use Rattle.std.specs.Prelude.{◌≡◌, ◌<◌, ◌↔◌, IsTrue, MatchBool, IfOk, length, map};
ghost use Rattle.std.specs.List.{All};
ghost use Rattle.subset_drop.specs.Kept.{AreKept, Passes, Stays};
ghost use Rattle.subset_drop.specs.Index.{IsIndex};

use crate::index::{index_of, rarest};
use crate::numbers::{gives_way, numbers_of_each};
use sky_units::{NoMemory, TrackSet};
use std::alloc::Global;

/// The members whose numbers are properly contained in those of no member and equal those of no
/// earlier one, in their order. The numbers of a set are those of its spots.
pub fn drop_subsets(alloc: Global, list: Vec<TrackSet>) -> Result<Vec<TrackSet>, NoMemory>
    ensures { IfOk result (λ kept. AreKept list.items kept.items) }
{
    let lists = numbers_of_each(alloc, list.as_slice())?;
    let index = index_of(alloc, lists.as_slice())?;
    let mut kept = Vec::new(alloc);
    let mut count = 0;
    for set in list {
        let place = count;
        count += 1;
        if stays(lists.as_slice(), index.as_slice(), place) {
            kept.push(set)?;
        }
    }
    Ok(kept)
}

/// Whether the member at a place stays. A member that has all its numbers is among those that hold
/// its rarest one, so no others are compared. One without numbers is compared with all: behind the
/// first place it gives way to the very first member.
fn stays(lists: &[Vec<u32>], index: &[(u32, usize)], place: usize) -> bool
    requires place { place < length lists.now }
    requires index { IsIndex (map (λ list. list.items) lists.now) index.now }
    ensures { IsTrue result ↔ Stays (map (λ list. list.items) lists.now) place }
{
    let numbers = lists[place].as_slice();
    if numbers.is_empty() {
        return passes_all(lists, place);
    }
    passes_holders(lists, rarest(index, numbers), place)
}

/// Whether the member at a place stays beside these members.
fn passes_holders(lists: &[Vec<u32>], holders: &[(u32, usize)], place: usize) -> bool
    requires place { place < length lists.now }
    requires holders { All (λ pair. pair.1 < length lists.now) holders.now }
    ensures { MatchBool result
        (All (λ pair. Passes (map (λ list. list.items) lists.now) place pair.1) holders.now)
        (¬ Stays (map (λ list. list.items) lists.now) place) }
{
    for holder in holders {
        if !passes(lists, holder.1, place) {
            return false;
        }
    }
    true
}

/// Whether the member at a place stays, compared with all members.
fn passes_all(lists: &[Vec<u32>], place: usize) -> bool
    requires { place < length lists.now }
    ensures { IsTrue result ↔ Stays (map (λ list. list.items) lists.now) place }
{
    for other in 0..lists.len() {
        if !passes(lists, other, place) {
            return false;
        }
    }
    true
}

/// Whether the member at a place stays beside another one.
fn passes(lists: &[Vec<u32>], other: usize, place: usize) -> bool
    requires other { other < length lists.now }
    requires place { place < length lists.now }
    ensures { MatchBool result
        (Passes (map (λ list. list.items) lists.now) place other)
        (¬ Stays (map (λ list. list.items) lists.now) place) }
{
    let gives = gives_way(
        lists[place].as_slice(),
        lists[other].as_slice(),
        other < place,
    );
    !gives
}
