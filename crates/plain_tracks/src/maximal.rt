//! Which tracks are maximal. Tracks are compared by the numbers of their spots.
ghost use Rattle.std.specs.Prelude.{◌≡◌, ◌≤◌, ◌↔◌, IsTrue, MatchBool, IfOk, length, map};
ghost use Rattle.std.specs.List.{All, Contains};
ghost use Rattle.sky_units.specs.Tracks.{AreAmong, numbers_of};
ghost use Rattle.plain_tracks.specs.Numbers.{AreDifferent, IsMaximalAmong};

use sky_units::{NoMemory, TrackSet, joined_spots};
use std::alloc::Global;

/// Whether no list properly contains the numbers, no two of which are the same. No list is longer
/// than `longest`.
pub fn is_maximal(numbers: &[u32], lists: &[Vec<u32>], longest: usize) -> bool
    requires different { AreDifferent numbers.now }
    requires longest { All (λ list. length list.items ≤ longest) lists.now }
    ensures { IsTrue result ↔ IsMaximalAmong (map (λ list. list.items) lists.now) numbers.now }
{
    if numbers.len() >= longest {
        return true;
    }
    for list in lists {
        if are_part(numbers, list.as_slice()) {
            return false;
        }
    }
    true
}

/// A length that none of the lists exceeds: that of a longest one.
pub fn longest(lists: &[Vec<u32>]) -> usize
    ensures { All (λ list. length list.items ≤ result) lists.now }
{
    let mut longest = 0;
    for list in lists {
        if list.len() > longest {
            longest = list.len();
        }
    }
    longest
}

/// The numbers of the spots of each set.
pub fn numbers_of_each(alloc: Global, sets: &[TrackSet]) -> Result<Vec<Vec<u32>>, NoMemory>
    ensures { IfOk result (λ lists. map (λ list. list.items) lists.items ≡
        map numbers_of sets.now) }
{
    let mut lists = Vec::with_capacity(alloc, sets.len())?;
    for set in sets {
        lists.push(numbers(alloc, set)?)?;
    }
    Ok(lists)
}

/// The numbers of the spots of a set, in their order.
pub fn numbers(alloc: Global, set: &TrackSet) -> Result<Vec<u32>, NoMemory>
    ensures { IfOk result (λ numbers. numbers.items ≡ numbers_of set.now) }
{
    let spots = joined_spots(alloc, set.tracklets())?;
    spots.iter().map(|spot| spot.num).collect(alloc)
}

/// Whether the numbers of one list, no two of which are the same, are properly contained in those of
/// another. Only a longer list may contain them properly.
fn are_part(one: &[u32], other: &[u32]) -> bool
    requires { AreDifferent one.now }
    ensures { MatchBool result (AreAmong one.now other.now ×
        ¬ AreAmong other.now one.now) (AreAmong one.now other.now → AreAmong other.now one.now) }
{
    if one.len() >= other.len() {
        return false;
    }
    are_among(one, other) && !are_among(other, one)
}

/// Whether all numbers of one list are among those of another.
fn are_among(one: &[u32], other: &[u32]) -> bool
    ensures { IsTrue result ↔ AreAmong one.now other.now }
{
    for number in one {
        if !has(other, *number) {
            return false;
        }
    }
    true
}

/// Whether a number is in a list.
fn has(list: &[u32], number: u32) -> bool
    ensures { IsTrue result ↔ Contains list.now number }
{
    list.contains(&number)
}
