//! The numbers of the spots of sets, and how the numbers of two sets compare.
ghost use Rattle.std.specs.Prelude.{◌≡◌, ◌↔◌, IsTrue, MatchBool, IfOk, map};
ghost use Rattle.std.specs.List.{Contains};
ghost use Rattle.sky_units.specs.Tracks.{AreAmong, numbers_of};

use sky_units::{NoMemory, TrackSet, joined_spots};
use std::alloc::Global;

/// The numbers of the spots of each set.
pub fn numbers_of_each(alloc: Global, sets: &[TrackSet]) -> Result<Vec<Vec<u32>>, NoMemory>
    ensures { IfOk result (λ lists. map (λ list. list.items) lists.items ≡
        map numbers_of sets.now) }
{
    let mut lists = Vec::with_capacity(alloc, sets.len())?;
    for set in sets {
        lists.push(numbers(alloc, set)?)?;
    }
    Ok(lists)
}

/// The numbers of the spots of a set, in their order.
fn numbers(alloc: Global, set: &TrackSet) -> Result<Vec<u32>, NoMemory>
    ensures { IfOk result (λ numbers. numbers.items ≡ numbers_of set.now) }
{
    let spots = joined_spots(alloc, set.tracklets())?;
    spots.iter().map(|spot| spot.num).collect(alloc)
}

/// Whether a member with the first numbers gives way to one with the others: the others have all of
/// the first and more, or are the same and stand earlier.
pub fn gives_way(one: &[u32], other: &[u32], earlier: bool) -> bool
    ensures { MatchBool result
        (AreAmong one.now other.now × (AreAmong other.now one.now → IsTrue earlier))
        (AreAmong one.now other.now → AreAmong other.now one.now × ¬ IsTrue earlier) }
{
    if !are_among(one, other) {
        return false;
    }
    if earlier {
        return true;
    }
    !are_among(other, one)
}

/// Whether all numbers of one list are among those of another.
fn are_among(one: &[u32], other: &[u32]) -> bool
    ensures { IsTrue result ↔ AreAmong one.now other.now }
{
    for number in one {
        if !has(other, *number) {
            return false;
        }
    }
    true
}

/// Whether a number is in a list.
fn has(list: &[u32], number: u32) -> bool
    ensures { IsTrue result ↔ Contains list.now number }
{
    list.contains(&number)
}
