//! Places put together.

ghost use Rattle.std.specs.Prelude.{◌≡◌, ◌<◌, ◌≤◌, length, slice_index_or, take, IfOk, IsTrue};
ghost use Rattle.std.specs.List.{All, Contains};
ghost use Rattle.collapse.specs.Groups.{with_place, with_pair};

use sky_units::NoMemory;
use std::alloc::Global;

/// The first place that isn't below `place`, among rising ones: where it stands, or their number.
fn first_from(places: &[u32], place: u32) -> usize
    ensures within { result ≤ length places.now }
    ensures before { All (λ p. p < place) (take result places.now) }
    ensures after { result < length places.now → place ≤ slice_index_or places.now result 0 }
{
    for at in 0..places.len() {
        if place <= places[at] {
            return at;
        }
    }
    places.len()
}

/// Whether a group has both places of a pair. It is true only where it has.
pub fn has_both(group: &[u32], pair: (u32, u32)) -> bool
    ensures { IsTrue result → Contains group.now pair.0 × Contains group.now pair.1 }
{
    if !has(group, pair.0) {
        return false;
    }
    has(group, pair.1)
}

/// Whether a place stands among rising ones.
fn has(places: &[u32], place: u32) -> bool
    ensures { IsTrue result → Contains places.now place }
{
    let at = first_from(places, place);
    if at >= places.len() {
        return false;
    }
    places[at] == place
}

/// Rising places with one more.
fn with_place(alloc: Global, places: &[u32], place: u32) -> Result<Vec<u32>, NoMemory>
    ensures { IfOk result (λ union. union.items ≡ with_place places.now place) }
{
    let mut union = Vec::from_slice(alloc, places)?;
    let at = first_from(places, place);
    if at < places.len() && places[at] == place {
        return Ok(union);
    }
    union.insert(at, place)?;
    Ok(union)
}

/// The places of a group and of a pair together.
pub fn with_pair(alloc: Global, group: &[u32], pair: (u32, u32)) -> Result<Vec<u32>, NoMemory>
    ensures { IfOk result (λ union. union.items ≡ with_pair group.now pair) }
{
    let with_first = with_place(alloc, group, pair.0)?;
    with_place(alloc, with_first.as_slice(), pair.1)
}
