//! Spots by their places.
ghost use Rattle.std.specs.Prelude.{◌≡◌, ◌<◌, length, IfOk};
ghost use Rattle.std.specs.List.{All};
ghost use Rattle.sky_units.specs.AtPlaces.{spots_at};

use crate::{NoMemory, Spot};
use std::alloc::Global;

/// The spots at some places, which are indexes into `spots`.
pub fn spots_at(alloc: Global, spots: &[Spot], places: &[u32]) -> Result<Vec<Spot>, NoMemory>
    requires { All (λ p. p < length spots.now) places.now }
    ensures { IfOk result (λ found. found.items ≡ spots_at spots.now places.now) }
{
    let mut found = Vec::with_capacity(alloc, places.len())?;
    for at in 0..places.len() {
        let place = places[at] as usize;
        found.push(spots[place])?;
    }
    Ok(found)
}
