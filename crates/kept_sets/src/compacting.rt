//! Empty places are given back.
ghost use Rattle.std.specs.Prelude.{◌≡◌, IfOk, map};
ghost use Rattle.kept_sets.specs.Stored.{IsFound, filled};

use crate::entering::enter;
use crate::finding::Holders;
use crate::numbers::has_items;
use sky_units::NoMemory;
use std::alloc::Global;

/// The index of the sets at the places that they will have without empty ones between them.
pub fn index_of(alloc: Global, sets: &[Vec<u32>]) -> Result<Vec<Holders>, NoMemory>
    ensures { IfOk result (λ index. IsFound (filled (map (λ set. set.items) sets.now))
        (map (λ holders. holders.places.items) index.items)) }
{
    let mut index = Vec::new(alloc);
    let mut place = 0;
    for set in sets {
        if has_items(set.as_slice()) {
            enter(alloc, &mut index, set.as_slice(), place)?;
            place += 1;
        }
    }
    Ok(index)
}

/// Leaves out the empty places.
pub fn drop_empty(sets: &mut Vec<Vec<u32>>)
    ensures { map (λ set. set.items) sets.new.items ≡ filled (map (λ set. set.items) sets.old.items) }
{
    sets.retain(|set| has_items(set.as_slice()));
}
