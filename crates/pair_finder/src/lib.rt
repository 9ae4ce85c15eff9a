//! The pairs of one night: two detections that one object of a bounded rate may have left.
#![tactic(auto)]

ghost use Rattle.std.specs.Prelude.{◌≡◌, ◌<◌, ◌^◌, ℕ, length, IfOk, IsTrue};
ghost use Rattle.std.specs.List.{All};
ghost use Rattle.sky_units.specs.Pairs.{pairs_of, EpochsDontFall};
ghost use Rattle.pair_finder.specs.OneEpoch.{AreOfOneEpoch};

use box_tree::{Tree, join_two};
use pairing::{Pairing, Placed};
use sky_units::{NoMemory, Settings, Spot, Tally};
use std::alloc::Global;

mod nearness;
mod pairing;
mod rates;
#[cfg(test)]
mod tests;

/// The pairs of a night, in lexicographic order: the two places in `spots` of each.
///
/// `spots` are the spots of one night, of epochs that don't fall. The only error is want of memory.
pub fn pairs(
    alloc: Global,
    spots: &[Spot],
    settings: &Settings,
) -> Result<Vec<(u32, u32)>, NoMemory>
    requires few { length spots.now < 2 ^ 32 }
    requires order { EpochsDontFall spots.now }
    ensures { IfOk result (λ pairs. pairs.items ≡ pairs_of settings.now spots.now) }
{
    if are_of_one_epoch(spots) {
        return Ok(Vec::new(alloc));
    }
    let tree = tree_of(alloc, spots)?;
    let pairing = Pairing {
        settings: *settings,
    };
    let found = join_two(alloc, &tree, &tree, &pairing, &mut Tally::zero())?;
    narrowed(alloc, found.as_slice())
}

/// Whether no spot is later than another one. Such spots make no pair, so they need no tree.
fn are_of_one_epoch(spots: &[Spot]) -> bool
    requires { EpochsDontFall spots.now }
    ensures { IsTrue result → AreOfOneEpoch spots.now }
{
    if spots.is_empty() {
        return true;
    }
    let first = &spots[0];
    let last = &spots[spots.len() - 1];
    last.epoch <= first.epoch
}

/// The tree of a night's spots.
fn tree_of(alloc: Global, spots: &[Spot]) -> Result<Tree<Placed>, NoMemory>
    ensures { IfOk result (λ tree. tree ≡ spots.now) }
{
    let mut placed = Vec::with_capacity(alloc, spots.len())?;
    for spot in spots {
        placed.push(Placed { spot: *spot })?;
    }
    Tree::build(alloc, placed)
}

/// Pairs of places as their numbers of 32 bits.
fn narrowed(alloc: Global, places: &[(usize, usize)]) -> Result<Vec<(u32, u32)>, NoMemory>
    requires { All (λ (pair : ℕ × ℕ). (pair.0 < 2 ^ 32) × (pair.1 < 2 ^ 32)) places.now }
    ensures { IfOk result (λ narrow. narrow.items ≡ places.now) }
{
    let mut narrow = Vec::with_capacity(alloc, places.len())?;
    for pair in places {
        narrow.push((pair.0 as u32, pair.1 as u32))?;
    }
    Ok(narrow)
}
