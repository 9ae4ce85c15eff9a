//! Lists of items: whether one has an item, all items of another, and what it is without some.
ghost use Rattle.std.specs.Prelude.{◌≡◌, ◌↔◌, IsTrue, IfOk};
ghost use Rattle.closed_sets.specs.Families.{IsSet};
ghost use Rattle.kept_sets.specs.Lists.{is_one, less};
ghost use Rattle.kept_sets.specs.Stored.{is_filled};
ghost use Rattle.sky_units.specs.Tracks.{AreAmong};

use sky_units::NoMemory;
use std::alloc::Global;

/// Whether a set has items.
pub fn has_items(set: &[u32]) -> bool
    ensures { result ≡ is_filled set.now }
{
    !set.is_empty()
}

/// Whether an item is one of some.
pub fn has(items: &[u32], item: u32) -> bool
    ensures { result ≡ is_one items.now item }
{
    items.contains(&item)
}

/// Whether an item is one of some that rise.
pub fn has_rising(items: &[u32], item: u32) -> bool
    requires { IsSet items.now }
    ensures { result ≡ is_one items.now item }
{
    items.binary_search(&item).is_ok()
}

/// A set without some items, which rise.
#[tactic(auto, unfolding(crate::specs::Lists::less))]
pub fn without(alloc: Global, items: &[u32], set: &[u32]) -> Result<Vec<u32>, NoMemory>
    requires { IsSet items.now }
    ensures { IfOk result (λ rest. rest.items ≡ less items.now set.now) }
{
    set.iter()
        .copied()
        .filter(|item| !has_rising(items, *item))
        .collect(alloc)
}

/// Whether all items of one set are in another.
pub fn are_among(one: &[u32], other: &[u32]) -> bool
    ensures { IsTrue result ↔ AreAmong one.now other.now }
{
    for item in one {
        if !has(other, *item) {
            return false;
        }
    }
    true
}

/// Whether all items of a set but those that went, which rise, are in another one.
pub fn rest_is_among(went: &[u32], set: &[u32], other: &[u32]) -> bool
    requires { IsSet went.now }
    ensures { IsTrue result ↔ AreAmong (less went.now set.now) other.now }
{
    for item in set {
        if !has_rising(went, *item) && !has(other, *item) {
            return false;
        }
    }
    true
}
