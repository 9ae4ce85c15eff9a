//! Sets of numbers, and lists of them.

ghost use Rattle.std.specs.Prelude.{ℕ, List, ◌≡◌, ◌++◌, [], ◌∷◌, ◌↔◌, cond, map, IfOk, OnOk, IsTrue};
ghost use Rattle.std.specs.Cmp.Lexicographic.{slice_cmp};
ghost use Rattle.std.specs.List.{Contains};
ghost use Rattle.std.specs.List.Sorted.{IsStrictlySortedBy};
ghost use Rattle.std.specs.Ordering.{nat_cmp};
ghost use Rattle.closed_sets.specs.Families.{IsSet};
ghost use Rattle.closed_sets.specs.Search.{IsUnion, is_one};

use sky_units::NoMemory;
use std::alloc::Global;

/// The members of two lists, as a set.
pub fn united(alloc: Global, one: &[u32], other: &[u32]) -> Result<Vec<u32>, NoMemory>
    ensures { IfOk result (λ union. IsUnion one.now other.now union.items) }
{
    let mut numbers = Vec::with_capacity(alloc, one.len())?;
    numbers.extend_from_slice(one)?;
    numbers.extend_from_slice(other)?;
    Ok(set_of(numbers))
}

/// Numbers as a set: in order, each once.
pub fn set_of(mut numbers: Vec<u32>) -> Vec<u32>
    ensures is_set { IsSet result.items }
    ensures exactly { (x : ℕ) → Contains result.items x ↔ Contains numbers.items x }
{
    numbers.sort_unstable();
    numbers.dedup();
    numbers
}

/// Sets in lexicographic order, each once.
pub fn in_order(mut sets: Vec<Vec<u32>>) -> Vec<Vec<u32>>
    ensures in_order { IsStrictlySortedBy (slice_cmp nat_cmp)
        (map (λ set. set.items) result.items) }
    ensures exactly { (set : List ℕ) → Contains (map (λ set. set.items) result.items) set ↔
        Contains (map (λ set. set.items) sets.items) set }
{
    sets.sort_unstable();
    sets.dedup();
    sets
}

/// Whether a number is in a list.
pub fn has(list: &[u32], number: u32) -> bool
    ensures { IsTrue result ↔ Contains list.now number }
{
    list.contains(&number)
}

/// Whether a number is in a set.
pub fn has_rising(set: &[u32], number: u32) -> bool
    requires { IsSet set.now }
    ensures { result ≡ is_one set.now number }
{
    set.binary_search(&number).is_ok()
}

/// Adds a number where it is wanted.
pub fn push_where(list: &mut Vec<u32>, number: u32, wanted: bool) -> Result<(), NoMemory>
    ensures { OnOk result (list.new.items ≡
        cond wanted (list.old.items ++ number ∷ []) list.old.items) }
{
    if wanted {
        list.push(number)?;
    }
    Ok(())
}

/// Adds a set where it is wanted.
pub fn push_set_where(sets: &mut Vec<Vec<u32>>, set: Vec<u32>, wanted: bool) -> Result<(), NoMemory>
    ensures { OnOk result (map (λ set. set.items) sets.new.items ≡
        cond wanted (map (λ set. set.items) sets.old.items ++ set.items ∷ [])
        (map (λ set. set.items) sets.old.items)) }
{
    if wanted {
        sets.push(set)?;
    }
    Ok(())
}
