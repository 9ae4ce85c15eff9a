//! An index from each number to the members that hold it: pairs of a number and the place of a
//! member, in order of the numbers.
ghost use Rattle.std.specs.Prelude.{ℕ, ◌≡◌, ◌<◌, ◌≤◌, ◌++◌, IfOk, OnOk, length, map};
ghost use Rattle.std.specs.List.{Contains};
ghost use Rattle.std.specs.List.Sorted.{IsNonDecreasingBy, IsPartitionPoint};
ghost use Rattle.subset_drop.specs.Index.{AreHolders, HasPairsOf, IsIndex};

use sky_units::NoMemory;
use std::alloc::Global;

/// The index of the members with these numbers.
pub fn index_of(alloc: Global, lists: &[Vec<u32>]) -> Result<Vec<(u32, usize)>, NoMemory>
    ensures { IfOk result (λ pairs. IsIndex (map (λ list. list.items) lists.now) pairs.items) }
{
    let mut pairs = pairs_of(alloc, lists)?;
    pairs.sort_by_key(|pair| pair.0)?;
    Ok(pairs)
}

/// The pairs of each number and the place of a member that holds it, member by member.
fn pairs_of(alloc: Global, lists: &[Vec<u32>]) -> Result<Vec<(u32, usize)>, NoMemory>
    ensures { IfOk result (λ pairs.
        HasPairsOf (map (λ list. list.items) lists.now) (length lists.now) pairs.items) }
{
    let mut pairs = Vec::new(alloc);
    for place in 0..lists.len() {
        push_pairs(&mut pairs, lists[place].as_slice(), place)?;
    }
    Ok(pairs)
}

/// Adds the pairs of the numbers and the place of their member.
fn push_pairs(pairs: &mut Vec<(u32, usize)>, numbers: &[u32], place: usize) -> Result<(), NoMemory>
    ensures { OnOk result (pairs.new.items ≡
        pairs.old.items ++ map (λ number. (number, place)) numbers.now) }
{
    for number in numbers {
        pairs.push((*number, place))?;
    }
    Ok(())
}

/// The pairs of the rarest of some numbers, which are not none: the one that fewest members hold.
pub fn rarest<'a>(pairs: &'a [(u32, usize)], numbers: &[u32]) -> &'a [(u32, usize)]
    requires rising { IsNonDecreasingBy (λ pair. pair.0) pairs.now }
    requires some { 0 < length numbers.now }
    ensures { (number : ℕ) × Contains numbers.now number × AreHolders pairs.now number result.now }
{
    let mut fewest = holders(pairs, numbers[0]);
    for number in numbers {
        let others = holders(pairs, *number);
        if others.len() < fewest.len() {
            fewest = others;
        }
    }
    fewest
}

/// The pairs of a number.
fn holders(pairs: &[(u32, usize)], number: u32) -> &[(u32, usize)]
    requires { IsNonDecreasingBy (λ pair. pair.0) pairs.now }
    ensures { AreHolders pairs.now number result.now }
{
    let first = first_of(pairs, number);
    let end = end_of(pairs, number);
    &pairs[first..end]
}

/// The place of the first pair whose number is not less than this one.
fn first_of(pairs: &[(u32, usize)], number: u32) -> usize
    requires { IsNonDecreasingBy (λ pair. pair.0) pairs.now }
    ensures bound { result ≤ length pairs.now }
    ensures first { IsPartitionPoint (λ pair. pair.0 < number) (λ pair. number ≤ pair.0)
        pairs.now result }
{
    pairs.partition_point(|pair| pair.0 < number)
}

/// The place of the first pair whose number is greater than this one.
fn end_of(pairs: &[(u32, usize)], number: u32) -> usize
    requires { IsNonDecreasingBy (λ pair. pair.0) pairs.now }
    ensures bound { result ≤ length pairs.now }
    ensures end { IsPartitionPoint (λ pair. pair.0 ≤ number) (λ pair. number < pair.0)
        pairs.now result }
{
    pairs.partition_point(|pair| pair.0 <= number)
}
