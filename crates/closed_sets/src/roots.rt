//! Where the search around an item begins, read from the fitting pairs around it.

ghost use Rattle.std.specs.Prelude.{ℕ, ◌≡◌, ◌<◌, ◌↔◌, nat_eq, not, length, map, IfOk};
ghost use Rattle.std.specs.List.{Contains, filter};
ghost use Rattle.closed_sets.specs.Families.{IsSet};
ghost use Rattle.closed_sets.specs.Search.{ArePartners, IsPaired, IsRoot, is_one, is_pair_free};

use crate::search::{Node, Others};
use crate::sets::{has_rising, united};
use sky_units::NoMemory;
use std::alloc::Global;

/// The numbers of some pairs, each once. Candidates are those that stand in a pair without done
/// numbers.
pub fn partners_of(alloc: Global, done: &[u32], pairs: &[(u32, u32)]) -> Result<Others, NoMemory>
    requires { IsSet done.now }
    ensures { IfOk result (λ others.
        ArePartners pairs.now done.now others.numbers.items others.first) }
{
    let free = free_pairs(alloc, done, pairs)?;
    let candidates = numbers_of(alloc, free.as_slice())?;
    let all = numbers_of(alloc, pairs)?;
    let mut numbers = without(alloc, all.as_slice(), candidates.as_slice())?;
    let first = numbers.len();
    numbers.extend_from_slice(candidates.as_slice())?;
    Ok(Others { numbers, first })
}

/// The pairs of which neither number is done.
fn free_pairs(
    alloc: Global,
    done: &[u32],
    pairs: &[(u32, u32)],
) -> Result<Vec<(u32, u32)>, NoMemory>
    requires { IsSet done.now }
    ensures { IfOk result (λ free. free.items ≡ filter (is_pair_free done.now) pairs.now) }
{
    pairs
        .iter()
        .copied()
        .filter(|pair| is_free(done, *pair))
        .collect(alloc)
}

/// Whether neither number of a pair is done.
fn is_free(done: &[u32], pair: (u32, u32)) -> bool
    requires { IsSet done.now }
    ensures { result ≡ is_pair_free done.now pair }
{
    if has_rising(done, pair.0) {
        return false;
    }
    !has_rising(done, pair.1)
}

/// The numbers of some pairs, as a set.
fn numbers_of(alloc: Global, pairs: &[(u32, u32)]) -> Result<Vec<u32>, NoMemory>
    ensures is_set { IfOk result (λ numbers. IsSet numbers.items) }
    ensures exactly { IfOk result (λ numbers. (x : ℕ) →
        Contains numbers.items x ↔ ((y : ℕ) × IsPaired pairs.now x y)) }
{
    let firsts = firsts_of(alloc, pairs)?;
    let seconds = seconds_of(alloc, pairs)?;
    united(alloc, firsts.as_slice(), seconds.as_slice())
}

/// The first number of each pair.
fn firsts_of(alloc: Global, pairs: &[(u32, u32)]) -> Result<Vec<u32>, NoMemory>
    ensures { IfOk result (λ firsts.
        firsts.items ≡ map (λ (pair : ℕ × ℕ). pair.0) pairs.now) }
{
    pairs.iter().map(|pair| pair.0).collect(alloc)
}

/// The second number of each pair.
fn seconds_of(alloc: Global, pairs: &[(u32, u32)]) -> Result<Vec<u32>, NoMemory>
    ensures { IfOk result (λ seconds.
        seconds.items ≡ map (λ (pair : ℕ × ℕ). pair.1) pairs.now) }
{
    pairs.iter().map(|pair| pair.1).collect(alloc)
}

/// Numbers without those of a set.
pub fn without(alloc: Global, numbers: &[u32], set: &[u32]) -> Result<Vec<u32>, NoMemory>
    requires { IsSet set.now }
    ensures { IfOk result (λ rest.
        rest.items ≡ filter (λ number. not (is_one set.now number)) numbers.now) }
{
    numbers
        .iter()
        .copied()
        .filter(|number| !has_rising(set, *number))
        .collect(alloc)
}

/// The node of an item and its partner at a place. What fits with both is read from the pairs, with no
/// test; what stands before the place is excluded.
pub fn root_at(
    alloc: Global,
    item: u32,
    pairs: &[(u32, u32)],
    others: &[u32],
    place: usize,
) -> Result<Node, NoMemory>
    requires { place < length others.now }
    ensures { IfOk result (λ root. IsRoot item pairs.now others.now place
        root.set.items root.others.numbers.items root.others.first) }
{
    let partners = paired_with(alloc, pairs, others[place])?;
    let set = united(alloc, [item].as_slice(), [others[place]].as_slice())?;
    let mut numbers = shared(alloc, &others[..place], partners.as_slice())?;
    let first = numbers.len();
    let candidates = shared(alloc, &others[place + 1..], partners.as_slice())?;
    numbers.extend_from_slice(candidates.as_slice())?;
    Ok(Node {
        set,
        others: Others { numbers, first },
    })
}

/// Those of some numbers that are in a set.
pub fn shared(alloc: Global, numbers: &[u32], set: &[u32]) -> Result<Vec<u32>, NoMemory>
    requires { IsSet set.now }
    ensures { IfOk result (λ both. both.items ≡ filter (is_one set.now) numbers.now) }
{
    numbers
        .iter()
        .copied()
        .filter(|number| has_rising(set, *number))
        .collect(alloc)
}

/// The numbers that are a pair with one, as a set.
fn paired_with(alloc: Global, pairs: &[(u32, u32)], number: u32) -> Result<Vec<u32>, NoMemory>
    ensures is_set { IfOk result (λ partners. IsSet partners.items) }
    ensures exactly { IfOk result (λ partners. (x : ℕ) →
        Contains partners.items x ↔ IsPaired pairs.now number x) }
{
    let below = firsts_with(alloc, pairs, number)?;
    let above = seconds_with(alloc, pairs, number)?;
    united(alloc, below.as_slice(), above.as_slice())
}

/// The first number of each pair that has this second one.
fn firsts_with(alloc: Global, pairs: &[(u32, u32)], second: u32) -> Result<Vec<u32>, NoMemory>
    ensures { IfOk result (λ firsts. firsts.items ≡ map (λ (pair : ℕ × ℕ). pair.0)
        (filter (λ (pair : ℕ × ℕ). nat_eq pair.1 second) pairs.now)) }
{
    pairs
        .iter()
        .filter(|pair| pair.1 == second)
        .map(|pair| pair.0)
        .collect(alloc)
}

/// The second number of each pair that has this first one.
fn seconds_with(alloc: Global, pairs: &[(u32, u32)], first: u32) -> Result<Vec<u32>, NoMemory>
    ensures { IfOk result (λ seconds. seconds.items ≡ map (λ (pair : ℕ × ℕ). pair.1)
        (filter (λ (pair : ℕ × ℕ). nat_eq pair.0 first) pairs.now)) }
{
    pairs
        .iter()
        .filter(|pair| pair.0 == first)
        .map(|pair| pair.1)
        .collect(alloc)
}
