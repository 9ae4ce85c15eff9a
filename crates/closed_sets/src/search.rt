//! The search for closed sets. From a set it goes over the numbers that fit together with it. A largest
//! fitting set of them is put together greedily; every other closed set holds a number outside it,
//! so only these numbers are branched over, and one that is done is excluded from the branches to come.

ghost use Rattle.std.specs.Prelude.{ℕ, ◌≡◌, ◌<◌, ◌≤◌, ◌↔◌, [], ◌∷◌, take, get_or, map, length, IfOk, IsTrue, OnOk};
ghost use Rattle.std.specs.List.{Contains};
ghost use Rattle.closed_sets.specs.Around.{FitTogether};
ghost use Rattle.closed_sets.specs.Counting.{IsPaid, Rises};
ghost use Rattle.closed_sets.specs.Search.{AreOthers, AreParted, Gains, IsBranch, IsClosedFrom, IsGrown, IsNode, IsSettled};

use crate::candidates::{fits_with_none, fitting, largest_of};
use crate::family::Family;
use crate::sets::{has, push_set_where, push_where, united};
use sky_units::{NoMemory, Tally};
use std::alloc::Global;

/// Where the search stands: a fitting set, and its others.
#[derive(Drop)]
pub struct Node {
    /// The set.
    pub set: Vec<u32>,
    /// The other numbers that fit together with it.
    pub others: Others,
}

/// Numbers that fit together with a set: the excluded ones, and behind them the candidates.
#[derive(Drop)]
pub struct Others {
    /// The numbers, each once.
    pub numbers: Vec<u32>,
    /// How many of them are excluded.
    pub first: usize,
}

/// Adds the closed sets that have all of a node's set and none of the excluded numbers.
pub fn explore<F: Family>(
    alloc: Global,
    family: &F,
    node: &Node,
    found: &mut Vec<Vec<u32>>,
    tally: &mut Tally,
) -> Result<(), NoMemory>
    requires { IsNode (F.Fits family.now) node.now.set.items node.now.others.numbers.items
        node.now.others.first }
    ensures gains { OnOk result (Gains (IsClosedFrom (F.Fits family.now) node.now.set.items
        (take node.now.others.first node.now.others.numbers.items))
        (map (λ set. set.items) found.old.items) (map (λ set. set.items) found.new.items)) }
    ensures paid { (size : ℕ) → length node.now.others.numbers.items ≤ size →
        IsPaid (IsGrown (F.Fits family.now) node.now.set.items
        (take node.now.others.first node.now.others.numbers.items))
        size 0 tally.old.tests tally.new.tests }
{
    let rest = settle(alloc, family, node, found, tally)?;
    let mut place = rest.first;
    while place > node.others.first {
        place -= 1;
        let branch = branch_at(
            alloc,
            family,
            node.set.as_slice(),
            rest.numbers.as_slice(),
            place,
            tally,
        )?;
        explore(alloc, family, &branch, found, tally)?;
    }
    Ok(())
}

/// Excludes a node's candidates outside a largest set too, and adds that set where it is closed.
/// Where there are no candidates, no test is made.
pub fn settle<F: Family>(
    alloc: Global,
    family: &F,
    node: &Node,
    found: &mut Vec<Vec<u32>>,
    tally: &mut Tally,
) -> Result<Others, NoMemory>
    requires fits { F.Fits family.now node.now.set.items }
    requires others { (x : ℕ) → Contains node.now.others.numbers.items x →
        FitTogether (F.Fits family.now) (x ∷ node.now.set.items) }
    requires within { node.now.others.first ≤ length node.now.others.numbers.items }
    ensures settled { IfOk result (λ rest. IsSettled (F.Fits family.now) node.now.set.items
        node.now.others.numbers.items node.now.others.first rest.numbers.items rest.first
        (map (λ set. set.items) found.old.items) (map (λ set. set.items) found.new.items)) }
    ensures tests { Rises (length node.now.others.numbers.items)
        tally.old.tests tally.new.tests }
    ensures none { length node.now.others.numbers.items ≤ node.now.others.first →
        tally.new.tests ≡ tally.old.tests }
{
    let numbers = node.others.numbers.as_slice();
    let excluded = &numbers[..node.others.first];
    let candidates = &numbers[node.others.first..];
    let largest = largest_of(alloc, family, node.set.as_slice(), candidates, tally)?;
    let closed = stands_alone(
        alloc,
        family,
        largest.as_slice(),
        excluded,
        candidates,
        tally,
    )?;
    let rest = parted(alloc, excluded, candidates, largest.as_slice())?;
    push_set_where(found, largest, closed)?;
    Ok(rest)
}

/// Whether no excluded number fits together with a largest set. Where there are no candidates, all
/// excluded numbers do.
fn stands_alone<F: Family>(
    alloc: Global,
    family: &F,
    largest: &[u32],
    excluded: &[u32],
    candidates: &[u32],
    tally: &mut Tally,
) -> Result<bool, NoMemory>
    requires { candidates.now ≡ [] → (x : ℕ) → Contains excluded.now x →
        FitTogether (F.Fits family.now) (x ∷ largest.now) }
    ensures alone { IfOk result (λ alone. IsTrue alone ↔ ((x : ℕ) → Contains excluded.now x →
        ¬ FitTogether (F.Fits family.now) (x ∷ largest.now))) }
    ensures tests { Rises (length excluded.now) tally.old.tests tally.new.tests }
    ensures none { candidates.now ≡ [] → tally.new.tests ≡ tally.old.tests }
{
    if candidates.is_empty() {
        return Ok(excluded.is_empty());
    }
    fits_with_none(alloc, family, largest, excluded, tally)
}

/// Numbers with those candidates excluded too that are not in a set.
pub fn parted(
    alloc: Global,
    excluded: &[u32],
    candidates: &[u32],
    set: &[u32],
) -> Result<Others, NoMemory>
    ensures { IfOk result (λ rest.
        AreParted excluded.now candidates.now set.now rest.numbers.items rest.first) }
{
    let mut outside = Vec::new(alloc);
    let mut inside = Vec::new(alloc);
    for candidate in candidates {
        let is_inside = has(set, *candidate);
        push_where(&mut outside, *candidate, !is_inside)?;
        push_where(&mut inside, *candidate, is_inside)?;
    }
    let mut numbers = excluded.to_vec(alloc)?;
    numbers.extend_from_slice(outside.as_slice())?;
    let first = numbers.len();
    numbers.extend_from_slice(inside.as_slice())?;
    Ok(Others { numbers, first })
}

/// The node of a set and the number at a place of its others. What stands before is excluded.
fn branch_at<F: Family>(
    alloc: Global,
    family: &F,
    set: &[u32],
    others: &[u32],
    place: usize,
    tally: &mut Tally,
) -> Result<Node, NoMemory>
    requires others { AreOthers (F.Fits family.now) set.now others.now }
    requires place { place < length others.now }
    ensures branch { IfOk result (λ branch. IsBranch (F.Fits family.now) set.now
        (take place others.now) (get_or others.now place 0) branch.set.items
        branch.others.numbers.items branch.others.first) }
    ensures smaller { IfOk result (λ branch.
        length branch.others.numbers.items < length others.now) }
    ensures tests { Rises (length others.now) tally.old.tests tally.new.tests }
{
    let grown = united(alloc, set, [others[place]].as_slice())?;
    let mut numbers = fitting(alloc, family, grown.as_slice(), &others[..place], tally)?;
    let first = numbers.len();
    let candidates = fitting(alloc, family, grown.as_slice(), &others[place + 1..], tally)?;
    numbers.extend_from_slice(candidates.as_slice())?;
    Ok(Node {
        set: grown,
        others: Others { numbers, first },
    })
}
