//! The closed sets that hold an item.

ghost use Rattle.std.specs.Prelude.{ℕ, List, ◌≡◌, ◌+◌, ◌*◌, ◌≤◌, ◌↔◌, [], ◌∷◌, map, length, take, IfOk};
ghost use Rattle.std.specs.List.{Contains};
ghost use Rattle.closed_sets.specs.Around.{AreClosedSetsWith, AreFittingPairs, HasBothOfEach, IsFittingWith, IsFree};
ghost use Rattle.closed_sets.specs.Counting.{IsPaid};
ghost use Rattle.closed_sets.specs.Families.{IsClosed, IsSet};
ghost use Rattle.closed_sets.specs.Search.{Gains, IsClosedFrom, IsStart, LiesInThree};

use crate::family::Family;
use crate::roots::{partners_of, root_at};
use crate::search::{Node, explore, settle};
use crate::sets::{has_rising, in_order};
use sky_units::{NoMemory, Tally};
use std::alloc::Global;

/// The closed sets of three or more that hold an item and none of the done numbers
/// (`AreClosedSetsWith`): each a list of rising numbers, in lexicographic order.
///
/// `done` rises. `pairs` are exactly the fitting pairs around the item (`AreFittingPairs`), done
/// numbers among them, in any order. The tally rises by at most L for each fitting set of three or
/// more that holds the item and none of the done numbers (`IsPaid`), where L bounds the number of
/// those that stand in a pair. Where there are no pairs, no test is made. The only error is want of
/// memory.
pub fn closed_sets_with<F: Family>(
    alloc: Global,
    family: &F,
    item: u32,
    done: &[u32],
    pairs: &[(u32, u32)],
    tally: &mut Tally,
) -> Result<Vec<Vec<u32>>, NoMemory>
    requires done { IsSet done.now }
    requires pairs { AreFittingPairs (F.Fits family.now) item pairs.now }
    ensures sets { IfOk result (λ sets. AreClosedSetsWith (F.Fits family.now) item done.now
        (map (λ set. set.items) sets.items)) }
    ensures paid { (partners : List ℕ) → HasBothOfEach pairs.now partners →
        IsPaid (IsFittingWith (F.Fits family.now) item done.now) (length partners) 0
        tally.old.tests tally.new.tests }
    ensures tests { (partners : List ℕ) (all : List (List ℕ)) →
        HasBothOfEach pairs.now partners →
        ((set : List ℕ) → IsFittingWith (F.Fits family.now) item done.now set → Contains all set) →
        tally.new.tests ≤ tally.old.tests + length partners * length all }
    ensures none { pairs.now ≡ [] → tally.new.tests ≡ tally.old.tests }
{
    let found = found_with(alloc, family, item, done, pairs, tally)?;
    Ok(in_order(found))
}

/// The same in some order, maybe several times.
fn found_with<F: Family>(
    alloc: Global,
    family: &F,
    item: u32,
    done: &[u32],
    pairs: &[(u32, u32)],
    tally: &mut Tally,
) -> Result<Vec<Vec<u32>>, NoMemory>
    requires done { IsSet done.now }
    requires pairs { AreFittingPairs (F.Fits family.now) item pairs.now }
    ensures sets { IfOk result (λ sets. (set : List ℕ) →
        Contains (map (λ set. set.items) sets.items) set ↔
        (IsClosed (F.Fits family.now) set × Contains set item × IsFree done.now set ×
        3 ≤ length set)) }
    ensures paid { (partners : List ℕ) → HasBothOfEach pairs.now partners →
        IsPaid (IsFittingWith (F.Fits family.now) item done.now) (length partners) 0
        tally.old.tests tally.new.tests }
{
    if has_rising(done, item) {
        return Ok(Vec::new(alloc));
    }
    let others = partners_of(alloc, done, pairs)?;
    if others.first == others.numbers.len() {
        return Ok(Vec::new(alloc));
    }
    let set = vec![in alloc; item]?;
    found_from(alloc, family, item, pairs, &Node { set, others }, tally)
}

/// The closed sets of three or more that the search finds from where it starts.
fn found_from<F: Family>(
    alloc: Global,
    family: &F,
    item: u32,
    pairs: &[(u32, u32)],
    start: &Node,
    tally: &mut Tally,
) -> Result<Vec<Vec<u32>>, NoMemory>
    requires pairs { AreFittingPairs (F.Fits family.now) item pairs.now }
    requires start { IsStart (F.Fits family.now) item pairs.now start.now.set.items
        start.now.others.numbers.items start.now.others.first }
    ensures gains { IfOk result (λ sets. Gains
        (IsClosedFrom (LiesInThree (F.Fits family.now)) (item ∷ [])
        (take start.now.others.first start.now.others.numbers.items))
        [] (map (λ set. set.items) sets.items)) }
    ensures paid { (size : ℕ) → length start.now.others.numbers.items ≤ size →
        IsPaid (IsFittingWith (F.Fits family.now) item
        (take start.now.others.first start.now.others.numbers.items))
        size 0 tally.old.tests tally.new.tests }
{
    let mut found = Vec::new(alloc);
    let rest = settle(alloc, family, start, &mut found, tally)?;
    let mut place = rest.first;
    while place > start.others.first {
        place -= 1;
        let root = root_at(alloc, item, pairs, rest.numbers.as_slice(), place)?;
        explore(alloc, family, &root, &mut found, tally)?;
    }
    Ok(found)
}
