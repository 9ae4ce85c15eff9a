//! The closed sets that hold an item, among numbers of which no pairs are known.

ghost use Rattle.std.specs.Prelude.{ℕ, List, ◌≡◌, ◌+◌, ◌*◌, ◌<◌, ◌≤◌, ◌↔◌, [], ◌∷◌, get_or, map, length, take, IfOk, IsTrue, OnOk};
ghost use Rattle.std.specs.List.{Contains};
ghost use Rattle.closed_sets.specs.Around.{AreClosedSetsWith, FitTogether, HasPartners, IsFittingWith, IsFree};
ghost use Rattle.closed_sets.specs.Counting.{IsPaid, Rises};
ghost use Rattle.closed_sets.specs.Families.{IsClosed, IsSet};
ghost use Rattle.closed_sets.specs.Search.{AreBeside, AreSplit, Gains, IsClosedFrom, IsSettledAround, LiesInThree};

use crate::candidates::{fits_with_none, fitting, largest_beside};
use crate::family::Family;
use crate::roots::{shared, without};
use crate::search::{Node, Others, explore, parted};
use crate::sets::{has_rising, in_order, push_set_where, set_of, united};
use sky_units::{NoMemory, Tally};
use std::alloc::Global;

/// The closed sets of three or more that hold an item and none of the done numbers
/// (`AreClosedSetsWith`): each a list of rising numbers, in lexicographic order.
///
/// `done` rises. `partners` has each number of a fitting set of three or more that holds the item
/// (`HasPartners`), done numbers among them; it may have others, in any order. Where all partners that are
/// not done fit together with the item, two tests find their set, and at most one for each done partner
/// tells whether it is closed. The tally rises by at most L for each fitting set of three or more that
/// holds the item and none of the done numbers (`IsPaid`), and by at most `(L + 1) * (L + 2)`
/// beside it, where L is the number of partners. The only error is want of memory.
pub fn closed_sets_among<F: Family>(
    alloc: Global,
    family: &F,
    item: u32,
    done: &[u32],
    partners: &[u32],
    tally: &mut Tally,
) -> Result<Vec<Vec<u32>>, NoMemory>
    requires done { IsSet done.now }
    requires partners { HasPartners (F.Fits family.now) item partners.now }
    ensures sets { IfOk result (λ sets. AreClosedSetsWith (F.Fits family.now) item done.now
        (map (λ set. set.items) sets.items)) }
    ensures paid { IsPaid (IsFittingWith (F.Fits family.now) item done.now) (length partners.now)
        ((length partners.now + 1) * (length partners.now + 2))
        tally.old.tests tally.new.tests }
    ensures tests { (all : List (List ℕ)) →
        ((set : List ℕ) → IsFittingWith (F.Fits family.now) item done.now set → Contains all set) →
        tally.new.tests ≤ tally.old.tests + (length partners.now + 1) * (length partners.now + 2)
        + length partners.now * length all }
{
    let found = found_among(alloc, family, item, done, partners, tally)?;
    Ok(in_order(found))
}

/// The same in some order, maybe several times.
fn found_among<F: Family>(
    alloc: Global,
    family: &F,
    item: u32,
    done: &[u32],
    partners: &[u32],
    tally: &mut Tally,
) -> Result<Vec<Vec<u32>>, NoMemory>
    requires done { IsSet done.now }
    requires partners { HasPartners (F.Fits family.now) item partners.now }
    ensures sets { IfOk result (λ sets. (set : List ℕ) →
        Contains (map (λ set. set.items) sets.items) set ↔
        (IsClosed (F.Fits family.now) set × Contains set item × IsFree done.now set ×
        3 ≤ length set)) }
    ensures paid { IsPaid (IsFittingWith (F.Fits family.now) item done.now) (length partners.now)
        ((length partners.now + 1) * (length partners.now + 2))
        tally.old.tests tally.new.tests }
{
    if has_rising(done, item) {
        return Ok(Vec::new(alloc));
    }
    let others = split_by_done(alloc, item, done, partners)?;
    let alone = vec![in alloc; item]?;
    if !family.fits(alone.as_slice(), tally)? {
        return Ok(Vec::new(alloc));
    }
    found_beside(alloc, family, item, &others, tally)
}

/// Some numbers without an item, each once: the done ones are excluded.
fn split_by_done(
    alloc: Global,
    item: u32,
    done: &[u32],
    numbers: &[u32],
) -> Result<Others, NoMemory>
    requires done { IsSet done.now }
    requires item { ¬ Contains done.now item }
    ensures { IfOk result (λ others.
        AreSplit item done.now numbers.now others.numbers.items others.first) }
{
    let copy = numbers.to_vec(alloc)?;
    let all = set_of(copy);
    let left = without(alloc, all.as_slice(), done)?;
    let candidates = without(alloc, left.as_slice(), [item].as_slice())?;
    let mut numbers = shared(alloc, all.as_slice(), done)?;
    let first = numbers.len();
    numbers.extend_from_slice(candidates.as_slice())?;
    Ok(Others { numbers, first })
}

/// The closed sets of three or more that hold an item and none of the excluded numbers beside it.
fn found_beside<F: Family>(
    alloc: Global,
    family: &F,
    item: u32,
    others: &Others,
    tally: &mut Tally,
) -> Result<Vec<Vec<u32>>, NoMemory>
    requires fits { F.Fits family.now (item ∷ []) }
    requires others { AreBeside (LiesInThree (F.Fits family.now)) (item ∷ [])
        others.now.numbers.items }
    requires within { others.now.first ≤ length others.now.numbers.items }
    ensures gains { IfOk result (λ sets. Gains
        (IsClosedFrom (LiesInThree (F.Fits family.now)) (item ∷ [])
        (take others.now.first others.now.numbers.items))
        [] (map (λ set. set.items) sets.items)) }
    ensures paid { (size : ℕ) → length others.now.numbers.items ≤ size →
        IsPaid (IsFittingWith (F.Fits family.now) item
        (take others.now.first others.now.numbers.items))
        size (size * size + size + 1) tally.old.tests tally.new.tests }
{
    let mut found = Vec::new(alloc);
    let rest = settle_around(alloc, family, item, others, &mut found, tally)?;
    let mut place = rest.first;
    while place > others.first {
        place -= 1;
        explore_at(
            alloc,
            family,
            item,
            rest.numbers.as_slice(),
            place,
            &mut found,
            tally,
        )?;
    }
    Ok(found)
}

/// Excludes the candidates outside a largest set too, and adds that set where it is closed.
fn settle_around<F: Family>(
    alloc: Global,
    family: &F,
    item: u32,
    others: &Others,
    found: &mut Vec<Vec<u32>>,
    tally: &mut Tally,
) -> Result<Others, NoMemory>
    requires fits { F.Fits family.now (item ∷ []) }
    requires within { others.now.first ≤ length others.now.numbers.items }
    ensures settled { IfOk result (λ rest. IsSettledAround (F.Fits family.now) item
        others.now.numbers.items others.now.first rest.numbers.items rest.first
        (map (λ set. set.items) found.old.items) (map (λ set. set.items) found.new.items)) }
    ensures tests { Rises (length others.now.numbers.items + 1)
        tally.old.tests tally.new.tests }
{
    let numbers = others.numbers.as_slice();
    let excluded = &numbers[..others.first];
    let candidates = &numbers[others.first..];
    let alone = vec![in alloc; item]?;
    let largest = largest_beside(alloc, family, alone, candidates, tally)?;
    let closed = is_large_alone(alloc, family, largest.as_slice(), excluded, tally)?;
    let rest = parted(alloc, excluded, candidates, largest.as_slice())?;
    push_set_where(found, largest, closed)?;
    Ok(rest)
}

/// Whether a set has three or more, and no excluded number fits together with it.
fn is_large_alone<F: Family>(
    alloc: Global,
    family: &F,
    set: &[u32],
    excluded: &[u32],
    tally: &mut Tally,
) -> Result<bool, NoMemory>
    ensures alone { IfOk result (λ alone. IsTrue alone ↔ (3 ≤ length set.now ×
        ((x : ℕ) → Contains excluded.now x →
        ¬ FitTogether (F.Fits family.now) (x ∷ set.now)))) }
    ensures tests { Rises (length excluded.now) tally.old.tests tally.new.tests }
{
    if set.len() < 3 {
        return Ok(false);
    }
    fits_with_none(alloc, family, set, excluded, tally)
}

/// Adds the closed sets of three or more that hold an item and the number at a place beside it, and none
/// that stands before. Where no number behind it fits together with both, there are none.
fn explore_at<F: Family>(
    alloc: Global,
    family: &F,
    item: u32,
    numbers: &[u32],
    place: usize,
    found: &mut Vec<Vec<u32>>,
    tally: &mut Tally,
) -> Result<(), NoMemory>
    requires numbers { AreBeside (LiesInThree (F.Fits family.now)) (item ∷ []) numbers.now }
    requires place { place < length numbers.now }
    ensures gains { OnOk result (Gains (IsClosedFrom (LiesInThree (F.Fits family.now))
        (get_or numbers.now place 0 ∷ item ∷ []) (take place numbers.now))
        (map (λ set. set.items) found.old.items) (map (λ set. set.items) found.new.items)) }
    ensures paid { (size : ℕ) → length numbers.now ≤ size →
        IsPaid (λ (set : List ℕ). IsFittingWith (F.Fits family.now) item (take place numbers.now) set ×
        Contains set (get_or numbers.now place 0))
        size size tally.old.tests tally.new.tests }
{
    let set = united(alloc, [item].as_slice(), [numbers[place]].as_slice())?;
    let candidates = fitting(alloc, family, set.as_slice(), &numbers[place + 1..], tally)?;
    if candidates.is_empty() {
        return Ok(());
    }
    let mut others = fitting(alloc, family, set.as_slice(), &numbers[..place], tally)?;
    let first = others.len();
    others.extend_from_slice(candidates.as_slice())?;
    let root = Node {
        set,
        others: Others {
            numbers: others,
            first,
        },
    };
    explore(alloc, family, &root, found, tally)?;
    Ok(())
}
