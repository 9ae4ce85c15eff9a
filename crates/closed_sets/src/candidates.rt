//! Tests of numbers beside a set: which of them fit together with it.

ghost use Rattle.std.specs.Prelude.{ℕ, ◌+◌, ◌↔◌, [], ◌∷◌, length, IfOk, IsTrue};
ghost use Rattle.std.specs.List.{Contains};
ghost use Rattle.closed_sets.specs.Around.{FitTogether};
ghost use Rattle.closed_sets.specs.Counting.{Rises};
ghost use Rattle.closed_sets.specs.Search.{AreFitting, IsLargest};

use crate::family::Family;
use crate::sets::{push_where, united};
use sky_units::{NoMemory, Tally};
use std::alloc::Global;

/// A largest fitting set of a set and some candidates, put together greedily. Where all of them fit
/// together, one test tells it.
pub fn largest_of<F: Family>(
    alloc: Global,
    family: &F,
    set: &[u32],
    candidates: &[u32],
    tally: &mut Tally,
) -> Result<Vec<u32>, NoMemory>
    requires fits { F.Fits family.now set.now }
    requires candidates { (x : ℕ) → Contains candidates.now x →
        FitTogether (F.Fits family.now) (x ∷ set.now) }
    ensures largest { IfOk result (λ largest.
        IsLargest (F.Fits family.now) set.now candidates.now largest.items) }
    ensures tests { Rises (length candidates.now) tally.old.tests tally.new.tests }
{
    match candidates.split_first() {
        None => united(alloc, set, candidates),
        Some((first, rest)) => largest_with(alloc, family, set, *first, rest, tally),
    }
}

/// The same with a first candidate, which is known to fit together with the set.
fn largest_with<F: Family>(
    alloc: Global,
    family: &F,
    set: &[u32],
    first: u32,
    rest: &[u32],
    tally: &mut Tally,
) -> Result<Vec<u32>, NoMemory>
    requires { FitTogether (F.Fits family.now) (first ∷ set.now) }
    ensures largest { IfOk result (λ largest.
        IsLargest (F.Fits family.now) set.now (first ∷ rest.now) largest.items) }
    ensures tests { Rises (length rest.now + 1) tally.old.tests tally.new.tests }
{
    let grown = united(alloc, set, [first].as_slice())?;
    largest_beside(alloc, family, grown, rest, tally)
}

/// A largest fitting set of a fitting set and some candidates, of which none is known to fit together
/// with it. Where all of them do, one test tells it.
pub fn largest_beside<F: Family>(
    alloc: Global,
    family: &F,
    set: Vec<u32>,
    candidates: &[u32],
    tally: &mut Tally,
) -> Result<Vec<u32>, NoMemory>
    requires { F.Fits family.now set.items }
    ensures largest { IfOk result (λ largest.
        IsLargest (F.Fits family.now) set.items candidates.now largest.items) }
    ensures tests { Rises (length candidates.now + 1) tally.old.tests tally.new.tests }
{
    if candidates.len() < 2 {
        return enlarged(alloc, family, set, candidates, tally);
    }
    let whole = united(alloc, set.as_slice(), candidates)?;
    if family.fits(whole.as_slice(), tally)? {
        return Ok(whole);
    }
    enlarged(alloc, family, set, candidates, tally)
}

/// A fitting set with each candidate, in turn, that still fits together with it.
fn enlarged<F: Family>(
    alloc: Global,
    family: &F,
    set: Vec<u32>,
    candidates: &[u32],
    tally: &mut Tally,
) -> Result<Vec<u32>, NoMemory>
    requires { F.Fits family.now set.items }
    ensures largest { IfOk result (λ largest.
        IsLargest (F.Fits family.now) set.items candidates.now largest.items) }
    ensures tests { Rises (length candidates.now) tally.old.tests tally.new.tests }
{
    let mut largest = set;
    for candidate in candidates {
        largest = enlarged_by(alloc, family, largest, *candidate, tally)?;
    }
    Ok(largest)
}

/// A fitting set with a candidate, where the two fit together.
fn enlarged_by<F: Family>(
    alloc: Global,
    family: &F,
    set: Vec<u32>,
    candidate: u32,
    tally: &mut Tally,
) -> Result<Vec<u32>, NoMemory>
    requires { F.Fits family.now set.items }
    ensures largest { IfOk result (λ largest.
        IsLargest (F.Fits family.now) set.items (candidate ∷ []) largest.items) }
    ensures tests { Rises 1 tally.old.tests tally.new.tests }
{
    let more = united(alloc, set.as_slice(), [candidate].as_slice())?;
    if family.fits(more.as_slice(), tally)? {
        return Ok(more);
    }
    Ok(set)
}

/// Those of some numbers that fit together with a set, in their order.
pub fn fitting<F: Family>(
    alloc: Global,
    family: &F,
    set: &[u32],
    numbers: &[u32],
    tally: &mut Tally,
) -> Result<Vec<u32>, NoMemory>
    ensures kept { IfOk result (λ kept.
        AreFitting (F.Fits family.now) set.now numbers.now kept.items) }
    ensures tests { Rises (length numbers.now) tally.old.tests tally.new.tests }
{
    let mut kept = Vec::new(alloc);
    for number in numbers {
        let fits = fits_with(alloc, family, set, *number, tally)?;
        push_where(&mut kept, *number, fits)?;
    }
    Ok(kept)
}

/// Whether none of some numbers fits together with a set.
pub fn fits_with_none<F: Family>(
    alloc: Global,
    family: &F,
    set: &[u32],
    numbers: &[u32],
    tally: &mut Tally,
) -> Result<bool, NoMemory>
    ensures none { IfOk result (λ none. IsTrue none ↔ ((x : ℕ) → Contains numbers.now x →
        ¬ FitTogether (F.Fits family.now) (x ∷ set.now))) }
    ensures tests { Rises (length numbers.now) tally.old.tests tally.new.tests }
{
    for number in numbers {
        if fits_with(alloc, family, set, *number, tally)? {
            return Ok(false);
        }
    }
    Ok(true)
}

/// Whether a number fits together with a set.
fn fits_with<F: Family>(
    alloc: Global,
    family: &F,
    set: &[u32],
    number: u32,
    tally: &mut Tally,
) -> Result<bool, NoMemory>
    ensures fits { IfOk result (λ fits.
        IsTrue fits ↔ FitTogether (F.Fits family.now) (number ∷ set.now)) }
    ensures tests { Rises 1 tally.old.tests tally.new.tests }
{
    let grown = united(alloc, set, [number].as_slice())?;
    family.fits(grown.as_slice(), tally)
}
