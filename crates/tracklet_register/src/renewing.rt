//! Numbers for the tracklets of a night that is built anew.
ghost use Rattle.std.specs.Prelude.{ℕ, ◌≡◌, ◌<◌, ◌≤◌, ◌↔◌, ◌^◌, true, false, not, IfOk, MatchOption, OnOk, length};
ghost use Rattle.std.specs.List.{Contains, filter};
ghost use Rattle.closed_sets.specs.Families.{IsSet};
ghost use Rattle.kept_sets.specs.Lists.{is_one};
ghost use Rattle.set_grow.specs.Nights.{numbered_by};
ghost use Rattle.tracklet_register.specs.Registers.{is_taken};
ghost use Rattle.tracklet_register.specs.Renewing.{Gains, Keeps};
ghost use Rattle.tracklet_register.specs.Replacing.{AreDifferent, AreRenewed};

use crate::matching::{number_of, places_of};
use sky_units::{NoMemory, Tracklet};
use std::alloc::{AllocError, Global};

/// Numbers of a night's tracklets in their order, and those of them that came.
#[derive(Drop)]
pub struct NewNumbers {
    pub numbers: Vec<u32>,
    pub came: Vec<u32>,
    /// All numbers that came are below it.
    pub end: usize,
}

/// Numbers for the tracklets of a night: those that were there keep theirs, and the others get the
/// least free ones. More than 2^32 numbers want memory.
pub fn renew(
    alloc: Global,
    before: &[Tracklet],
    numbers: &[u32],
    after: &[Tracklet],
    taken: &[bool],
) -> Result<NewNumbers, NoMemory>
    requires size { length numbers.now ≡ length before.now }
    requires once { AreDifferent numbers.now }
    requires held { (number : ℕ) → Contains numbers.now number →
        is_taken taken.now number ≡ true }
    requires different { AreDifferent after.now }
    ensures { IfOk result (λ renewed. AreRenewed (numbered_by numbers.now before.now) taken.now
        after.now renewed.numbers.items renewed.came.items renewed.end) }
{
    let places = places_of(alloc, before)?;
    let mut renewed = NewNumbers {
        numbers: Vec::new(alloc),
        came: Vec::new(alloc),
        end: 0,
    };
    for tracklet in after {
        let kept = number_of(alloc, &places, before, numbers, tracklet)?;
        push_number(&mut renewed, kept, taken)?;
    }
    Ok(renewed)
}

/// Adds a number that is kept, or, where there is none, the next free one.
fn push_number(renewed: &mut NewNumbers, kept: Option<u32>, taken: &[bool]) -> Result<(), NoMemory>
    ensures { OnOk result (MatchOption kept (Gains taken.now renewed.old renewed.new)
        (λ number. Keeps renewed.old renewed.new number)) }
{
    if let Some(number) = kept {
        renewed.numbers.push(number)?;
        return Ok(());
    }
    let free = next_free(taken, renewed.end);
    let Ok(number) = u32::try_from(free) else {
        return Err(AllocError);
    };
    renewed.numbers.push(number)?;
    renewed.came.push(number)?;
    renewed.end = number as usize + 1;
    Ok(())
}

/// The first free number from one on.
fn next_free(taken: &[bool], from: usize) -> usize
    ensures above { from ≤ result }
    ensures free { is_taken taken.now result ≡ false }
    ensures least { (lower : ℕ) → from ≤ lower → lower < result →
        is_taken taken.now lower ≡ true }
{
    for number in from..taken.len() {
        if !taken[number] {
            return number;
        }
    }
    from.max(taken.len())
}

/// The numbers that are not among others, in order.
pub fn lost(alloc: Global, numbers: &[u32], others: &[u32]) -> Result<Vec<u32>, NoMemory>
    ensures in_order { IfOk result (λ lost. IsSet lost.items) }
    ensures exactly { IfOk result (λ lost. (number : ℕ) → Contains lost.items number ↔
        (Contains numbers.now number × ¬ (Contains others.now number))) }
{
    let kept = in_order(Vec::from_slice(alloc, others)?);
    let lost = without(alloc, kept.as_slice(), numbers)?;
    Ok(in_order(lost))
}

/// Numbers in order, each once.
pub fn in_order(mut numbers: Vec<u32>) -> Vec<u32>
    ensures in_order { IsSet result.items }
    ensures exactly { (number : ℕ) →
        Contains result.items number ↔ Contains numbers.items number }
{
    numbers.sort_unstable();
    numbers.dedup();
    numbers
}

/// Whether a number is one of some that rise.
fn has_rising(numbers: &[u32], number: u32) -> bool
    requires { IsSet numbers.now }
    ensures { result ≡ is_one numbers.now number }
{
    numbers.binary_search(&number).is_ok()
}

/// Numbers without some, which rise.
fn without(alloc: Global, some: &[u32], numbers: &[u32]) -> Result<Vec<u32>, NoMemory>
    requires { IsSet some.now }
    ensures { IfOk result (λ rest. rest.items ≡
        filter (λ number. not (is_one some.now number)) numbers.now) }
{
    numbers
        .iter()
        .copied()
        .filter(|number| !has_rising(some, *number))
        .collect(alloc)
}
