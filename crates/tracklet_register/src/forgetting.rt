//! Nights that go whole: their numbers are told first, and then the nights are forgotten.
ghost use Rattle.std.specs.Prelude.{ℕ, ◌≡◌, ◌⊎◌, ◌↔◌, ℤ, ◌<ℤ◌, [], IfOk, OnOk};
ghost use Rattle.std.specs.List.{Contains, filter};
ghost use Rattle.std.specs.Int.Signed.{lt_z};
ghost use Rattle.tracklet_register.specs.Entries.{isnt_before, isnt_of};
ghost use Rattle.tracklet_register.specs.Registers.{IsBefore, numbers_of};

use crate::nights::{NightNumbers, numbers_of};
use sky_units::NoMemory;
use std::alloc::Global;

/// The numbers of the tracklets of the nights before one, one night after the other.
pub fn numbers_before(
    alloc: Global,
    nights: &[NightNumbers],
    first: i64,
) -> Result<Vec<u32>, NoMemory>
    ensures { IfOk result (λ numbers. (number : ℕ) →
        Contains numbers.items number ↔ IsBefore nights.now first number) }
{
    let mut numbers = Vec::new(alloc);
    for index in 0..nights.len() {
        push_before(&mut numbers, nights, nights[index].number, first)?;
    }
    Ok(numbers)
}

/// Adds the numbers of a night, where it lies before another one.
fn push_before(
    numbers: &mut Vec<u32>,
    nights: &[NightNumbers],
    night: i64,
    first: i64,
) -> Result<(), NoMemory>
    ensures { OnOk result ((number : ℕ) → Contains numbers.new.items number ↔
        (Contains numbers.old.items number ⊎
        ((night <ℤ first) × Contains (numbers_of nights.now night) number))) }
{
    if night < first {
        numbers.extend_from_slice(numbers_of(nights, night))?;
    }
    Ok(())
}

/// Forgets a night.
pub fn forget_night(nights: &mut Vec<NightNumbers>, number: i64)
    ensures { nights.new.items ≡ filter (isnt_of number) nights.old.items }
{
    nights.retain(|night| night.number != number);
}

/// Forgets the nights before one.
pub fn forget_before(nights: &mut Vec<NightNumbers>, first: i64)
    ensures { nights.new.items ≡ filter (isnt_before first) nights.old.items }
{
    nights.retain(|night| night.number >= first);
}
