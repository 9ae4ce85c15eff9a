//! The numbers of the tracklets of some nights.
ghost use Rattle.std.specs.Prelude.{◌≡◌, ℤ, MatchOption, OnOk};
ghost use Rattle.std.specs.List.{All};
ghost use Rattle.tracklet_register.specs.Entries.{IsFirstOf, IsOther};
ghost use Rattle.tracklet_register.specs.Registers.{HasNight, numbers_of};

use sky_units::NoMemory;
use std::alloc::Global;

/// A night's number, and the numbers of its tracklets in their order.
#[derive(Drop)]
pub struct NightNumbers {
    pub number: i64,
    pub numbers: Vec<u32>,
}

/// The numbers of the tracklets of a night; none of a night that isn't there.
pub fn numbers_of(nights: &[NightNumbers], number: i64) -> &[u32]
    ensures { result.now ≡ numbers_of nights.now number }
{
    match index_of(nights, number) {
        Some(index) => nights[index].numbers.as_slice(),
        None => &[],
    }
}

/// The index of the entry of a night.
fn index_of(nights: &[NightNumbers], number: i64) -> Option<usize>
    ensures { MatchOption result (All (IsOther number) nights.now)
        (λ index. IsFirstOf nights.now number index) }
{
    for index in 0..nights.len() {
        if nights[index].number == number {
            return Some(index);
        }
    }
    None
}

/// Enters a night with no tracklets, where it isn't there.
pub fn enter_night(
    alloc: Global,
    nights: &mut Vec<NightNumbers>,
    number: i64,
) -> Result<(), NoMemory>
    ensures same { (night : ℤ) →
        numbers_of nights.new.items night ≡ numbers_of nights.old.items night }
    ensures there { OnOk result (HasNight nights.new.items number) }
    ensures entered { (night : ℤ) → HasNight nights.old.items night →
        HasNight nights.new.items night }
{
    if let Some(_) = index_of(nights.as_slice(), number) {
        return Ok(());
    }
    nights.push(NightNumbers {
        number,
        numbers: Vec::new(alloc),
    })?;
    Ok(())
}

/// Gives a night, which is there, other numbers.
pub fn put_numbers(nights: &mut Vec<NightNumbers>, number: i64, numbers: Vec<u32>)
    requires { HasNight nights.old.items number }
    ensures here { numbers_of nights.new.items number ≡ numbers.items }
    ensures others { (night : ℤ) → ¬ (night ≡ number) →
        numbers_of nights.new.items night ≡ numbers_of nights.old.items night }
    ensures there { HasNight nights.new.items number }
    ensures entered { (night : ℤ) → HasNight nights.old.items night →
        HasNight nights.new.items night }
{
    if let Some(index) = index_of(nights.as_slice(), number) {
        nights[index] = NightNumbers { number, numbers };
    }
}
