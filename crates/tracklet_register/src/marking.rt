//! The table of places, and which numbers are taken.
ghost use Rattle.std.specs.Prelude.{ℕ, ◌≡◌, ◌<◌, ◌≤◌, ◌^◌, Some, OnOk, length, slice_get};
ghost use Rattle.std.specs.List.{Contains};
ghost use Rattle.tracklet_register.specs.Registers.{is_taken};
ghost use Rattle.tracklet_register.specs.Replacing.{AreDifferent};

use set_grow::Place;
use sky_units::NoMemory;

/// Writes into the table that some numbers are those of a night's tracklets, in their order.
pub fn write_places(table: &mut Vec<Place>, night: i64, numbers: &[u32])
    requires few { length numbers.now < 2 ^ 32 }
    requires within { (number : ℕ) → Contains numbers.now number → number < length table.old.items }
    requires once { AreDifferent numbers.now }
    ensures leads { (place number : ℕ) → slice_get numbers.now place ≡ Some number →
        slice_get table.new.items number ≡ Some (record { night = night; place = place }) }
    ensures others { (number : ℕ) → ¬ (Contains numbers.now number) →
        slice_get table.new.items number ≡ slice_get table.old.items number }
    ensures len { length table.new.items ≡ length table.old.items }
{
    for place in 0..numbers.len() {
        table[numbers[place] as usize] = Place {
            night,
            place: place as u32,
        };
    }
}

/// Marks some numbers as taken, or as free. What lies behind the end is free.
pub fn mark(taken: &mut Vec<bool>, numbers: &[u32], value: bool)
    ensures listed { (number : ℕ) → Contains numbers.now number → number < length taken.old.items →
        is_taken taken.new.items number ≡ value }
    ensures others { (number : ℕ) → ¬ (Contains numbers.now number) →
        is_taken taken.new.items number ≡ is_taken taken.old.items number }
    ensures len { length taken.new.items ≡ length taken.old.items }
{
    for number in numbers {
        mark_one(taken, *number as usize, value);
    }
}

/// Marks a number as taken, or as free.
fn mark_one(taken: &mut Vec<bool>, number: usize, value: bool)
    ensures here { number < length taken.old.items → is_taken taken.new.items number ≡ value }
    ensures others { (other : ℕ) → ¬ (other ≡ number) →
        is_taken taken.new.items other ≡ is_taken taken.old.items other }
    ensures len { length taken.new.items ≡ length taken.old.items }
{
    if number < taken.len() {
        taken[number] = value;
    }
}

/// Makes the table and the marks at least so long. What is new is free.
pub fn lengthen(table: &mut Vec<Place>, taken: &mut Vec<bool>, end: usize) -> Result<(), NoMemory>
    ensures table { (number : ℕ) (place : Place) → slice_get table.old.items number ≡ Some place →
        slice_get table.new.items number ≡ Some place }
    ensures taken { (number : ℕ) →
        is_taken taken.new.items number ≡ is_taken taken.old.items number }
    ensures longer { length table.old.items ≤ length table.new.items }
    ensures room { OnOk result ((end ≤ length table.new.items) × (end ≤ length taken.new.items)) }
{
    lengthen_table(table, end)?;
    lengthen_marks(taken, end)
}

/// Makes the table at least so long.
fn lengthen_table(table: &mut Vec<Place>, end: usize) -> Result<(), NoMemory>
    ensures same { (number : ℕ) (place : Place) → slice_get table.old.items number ≡ Some place →
        slice_get table.new.items number ≡ Some place }
    ensures longer { length table.old.items ≤ length table.new.items }
    ensures room { OnOk result (end ≤ length table.new.items) }
{
    if table.len() < end {
        table.resize(end, Place { night: 0, place: 0 })?;
    }
    Ok(())
}

/// Makes the marks at least so long.
fn lengthen_marks(taken: &mut Vec<bool>, end: usize) -> Result<(), NoMemory>
    ensures same { (number : ℕ) →
        is_taken taken.new.items number ≡ is_taken taken.old.items number }
    ensures room { OnOk result (end ≤ length taken.new.items) }
{
    if taken.len() < end {
        taken.resize(end, false)?;
    }
    Ok(())
}
