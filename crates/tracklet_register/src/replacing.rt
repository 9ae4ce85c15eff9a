//! What an exchange of a night's tracklets will do is found first, with memory, and then done.
ghost use Rattle.std.specs.Prelude.{ℕ, ◌≡◌, ◌<◌, ◌≤◌, ◌↔◌, ◌⊎◌, ◌^◌, ℤ, Some, true, IfOk, OnOk, length, slice_get};
ghost use Rattle.std.specs.List.{Contains};
ghost use Rattle.closed_sets.specs.Families.{IsSet};
ghost use Rattle.set_grow.specs.Nights.{numbered_by};
ghost use Rattle.set_grow.specs.declared.places.Place.{Place};
ghost use Rattle.tracklet_register.specs.Registers.{HasNight, LeadsToPlaces, is_taken, numbers_of};
ghost use Rattle.tracklet_register.specs.Replacing.{AreDifferent, AreRenewed};

use crate::marking::{lengthen, write_places};
use crate::nights::{NightNumbers, enter_night, numbers_of, put_numbers};
use crate::renewing::{lost, renew};
use set_grow::Place;
use sky_units::{NoMemory, Tracklet};
use std::alloc::{AllocError, Global};

/// The numbers that a night lost and gained when its tracklets were replaced, both in order, and the
/// numbers of its tracklets before.
#[derive(Drop)]
pub struct Exchange {
    pub went: Vec<u32>,
    pub came: Vec<u32>,
    pub before: Vec<u32>,
}

/// What an exchange will do.
#[derive(Drop)]
pub struct Prepared {
    /// The new numbers of the night.
    pub numbers: Vec<u32>,
    /// All numbers that come are below it.
    pub end: usize,
    pub exchange: Exchange,
}

/// Finds the new numbers of a night whose tracklets are replaced. More than 2^32 want memory.
pub fn prepare(
    alloc: Global,
    numbers: &[u32],
    before: &[Tracklet],
    after: &[Tracklet],
    taken: &[bool],
) -> Result<Prepared, NoMemory>
    requires size { length numbers.now ≡ length before.now }
    requires once { AreDifferent numbers.now }
    requires held { (number : ℕ) → Contains numbers.now number →
        is_taken taken.now number ≡ true }
    requires different { AreDifferent after.now }
    ensures renewed { IfOk result (λ prepared. AreRenewed (numbered_by numbers.now before.now)
        taken.now after.now prepared.numbers.items prepared.exchange.came.items prepared.end) }
    ensures few { IfOk result (λ prepared. length prepared.numbers.items < 2 ^ 32) }
    ensures in_order { IfOk result (λ prepared. IsSet prepared.exchange.went.items) }
    ensures went { IfOk result (λ prepared. (number : ℕ) →
        Contains prepared.exchange.went.items number ↔
        (Contains numbers.now number × ¬ (Contains prepared.numbers.items number))) }
    ensures before { IfOk result (λ prepared. prepared.exchange.before.items ≡ numbers.now) }
{
    let renewed = renew(alloc, before, numbers, after, taken)?;
    if renewed.numbers.len() > u32::MAX as usize {
        return Err(AllocError);
    }
    let went = lost(alloc, numbers, renewed.numbers.as_slice())?;
    let before = Vec::from_slice(alloc, numbers)?;
    Ok(Prepared {
        numbers: renewed.numbers,
        end: renewed.end,
        exchange: Exchange {
            went,
            came: renewed.came,
            before,
        },
    })
}

/// Makes room for numbers below an end, and for the numbers of a night.
pub fn make_room(
    alloc: Global,
    nights: &mut Vec<NightNumbers>,
    table: &mut Vec<Place>,
    taken: &mut Vec<bool>,
    night: i64,
    end: usize,
) -> Result<(), NoMemory>
    ensures nights { (other : ℤ) →
        numbers_of nights.new.items other ≡ numbers_of nights.old.items other }
    ensures table { (number : ℕ) (place : Place) → slice_get table.old.items number ≡ Some place →
        slice_get table.new.items number ≡ Some place }
    ensures taken { (number : ℕ) →
        is_taken taken.new.items number ≡ is_taken taken.old.items number }
    ensures longer { length table.old.items ≤ length table.new.items }
    ensures there { OnOk result (HasNight nights.new.items night) }
    ensures entered { (other : ℤ) → HasNight nights.old.items other →
        HasNight nights.new.items other }
    ensures room { OnOk result ((end ≤ length table.new.items) × (end ≤ length taken.new.items)) }
{
    lengthen(table, taken, end)?;
    enter_night(alloc, nights, night)
}

/// Gives a night, which is there, other numbers. They lead to their places from now on, and those of
/// other nights still do.
pub fn put(nights: &mut Vec<NightNumbers>, table: &mut Vec<Place>, night: i64, numbers: Vec<u32>)
    requires there { HasNight nights.old.items night }
    requires leads { LeadsToPlaces table.old.items nights.old.items }
    requires few { length numbers.items < 2 ^ 32 }
    requires once { AreDifferent numbers.items }
    requires within { (number : ℕ) → Contains numbers.items number → number < length table.old.items }
    requires apart { (other : ℤ) (number : ℕ) → ¬ (other ≡ night) →
        Contains (numbers_of nights.old.items other) number → ¬ (Contains numbers.items number) }
    ensures here { numbers_of nights.new.items night ≡ numbers.items }
    ensures others { (other : ℤ) → ¬ (other ≡ night) →
        numbers_of nights.new.items other ≡ numbers_of nights.old.items other }
    ensures there { HasNight nights.new.items night }
    ensures entered { (other : ℤ) → HasNight nights.old.items other →
        HasNight nights.new.items other }
    ensures leads { LeadsToPlaces table.new.items nights.new.items }
    ensures len { length table.new.items ≡ length table.old.items }
{
    write_places(table, night, numbers.as_slice());
    put_numbers(nights, night, numbers);
}
