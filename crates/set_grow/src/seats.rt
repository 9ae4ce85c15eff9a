//! Where the tracklets of a set of numbers stand.
ghost use Rattle.std.specs.Prelude.{ℕ, ◌≡◌, ◌⊎◌, ◌↔◌, Some, slice_get, IfOk, MatchBool, MatchOption};
ghost use Rattle.std.specs.List.{All, Contains};
ghost use Rattle.closed_sets.specs.Families.{IsSet};
ghost use Rattle.sky_units.specs.TrackletData.{TrackSetData, spots_of};
ghost use Rattle.set_grow.specs.Nights.{AreInPlace, NumberedNightData, by_night};
ghost use Rattle.set_grow.specs.Numbered.{AreTrackletsOf};
ghost use Rattle.set_grow.specs.Seats.{AreSeatsOf, HasNoSeat, HaveRisingNights, IsPlaceAmong, IsSeat, IsSeatOf, tracklets_at};

use crate::{NumberedNight, Place};
use sky_units::{NoMemory, Spot};
use std::alloc::Global;

/// Where a tracklet stands: the index of its night, and its place among the night's tracklets.
#[derive(Clone, Copy, Debug)]
pub struct Seat {
    /// The index of the night.
    pub night: usize,
    /// The place among the night's tracklets.
    pub place: usize,
}

/// The seats of the tracklets of a set of numbers, in order of their nights. None where there is no
/// choice of at most one tracklet of each night that has exactly these numbers.
pub fn seats_of(
    alloc: Global,
    nights: &[NumberedNight<'_>],
    table: &[Place],
    numbers: &[u32],
) -> Result<Option<Vec<Seat>>, NoMemory>
    requires place { AreInPlace nights.now table.now }
    requires set { IsSet numbers.now }
    ensures { IfOk result (λ found. MatchOption found ((tracklets : TrackSetData) →
        ¬ AreTrackletsOf (by_night nights.now) numbers.now tracklets)
        (λ seats. AreSeatsOf nights.now numbers.now seats.items)) }
{
    let mut seats = Vec::new(alloc);
    for number in numbers {
        let Some(seat) = seat_of(nights, table, *number) else {
            return Ok(None);
        };
        if !put_seat(&mut seats, seat)? {
            return Ok(None);
        }
    }
    Ok(Some(seats))
}

/// The seat of the tracklet of a number. None where no tracklet of the nights has it.
pub fn seat_of(nights: &[NumberedNight<'_>], table: &[Place], number: u32) -> Option<Seat>
    requires { AreInPlace nights.now table.now }
    ensures { MatchOption result (HasNoSeat nights.now number)
        (λ seat. IsSeatOf nights.now number seat) }
{
    let place = place_of(table, number)?;
    let night = night_of(nights, place)?;
    let found = number_at(nights[night].numbers(), place.place)?;
    if found != number {
        return None;
    }
    Some(Seat {
        night,
        place: place.place as usize,
    })
}

/// The place that the table has for a number.
fn place_of(table: &[Place], number: u32) -> Option<Place>
    ensures { result ≡ slice_get table.now number }
{
    if (number as usize) < table.len() {
        return Some(table[number as usize]);
    }
    None
}

/// The number at a place.
fn number_at(numbers: &[u32], place: u32) -> Option<u32>
    ensures { result ≡ slice_get numbers.now place }
{
    if (place as usize) < numbers.len() {
        return Some(numbers[place as usize]);
    }
    None
}

/// The index of the night of a place.
fn night_of(nights: &[NumberedNight<'_>], place: Place) -> Option<usize>
    ensures { MatchOption result
        ((night : NumberedNightData) → Contains nights.now night →
        ¬ (night.number ≡ place.night))
        (λ index. (night : NumberedNightData) × (slice_get nights.now index ≡ Some night) ×
        (night.number ≡ place.night)) }
{
    for index in 0..nights.len() {
        if nights[index].number() == place.night {
            return Some(index);
        }
    }
    None
}

/// Puts a seat among seats in order of their nights, where its night has none yet. Whether it was
/// put.
fn put_seat(seats: &mut Vec<Seat>, seat: Seat) -> Result<bool, NoMemory>
    requires { HaveRisingNights seats.old.items }
    ensures { IfOk result (λ put. MatchBool put
        (HaveRisingNights seats.new.items × ((other : Seat) →
        Contains seats.new.items other ↔ ((seat ≡ other) ⊎ Contains seats.old.items other)))
        ((other : Seat) × Contains seats.old.items other × (other.night ≡ seat.night))) }
{
    let Some(index) = place_among(seats.as_slice(), seat.night) else {
        return Ok(false);
    };
    seats.insert(index, seat)?;
    Ok(true)
}

/// How many seats stand before a night. None where one of them is of the night.
fn place_among(seats: &[Seat], night: usize) -> Option<usize>
    ensures { MatchOption result
        ((other : Seat) × Contains seats.now other × (other.night ≡ night))
        (λ index. IsPlaceAmong seats.now night index) }
{
    for index in 0..seats.len() {
        if seats[index].night == night {
            return None;
        }
        if seats[index].night > night {
            return Some(index);
        }
    }
    Some(seats.len())
}

/// The spots of the tracklets at some seats, one tracklet after the other.
pub fn joined(
    alloc: Global,
    nights: &[NumberedNight<'_>],
    seats: &[Seat],
) -> Result<Vec<Spot>, NoMemory>
    requires { All (IsSeat nights.now) seats.now }
    ensures { IfOk result (λ spots. spots.items ≡ spots_of (tracklets_at nights.now seats.now)) }
{
    let mut spots = Vec::new(alloc);
    for seat in seats {
        let tracklet = &nights[seat.night].tracklets()[seat.place];
        spots.extend_from_slice(tracklet.spots())?;
    }
    Ok(spots)
}
