//! Whether a group and a pair are near enough to lie on a line: a quick test before the exact one.

ghost use Rattle.std.specs.Prelude.{◌≡◌, ◌<◌, ◌+ℤ◌, ◌-ℤ◌, ◌*ℤ◌, ◌≤ℤ◌, neg_ℤ, pos, true, false, ◌&&◌, ℕ, List, length, slice_index_or};
ghost use Rattle.std.specs.Int.Signed.{le_z};
ghost use Rattle.std.specs.List.{Contains};
ghost use Rattle.sky_units.specs.Motion.{offset};
ghost use Rattle.sky_units.specs.Ranges.{IsBetween};
ghost use Rattle.sky_units.specs.SpotData.{SpotData};
ghost use Rattle.line_fit.specs.Slopes.{AreOfOneDay};
ghost use Rattle.collapse.specs.Groups.{may_join, ArePlaces, IsPairBelow};
ghost use Rattle.collapse.specs.Reach.{are_in_reach};

use sky_units::{Axis, Settings, Spot, offset};

/// The ticks of a day, over which rates are counted.
const TICKS_PER_DAY: i64 = 1_000_000;

/// Whether the spot at a place and a pair's first one are near enough for a line. Where they aren't,
/// the pair may join no group that has the place.
pub fn may_reach(place: u32, spots: &[Spot], pair: (u32, u32), settings: &Settings) -> bool
    requires day { AreOfOneDay spots.now }
    requires pair { IsPairBelow (length spots.now) pair }
    ensures { result ≡ false → (group : List ℕ) → ArePlaces (length spots.now) group →
        Contains group place → may_join settings.now spots.now pair group ≡ false }
{
    if place >= pair.0 {
        return true;
    }
    are_in_reach(&spots[place as usize], &spots[pair.0 as usize], settings)
}

/// Whether the spot at a place comes before a pair's first one, and isn't earlier. Then the pair may join
/// no group that has the place.
pub fn passes_by(place: u32, spots: &[Spot], pair: (u32, u32)) -> bool
    requires { IsPairBelow (length spots.now) pair }
    ensures before { result ≡ true → place < pair.0 }
    ensures late { (d : SpotData) → place < pair.0 → result ≡
        le_z (slice_index_or spots.now pair.0 d).epoch (slice_index_or spots.now place d).epoch }
{
    if place >= pair.0 {
        return false;
    }
    let from = &spots[place as usize];
    let to = &spots[pair.0 as usize];
    to.epoch <= from.epoch
}

/// Whether one spot is later than another one, and within its reach on both axes.
fn are_in_reach(from: &Spot, to: &Spot, settings: &Settings) -> bool
    requires { (to.now.epoch -ℤ from.now.epoch) ≤ℤ pos 1000000 }
    ensures { result ≡ are_in_reach settings.now from.now to.now }
{
    if to.epoch <= from.epoch {
        return false;
    }
    let ticks = to.epoch - from.epoch;
    if !is_in_reach(
        Axis::Dec,
        from,
        to,
        reach(settings.rate_dec, settings.line_tol, ticks),
    ) {
        return false;
    }
    is_in_reach(
        Axis::Ra,
        from,
        to,
        reach(settings.rate_ra, settings.line_tol, ticks),
    )
}

/// How far two spots of a line may be apart, so many ticks after one another: what the rate allows and
/// twice the tolerance, times the ticks of a day.
pub fn reach(rate: i64, tol: i64, ticks: i64) -> i64
    requires rate { IsBetween (pos 0) (pos 10000000) rate }
    requires tol { IsBetween (pos 0) (pos 100000) tol }
    requires ticks { IsBetween (pos 0) (pos 1000000) ticks }
    ensures value { result ≡ (rate *ℤ ticks) +ℤ ((tol +ℤ tol) *ℤ pos 1000000) }
    ensures size { IsBetween (neg_ℤ (pos 20000000000000)) (pos 20000000000000) result }
{
    rate * ticks + (tol + tol) * TICKS_PER_DAY
}

/// Whether one spot is within the reach of another one on an axis.
fn is_in_reach(axis: Axis, from: &Spot, to: &Spot, reach: i64) -> bool
    requires { IsBetween (neg_ℤ (pos 20000000000000)) (pos 20000000000000) reach }
    ensures { result ≡ (le_z (neg_ℤ reach) (offset axis from.now to.now *ℤ pos 1000000) &&
        le_z (offset axis from.now to.now *ℤ pos 1000000) reach) }
{
    let moved = offset(axis, from, to) * TICKS_PER_DAY;
    -reach <= moved && moved <= reach
}
