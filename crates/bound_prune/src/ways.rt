//! Whether a way leads from what lies in one box to what lies in a later one.

ghost use Rattle.std.specs.Prelude.{◌≡◌, ◌<◌, ◌↔◌, pos, neg_ℤ, ◌-ℤ◌, ◌*ℤ◌, IsTrue};
ghost use Rattle.std.specs.Int.{int_max};
ghost use Rattle.sky_units.specs.Ranges.{IsBetween};
ghost use Rattle.sky_units.specs.declared.axis.Axis.TheVariants.{Ra as ra, Dec as dec};
ghost use Rattle.bound_prune.specs.Bounds.{IsOpen, IsOpenRound, ahead_with, back_with, gained_in, greatest_distance, kept_within, least_distance, place_axis as place_axis_of, two_turns, way_ahead, way_back};
ghost use Rattle.bound_prune.specs.Times.{AreInOrder, AreTimes, LeadsAs, StandsFor};

use crate::rates::{acceleration, are_usual, rate_axis, rates_on};
use crate::times::{Times, kept_apart};
use crate::travel::{Travel, farthest_ways, is_either_reached, is_reached};
use box_tree::Bounds;
use sky_units::{Axis, Settings};

/// One turn of the circle of right ascension, in 10^-6 degree.
pub const FULL_TURN: i64 = 360_000_000;

/// Two mean rates per day of 1,000,000 ticks, over a time in ticks, are so many ways in 10^-6 degree.
pub const WAY_SCALE: i64 = 2_000_000;

/// Whether some way in declination leads from one box to another.
pub fn is_open(settings: &Settings, a: &Bounds, b: &Bounds, times: &Times) -> bool
    requires { AreTimes a.now b.now times.now }
    ensures { IsTrue result ↔ IsOpen settings.now.tol_dec (least_distance dec a.now b.now)
        (greatest_distance dec a.now b.now) (way_ahead dec settings.now a.now b.now)
        (way_back dec settings.now a.now b.now) }
{
    let ways = ways_between(Axis::Dec, settings, a, b, times);
    if !is_reached(settings.tol_dec, least(Axis::Dec, a, b), ways.ahead) {
        return false;
    }
    is_reached(settings.tol_dec, -greatest(Axis::Dec, a, b), ways.back)
}

/// Whether some way in right ascension leads from one box to another, round the circle.
pub fn is_open_round(settings: &Settings, a: &Bounds, b: &Bounds, times: &Times) -> bool
    requires { AreTimes a.now b.now times.now }
    ensures { IsTrue result ↔ IsOpenRound settings.now.tol_ra (least_distance ra a.now b.now)
        (greatest_distance ra a.now b.now) (way_ahead ra settings.now a.now b.now)
        (way_back ra settings.now a.now b.now) }
{
    let ways = ways_between(Axis::Ra, settings, a, b, times);
    let least = least(Axis::Ra, a, b);
    let greatest = greatest(Axis::Ra, a, b);
    if !is_either_reached(settings.tol_ra, least, FULL_TURN - greatest, &ways) {
        return false;
    }
    is_either_reached(settings.tol_ra, FULL_TURN + least, -greatest, &ways)
}

/// The farthest ways on an axis from one box to another, or others that lead as far as any distance on the sky.
#[inline(always)]
fn ways_between(axis: Axis, settings: &Settings, a: &Bounds, b: &Bounds, times: &Times) -> Travel
    requires { AreTimes a.now b.now times.now }
    ensures ahead { LeadsAs (way_ahead axis settings.now a.now b.now) result.ahead }
    ensures back { LeadsAs (way_back axis settings.now a.now b.now) result.back }
{
    let from = rates_on(axis, a);
    let to = rates_on(axis, b);
    if !are_usual(from) {
        return cut_ways(axis, settings, a, b, times);
    }
    if !are_usual(to) {
        return cut_ways(axis, settings, a, b, times);
    }
    farthest_ways(axis, from, to, settings, times)
}

/// The same of any boxes, with rates cut at the ends of the machine's numbers.
#[cold]
#[inline(never)]
fn cut_ways(axis: Axis, settings: &Settings, a: &Bounds, b: &Bounds, times: &Times) -> Travel
    requires { AreTimes a.now b.now times.now }
    ensures ahead { LeadsAs (way_ahead axis settings.now a.now b.now) result.ahead }
    ensures back { LeadsAs (way_back axis settings.now a.now b.now) result.back }
{
    let gained = gained(axis, settings, times);
    let ahead = rates_ahead(axis, a, b, gained);
    let back = rates_back(axis, a, b, gained);
    Travel {
        ahead: farthest(ahead, times),
        back: farthest(back, times),
    }
}

/// The axis of a tracklet's box that holds its place on an axis of the sky.
fn place_axis(axis: Axis) -> usize
    ensures value { result ≡ place_axis_of axis }
    ensures range { result < 8 }
{
    match axis {
        Axis::Ra => 0,
        Axis::Dec => 1,
    }
}

/// The least distance from what lies in one box to what lies in another.
fn least(axis: Axis, a: &Bounds, b: &Bounds) -> i64
    ensures value { result ≡ least_distance axis a.now b.now }
    ensures range { IsBetween (neg_ℤ two_turns) two_turns result }
{
    let place = place_axis(axis);
    distance(a.high[place], b.low[place])
}

/// The greatest distance from what lies in one box to what lies in another.
fn greatest(axis: Axis, a: &Bounds, b: &Bounds) -> i64
    ensures value { result ≡ greatest_distance axis a.now b.now }
    ensures range { IsBetween (neg_ℤ two_turns) two_turns result }
{
    let place = place_axis(axis);
    distance(a.low[place], b.high[place])
}

/// The most that the acceleration adds to two rates together while the tracklets last.
pub fn gained(axis: Axis, settings: &Settings, times: &Times) -> i64
    requires lasts { IsBetween (pos 0) (pos 59999998) times.now.lasting }
    ensures value { result ≡ gained_in axis settings.now times.now.lasting }
    ensures range { IsBetween (pos 1) (pos 30000000) result }
{
    (acceleration(axis, settings) * times.lasting).div_euclid(WAY_SCALE) + 1
}

/// The greatest two rates together ahead, with what the acceleration adds.
fn rates_ahead(axis: Axis, a: &Bounds, b: &Bounds, gained: i64) -> i64
    requires { IsBetween (pos 1) (pos 30000000) gained }
    ensures { StandsFor (ahead_with axis gained a.now b.now) result }
{
    let rate = rate_axis(axis);
    a.high[rate]
        .saturating_add(b.high[rate])
        .saturating_add(gained)
}

/// The greatest two rates together back, with what the acceleration adds.
fn rates_back(axis: Axis, a: &Bounds, b: &Bounds, gained: i64) -> i64
    requires { IsBetween (pos 1) (pos 30000000) gained }
    ensures { StandsFor (back_with axis gained a.now b.now) result }
{
    let rate = rate_axis(axis);
    gained.saturating_sub(a.low[rate].saturating_add(b.low[rate]))
}

/// From one place to another, or two turns where it is farther.
fn distance(from: i64, to: i64) -> i64
    ensures value { result ≡ kept_within (neg_ℤ two_turns) two_turns (to -ℤ from) }
    ensures range { IsBetween (neg_ℤ two_turns) two_turns result }
{
    if from <= to {
        kept_apart(from, to, 2 * FULL_TURN)
    } else {
        -kept_apart(to, from, 2 * FULL_TURN)
    }
}

/// The farthest that rates lead over some of the times.
pub fn farthest(rates: i64, times: &Times) -> i128
    requires { AreInOrder times.now }
    ensures { result ≡ int_max (rates *ℤ times.now.shortest) (rates *ℤ times.now.longest) }
{
    if rates >= 0 {
        rates as i128 * times.longest as i128
    } else {
        rates as i128 * times.shortest as i128
    }
}
