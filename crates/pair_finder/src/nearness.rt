//! Which boxes may hold a pair.

ghost use Rattle.std.specs.Prelude.{◌≡◌, ◌<◌, pos, negsuc, ◌≤ℤ◌};
ghost use Rattle.std.specs.Int.Signed.{le_z};
ghost use Rattle.sky_units.specs.Ranges.{IsBetween};
ghost use Rattle.pair_finder.specs.Pruning.{may_hold_pair as may_hold, comes_near as near, comes_near_round as near_round, least_difference, greatest_difference, most_ticks as most_ticks_of, reach as reach_of};

use crate::rates::TICKS_PER_DAY;
use box_tree::Bounds;
use sky_units::Settings;

/// The axis of time in a box.
pub const EPOCH: usize = 0;

/// The axis of declination in a box.
pub const DEC: usize = 1;

/// The axis of right ascension in a box.
pub const RA: usize = 2;

/// One turn of the circle of right ascension, in 10^-6 degree.
const FULL_TURN: i64 = 360_000_000;

/// Whether two boxes may hold a pair, the earlier spot in the first.
pub fn may_hold_pair(settings: &Settings, a: &Bounds, b: &Bounds) -> bool
    ensures { result ≡ may_hold settings.now a.now b.now }
{
    if !is_at_least(a, b, EPOCH, 1) {
        return false;
    }
    if !is_at_most(a, b, EPOCH, settings.pair_gap) {
        return false;
    }
    let ticks = most_ticks(settings, a, b);
    if !comes_near(a, b, reach(settings.rate_dec, ticks)) {
        return false;
    }
    comes_near_round(a, b, reach(settings.rate_ra, ticks))
}

/// The most ticks that a pair in two boxes may take.
fn most_ticks(settings: &Settings, a: &Bounds, b: &Bounds) -> i64
    requires { pos 1 ≤ℤ greatest_difference a.now b.now 0 }
    ensures value { result ≡ most_ticks_of settings.now a.now b.now }
    ensures range { IsBetween (pos 0) (pos 1000000) result }
{
    let longest = b.high[EPOCH].saturating_sub(a.low[EPOCH]);
    longest.min(settings.pair_gap)
}

/// Whether declinations of two boxes may differ by at most a reach.
fn comes_near(a: &Bounds, b: &Bounds, reach: i64) -> bool
    requires { IsBetween (pos 0) (pos 10000000) reach }
    ensures { result ≡ near reach (least_difference a.now b.now 1)
        (greatest_difference a.now b.now 1) }
{
    if !is_at_most(a, b, DEC, reach) {
        return false;
    }
    is_at_least(a, b, DEC, -reach)
}

/// Whether right ascensions of two boxes may differ, less whole turns, by at most a reach.
fn comes_near_round(a: &Bounds, b: &Bounds, reach: i64) -> bool
    requires { IsBetween (pos 0) (pos 10000000) reach }
    ensures { result ≡ near_round reach (least_difference a.now b.now 2)
        (greatest_difference a.now b.now 2) }
{
    if is_at_most(a, b, RA, reach) {
        if is_at_least(a, b, RA, -reach) {
            return true;
        }
        return is_at_most(a, b, RA, reach - FULL_TURN);
    }
    is_at_least(a, b, RA, FULL_TURN - reach)
}

/// How far a rate reaches in so many ticks, in 10^-6 degree, rounded down.
fn reach(rate: i64, ticks: i64) -> i64
    requires rate { IsBetween (pos 0) (pos 10000000) rate }
    requires ticks { IsBetween (pos 0) (pos 1000000) ticks }
    ensures value { result ≡ reach_of rate ticks }
    ensures range { IsBetween (pos 0) (pos 10000000) result }
{
    rate * ticks / TICKS_PER_DAY
}

/// Whether what lies in two boxes may differ on an axis by a limit or less.
fn is_at_most(a: &Bounds, b: &Bounds, axis: usize, limit: i64) -> bool
    requires axis { axis < 8 }
    requires limit { IsBetween (negsuc 999999999) (pos 1000000000) limit }
    ensures { result ≡ le_z (least_difference a.now b.now axis) limit }
{
    b.low[axis].saturating_sub(a.high[axis]) <= limit
}

/// Whether what lies in two boxes may differ on an axis by a limit or more.
fn is_at_least(a: &Bounds, b: &Bounds, axis: usize, limit: i64) -> bool
    requires axis { axis < 8 }
    requires limit { IsBetween (negsuc 999999999) (pos 1000000000) limit }
    ensures { result ≡ le_z limit (greatest_difference a.now b.now axis) }
{
    limit <= b.high[axis].saturating_sub(a.low[axis])
}
