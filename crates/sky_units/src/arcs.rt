//! The spread rule, and arcs.
ghost use Rattle.std.specs.Prelude.{◌≡◌, ◌++◌, ◌↔◌, IsTrue, MatchOption};
ghost use Rattle.std.specs.Int.{int_min, int_max};
ghost use Rattle.sky_units.specs.Arcs.{IsArc, AreNear, AllNear, HaveRisingEpochs, AreWithinArcTime, MeetSpreadRule};
ghost use Rattle.sky_units.specs.Faults.{AreApart, IsFirstFault};

use crate::joined::{joined_len, joined_spot};
use crate::limits::ARC_TICKS;
use crate::{Axis, Spot, offset};

/// A quarter of a turn, in 10^-6 degree.
const QUARTER_TURN: i64 = 90_000_000;

/// The least and the greatest offset of some spots from the first of them, on one axis.
#[derive(Clone, Copy)]
struct Reach {
    low: i64,
    high: i64,
}

/// The first two spots, in the order of their places, that break the spread rule: the axis on which
/// they are too far apart, right ascension first, and their numbers. None where the rule holds.
pub fn spread_fault(spots: &[Spot]) -> Option<(Axis, u32, u32)>
    ensures { MatchOption result (MeetSpreadRule spots.now)
        (λ fault. IsFirstFault spots.now fault.0 fault.1 fault.2) }
{
    for i in 0..spots.len() {
        let one = &spots[i];
        for j in i + 1..spots.len() {
            let other = &spots[j];
            if let Some(axis) = apart_on(one, other) {
                return Some((axis, one.num, other.num));
            }
        }
    }
    None
}

/// Whether the spots are an arc: their epochs rise strictly, fewer than `ARC_TICKS` ticks pass from
/// the first to the last, and each two are less than a quarter of a turn apart on each axis. No
/// spots are an arc.
pub fn is_arc(spots: &[Spot]) -> bool
    ensures { IsTrue result ↔ IsArc spots.now }
{
    is_arc_joined(spots, &[], &[])
}

/// What `is_arc` says of the spots of three slices, one after the other. Each of them may be empty.
pub fn is_arc_joined(a: &[Spot], b: &[Spot], c: &[Spot]) -> bool
    ensures { IsTrue result ↔ IsArc (a.now ++ b.now ++ c.now) }
{
    rise(a, b, c)
        && is_short(a, b, c)
        && all_near(Axis::Ra, a, b, c)
        && all_near(Axis::Dec, a, b, c)
}

/// Whether the epochs of three slices, one after the other, rise.
pub fn rise(a: &[Spot], b: &[Spot], c: &[Spot]) -> bool
    ensures { IsTrue result ↔ HaveRisingEpochs (a.now ++ b.now ++ c.now) }
{
    for i in 1..joined_len(a, b, c) {
        let before = joined_spot(a, b, c, i - 1);
        let spot = joined_spot(a, b, c, i);
        if spot.epoch <= before.epoch {
            return false;
        }
    }
    true
}

/// The axis on which two spots are too far apart, right ascension first.
fn apart_on(a: &Spot, b: &Spot) -> Option<Axis>
    ensures { MatchOption result (AreNear Axis.Ra a.now b.now ×
        AreNear Axis.Dec a.now b.now) (λ axis. AreApart axis a.now b.now) }
{
    if !are_near(Axis::Ra, a, b) {
        return Some(Axis::Ra);
    }
    if !are_near(Axis::Dec, a, b) {
        return Some(Axis::Dec);
    }
    None
}

/// Whether two spots are less than a quarter of a turn apart on an axis.
fn are_near(axis: Axis, a: &Spot, b: &Spot) -> bool
    ensures { IsTrue result ↔ AreNear axis a.now b.now }
{
    let apart = offset(axis, a, b);
    -QUARTER_TURN < apart && apart < QUARTER_TURN
}

/// Whether each two spots of three slices, one after the other, are near on an axis. The offsets
/// from the first spot tell it: the greatest less the least is below a quarter of a turn.
fn all_near(axis: Axis, a: &[Spot], b: &[Spot], c: &[Spot]) -> bool
    ensures { IsTrue result ↔ AllNear axis (a.now ++ b.now ++ c.now) }
{
    let len = joined_len(a, b, c);
    if len == 0 {
        return true;
    }
    let first = joined_spot(a, b, c, 0);
    let mut reach = Reach { low: 0, high: 0 };
    for i in 1..len {
        let place = offset(axis, first, joined_spot(a, b, c, i));
        reach = widened(reach, place);
        if reach.high - reach.low >= QUARTER_TURN {
            return false;
        }
    }
    true
}

/// A reach that takes in one more offset.
fn widened(reach: Reach, place: i64) -> Reach
    ensures low { result.low ≡ int_min reach.low place }
    ensures high { result.high ≡ int_max reach.high place }
{
    Reach {
        low: reach.low.min(place),
        high: reach.high.max(place),
    }
}

/// Whether less time than an arc may last passes from the first spot of three slices, one after the
/// other, to the last.
fn is_short(a: &[Spot], b: &[Spot], c: &[Spot]) -> bool
    requires { HaveRisingEpochs (a.now ++ b.now ++ c.now) }
    ensures { IsTrue result ↔ AreWithinArcTime (a.now ++ b.now ++ c.now) }
{
    let len = joined_len(a, b, c);
    if len == 0 {
        return true;
    }
    let first = joined_spot(a, b, c, 0);
    let last = joined_spot(a, b, c, len - 1);
    last.epoch - first.epoch < ARC_TICKS
}
