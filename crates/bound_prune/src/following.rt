//! Which boxes may hold two tracklets of one object, the one after the other.

ghost use Rattle.std.specs.Prelude.{◌↔◌, IsTrue};
ghost use Rattle.bound_prune.specs.Bounds.{May, MayThree};

use crate::meeting::{DEC, RA, meet};
use crate::rates::rates_agree;
use crate::times::{EPOCH, times_between};
use crate::ways::{is_open, is_open_round};
use box_tree::Bounds;
use sky_units::{Axis, Settings};

/// Whether three boxes may hold three tracklets of one object, each later than the one before.
pub fn may_follow_both(settings: &Settings, a: &Bounds, b: &Bounds, c: &Bounds) -> bool
    ensures { IsTrue result ↔ MayThree settings.now a.now b.now c.now }
{
    if !may_follow_in_turn(settings, a, b, c) {
        return false;
    }
    may_follow(settings, a, c)
}

/// Whether of three boxes the first two may hold two tracklets of one object, and the last two. Those are asked first that
/// are likelier refused: where the third box lies round the second, as a wide one does, these two hardly are.
fn may_follow_in_turn(settings: &Settings, a: &Bounds, b: &Bounds, c: &Bounds) -> bool
    ensures { IsTrue result ↔ (May settings.now a.now b.now × May settings.now b.now c.now) }
{
    if lies_round(c, b) {
        if !may_follow(settings, a, b) {
            return false;
        }
        return may_follow(settings, b, c);
    }
    if !may_follow(settings, b, c) {
        return false;
    }
    may_follow(settings, a, b)
}

/// Whether one box holds the places of another.
fn lies_round(outer: &Bounds, inner: &Bounds) -> bool {
    if inner.low[DEC] < outer.low[DEC] || outer.high[DEC] < inner.high[DEC] {
        return false;
    }
    outer.low[RA] <= inner.low[RA] && inner.high[RA] <= outer.high[RA]
}

/// Whether two boxes may hold two tracklets of one object, the second one later. The cheapest test comes first: boxes that
/// meet need no more. Then come the ways, in declination before right ascension, since they go round no circle.
pub fn may_follow(settings: &Settings, a: &Bounds, b: &Bounds) -> bool
    ensures { IsTrue result ↔ May settings.now a.now b.now }
{
    if b.high[EPOCH] <= a.low[EPOCH] {
        return false;
    }
    if meet(a, b) {
        // Read so that its range is known: no acceleration makes a way shorter.
        let _ = &settings.acc_dec;
        return true;
    }
    let times = times_between(a, b);
    if !is_open(settings, a, b, &times) {
        return false;
    }
    if !is_open_round(settings, a, b, &times) {
        return false;
    }
    if !rates_agree(Axis::Dec, settings, a, b, times.longest) {
        return false;
    }
    rates_agree(Axis::Ra, settings, a, b, times.longest)
}
