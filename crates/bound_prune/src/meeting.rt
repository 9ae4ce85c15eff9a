//! Boxes that lie over one another: of them no way need be measured.

ghost use Rattle.std.specs.Prelude.{◌<◌, ◌↔◌, IsTrue};
ghost use Rattle.bound_prune.specs.Meets.{LeadBothWays, Meet, Overlap};

use box_tree::Bounds;

/// The axis of a tracklet's box that holds the right ascension of its first spot.
pub const RA: usize = 0;

/// The axis that holds its declination.
pub const DEC: usize = 1;

/// The axis that holds its rates of right ascension.
const RA_RATE: usize = 3;

/// The axis that holds its rates of declination.
const DEC_RATE: usize = 4;

/// Whether two boxes overlap in place and in rates, and their rates together may lead both ways or nowhere.
pub fn meet(a: &Bounds, b: &Bounds) -> bool
    ensures { IsTrue result ↔ Meet a.now b.now }
{
    if !overlap(DEC, a, b) {
        return false;
    }
    if !overlap(RA, a, b) {
        return false;
    }
    if !overlap(RA_RATE, a, b) {
        return false;
    }
    if !overlap(DEC_RATE, a, b) {
        return false;
    }
    if !lead_both_ways(RA_RATE, a, b) {
        return false;
    }
    lead_both_ways(DEC_RATE, a, b)
}

/// Whether two boxes overlap on an axis.
fn overlap(axis: usize, a: &Bounds, b: &Bounds) -> bool
    requires { axis < 8 }
    ensures { IsTrue result ↔ Overlap axis a.now b.now }
{
    if b.high[axis] < a.low[axis] {
        return false;
    }
    b.low[axis] <= a.high[axis]
}

/// Whether the rates of two boxes on an axis together may lead ahead, or nowhere, and back, or nowhere.
fn lead_both_ways(axis: usize, a: &Bounds, b: &Bounds) -> bool
    requires { axis < 8 }
    ensures { IsTrue result ↔ LeadBothWays axis a.now b.now }
{
    if a.high[axis].saturating_add(b.high[axis]) < 0 {
        return false;
    }
    a.low[axis].saturating_add(b.low[axis]) <= 0
}
