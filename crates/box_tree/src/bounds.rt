//! Boxes, and the box of an item.

ghost use Rattle.std.specs.Prelude.{◌≡◌, ◌<◌, ◌≤◌, ℕ, ℤ, ◌≤ℤ◌, slice_index_or, pos, map};
ghost use Rattle.box_tree.specs.Boxes.{Covers, own_box, own_ends, end_or_zero, AreLowest, AreHighest};

use crate::located::Located;

/// The most axes that an item has.
pub const MOST_AXES: usize = 8;

/// A box: on each axis where it begins and where it ends.
///
/// It holds an item where it covers, on each axis of the item, what lies between the item's ends.
#[derive(Clone, Copy, Debug, PartialEq, Eq)]
pub struct Bounds {
    /// Where the box begins, by the axis.
    pub low: [i64; 8],
    /// Where the box ends, by the axis.
    pub high: [i64; 8],
}

/// The box that holds nothing, and that adds nothing to another one.
pub fn no_bounds() -> Bounds {
    Bounds {
        low: [i64::MAX; 8],
        high: [i64::MIN; 8],
    }
}

/// The own box of an item: its ends on its axes, and 0 on the others.
pub fn own_bounds<T: Located>(item: &T) -> Bounds
    ensures { result ≡ own_box T.AXES (T.lows item.now) (T.highs item.now) }
{
    Bounds {
        low: own_lows(item),
        high: own_highs(item),
    }
}

/// The least box that holds what one of two boxes holds.
pub fn joined_bounds(one: &Bounds, other: &Bounds) -> Bounds
    ensures one { (axes : ℕ) (low high : ℕ → ℤ) → axes ≤ 8 → Covers axes low high one.now →
        Covers axes low high result }
    ensures other { (axes : ℕ) (low high : ℕ → ℤ) → axes ≤ 8 → Covers axes low high other.now →
        Covers axes low high result }
{
    Bounds {
        low: lowest(one, other),
        high: highest(one, other),
    }
}

/// The low ends of an item, 0 on the axes that it lacks.
fn own_lows<T: Located>(item: &T) -> [i64; 8]
    ensures { result ≡ own_ends T.AXES (T.lows item.now) }
{
    let mut ends = [0; 8];
    for axis in 0..MOST_AXES {
        ends[axis] = low_or_zero(item, axis);
    }
    ends
}

/// The high ends of an item, 0 on the axes that it lacks.
fn own_highs<T: Located>(item: &T) -> [i64; 8]
    ensures { result ≡ own_ends T.AXES (T.highs item.now) }
{
    let mut ends = [0; 8];
    for axis in 0..MOST_AXES {
        ends[axis] = high_or_zero(item, axis);
    }
    ends
}

/// Where an item begins, or 0 on an axis that it lacks.
fn low_or_zero<T: Located>(item: &T, axis: usize) -> i64
    ensures { result ≡ end_or_zero T.AXES (T.lows item.now) axis }
{
    if axis < T::AXES { item.low(axis) } else { 0 }
}

/// Where an item ends, or 0 on an axis that it lacks.
fn high_or_zero<T: Located>(item: &T, axis: usize) -> i64
    ensures { result ≡ end_or_zero T.AXES (T.highs item.now) axis }
{
    if axis < T::AXES { item.high(axis) } else { 0 }
}

/// On each axis where the first of two boxes begins.
fn lowest(one: &Bounds, other: &Bounds) -> [i64; 8]
    ensures { AreLowest one.now.low other.now.low result 8 }
{
    let mut ends = [0; 8];
    for axis in 0..MOST_AXES {
        ends[axis] = one.low[axis].min(other.low[axis]);
    }
    ends
}

/// On each axis where the last of two boxes ends.
fn highest(one: &Bounds, other: &Bounds) -> [i64; 8]
    ensures { AreHighest one.now.high other.now.high result 8 }
{
    let mut ends = [0; 8];
    for axis in 0..MOST_AXES {
        ends[axis] = one.high[axis].max(other.high[axis]);
    }
    ends
}
