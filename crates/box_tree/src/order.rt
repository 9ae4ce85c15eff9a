//! The order in which a tree keeps its items: by the interleaved bits of their places on the axes.
//!
//! Each axis is scaled to the range of the items, so items that stand near each other lie on few runs. Only
//! the axes count on which all items are points, if there are any: an item that is wide on an axis meets
//! many others there wherever its run is cut.

ghost use Rattle.std.specs.Prelude.{◌≡◌, ◌<◌, ◌≤◌, length, map, IfOk};
ghost use Rattle.std.specs.List.Sorted.{IsPermutation};
ghost use Rattle.sky_units.specs.Pairs.{below};
ghost use Rattle.box_tree.specs.Orders.{place_of};

use crate::bounds::{Bounds, MOST_AXES, joined_bounds, no_bounds, own_bounds};
use crate::located::Located;
use sky_units::NoMemory;
use std::alloc::Global;

/// The places of items in order.
#[derive(Drop)]
pub struct Ordered {
    /// The place of each item behind its key, in order of keys.
    pub keyed: Vec<(u64, usize)>,
    /// The place of each item.
    pub places: Vec<usize>,
}

/// What the items say of the axes.
#[derive(Clone, Copy)]
struct Frame {
    /// A box of all items.
    bounds: Bounds,
    /// The axes that count.
    counts: [bool; 8],
}

/// The places of all items, each once, those near each other by and large together.
pub fn order_of<T: Located>(alloc: Global, items: &[T]) -> Result<Ordered, NoMemory>
    ensures { IfOk result (λ ordered.
        IsPermutation (below (length items.now)) ordered.places.items) }
{
    let mut keyed = keyed_places(alloc, items)?;
    keyed.sort_unstable();
    let places = places_of(alloc, keyed.as_slice())?;
    Ok(Ordered { keyed, places })
}

/// The place of each item behind its key.
fn keyed_places<T: Located>(alloc: Global, items: &[T]) -> Result<Vec<(u64, usize)>, NoMemory>
    ensures { IfOk result (λ keyed. map place_of keyed.items ≡ below (length items.now)) }
{
    let frame = frame_of(items);
    let mut keyed = Vec::new(alloc);
    for place in 0..items.len() {
        keyed.push((key_of(&items[place], &frame), place))?;
    }
    Ok(keyed)
}

/// The places without their keys.
fn places_of(alloc: Global, keyed: &[(u64, usize)]) -> Result<Vec<usize>, NoMemory>
    ensures { IfOk result (λ places. places.items ≡ map place_of keyed.now) }
{
    let mut places = Vec::new(alloc);
    for entry in keyed {
        places.push(entry.1)?;
    }
    Ok(places)
}

/// The box of all items, and the axes that count.
fn frame_of<T: Located>(items: &[T]) -> Frame {
    let mut bounds = no_bounds();
    let mut wide = [false; 8];
    for item in items {
        let own = own_bounds(item);
        bounds = joined_bounds(&bounds, &own);
        mark_wide(&mut wide, &own);
    }
    Frame {
        bounds,
        counts: counting_axes(&wide, T::AXES),
    }
}

/// Marks the axes on which a box is wider than a point.
fn mark_wide(wide: &mut [bool; 8], own: &Bounds) {
    for axis in 0..MOST_AXES {
        wide[axis] |= own.low[axis] < own.high[axis];
    }
}

/// Of the first `axes` axes those that are not wide, or all of these where each is wide.
fn counting_axes(wide: &[bool; 8], axes: usize) -> [bool; 8] {
    let points = narrow_axes(wide, axes);
    if points == [false; 8] {
        narrow_axes(&[false; 8], axes)
    } else {
        points
    }
}

/// Of the first `axes` axes those that are not wide.
fn narrow_axes(wide: &[bool; 8], axes: usize) -> [bool; 8] {
    let mut narrow = [false; 8];
    for axis in 0..MOST_AXES {
        narrow[axis] = axis < axes && !wide[axis];
    }
    narrow
}

/// The interleaved bits of where an item begins within the box of all items, on the axes that count.
fn key_of<T: Located>(item: &T, frame: &Frame) -> u64 {
    let own = own_bounds(item);
    let bounds = &frame.bounds;
    let mut scaled = [0; 8];
    let mut axes = 0;
    for axis in 0..MOST_AXES {
        if frame.counts[axis] {
            scaled[axes] = scaled_within(own.low[axis], bounds.low[axis], bounds.high[axis]);
            axes += 1;
        }
    }
    interleaved(&mut scaled, axes)
}

/// How far a place lies behind the low end of a range, in a unit in which the whole range has 64 bits.
fn scaled_within(place: i64, low: i64, high: i64) -> u64 {
    let unit = high.abs_diff(low).leading_zeros();
    place.abs_diff(low).wrapping_shl(unit)
}

/// The leading bits of the numbers of the first `axes` axes, by turns.
fn interleaved(scaled: &mut [u64; 8], axes: usize) -> u64
    requires { axes ≤ 8 }
{
    let mut key: u64 = 0;
    let mut axis = 0;
    for _ in 0..64 {
        if axis >= axes {
            axis = 0;
        }
        key = key.wrapping_shl(1) | scaled[axis].wrapping_shr(63);
        scaled[axis] = scaled[axis].wrapping_shl(1);
        axis += 1;
    }
    key
}
