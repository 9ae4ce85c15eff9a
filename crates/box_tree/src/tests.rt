//! Joins of points on one axis: none, one, equal ones, ones at the ends of the axis, and very many.

ghost use Rattle.std.specs.Prelude.{◌≡◌, ◌&&◌, true, false, refl};
ghost use Rattle.std.specs.Int.Signed.{le_z};
ghost use Rattle.std.proofs.Common.{lit≤};
ghost use Rattle.box_tree.specs.Meeting.{are_at_one_place, boxes_meet, meeting_loses_nothing, three_lose_nothing};

use super::*;
use sky_units::{NoMemory, Tally};
use std::alloc::Global;

/// A point of one axis.
#[derive(Clone, Copy)]
struct Point {
    at: i64,
}

impl Located for Point {
    ghost AXES = { 1 };

    ghost lows = { λ point axis. point.at };

    ghost highs = { λ point axis. point.at };

    const AXES: usize = 1;

    fn low(&self, _axis: usize) -> i64 {
        self.at
    }

    fn high(&self, _axis: usize) -> i64 {
        self.at
    }

    ghost few_axes = { (lit≤ tt, lit≤ tt) };
}

/// Wants points that stand at one place, and counts nothing.
struct Meeting;

impl Prune2<Point, Point> for Meeting {
    ghost allows = { λ prune a b. boxes_meet a b };

    ghost wanted = { λ prune a b. are_at_one_place a.at b.at };

    fn may(&self, a: &Bounds, b: &Bounds) -> bool {
        meet(a, b)
    }

    fn wants(&self, a: &Point, b: &Point, _tally: &mut Tally) -> bool {
        stand_together(a, b)
    }

    ghost loses_nothing = { λ prune a b box_a box_b w in_a in_b.
        meeting_loses_nothing a.at b.at box_a box_b w in_a in_b };
}

impl Prune3<Point, Point, Point> for Meeting {
    ghost allows = { λ prune a b c. boxes_meet a b && (boxes_meet a c && boxes_meet b c) };

    ghost wanted = { λ prune a b c. are_at_one_place a.at b.at &&
        (are_at_one_place a.at c.at && are_at_one_place b.at c.at) };

    fn may(&self, a: &Bounds, b: &Bounds, c: &Bounds) -> bool {
        meet(a, b) && (meet(a, c) && meet(b, c))
    }

    fn wants(&self, a: &Point, b: &Point, c: &Point, _tally: &mut Tally) -> bool {
        stand_together(a, b) && (stand_together(a, c) && stand_together(b, c))
    }

    ghost loses_nothing = { λ prune a b c box_a box_b box_c w in_a in_b in_c.
        three_lose_nothing a.at b.at c.at box_a box_b box_c w in_a in_b in_c };
}

/// Whether two boxes meet.
fn meet(a: &Bounds, b: &Bounds) -> bool
    ensures { result ≡ boxes_meet a.now b.now }
{
    a.low[0] <= b.high[0] && b.low[0] <= a.high[0]
}

/// Whether two points stand at one place.
fn stand_together(a: &Point, b: &Point) -> bool
    ensures { result ≡ are_at_one_place a.now.at b.now.at }
{
    a.at <= b.at && b.at <= a.at
}

/// Allows all boxes, and counts each pair of points.
struct Anything;

impl Prune2<Point, Point> for Anything {
    ghost allows = { λ prune a b. true };

    ghost wanted = { λ prune a b. are_at_one_place a.at b.at };

    fn may(&self, _a: &Bounds, _b: &Bounds) -> bool {
        true
    }

    fn wants(&self, a: &Point, b: &Point, tally: &mut Tally) -> bool {
        tally.tests = tally.tests.saturating_add(1);
        stand_together(a, b)
    }

    ghost loses_nothing = { λ prune a b box_a box_b w in_a in_b. refl };
}

/// Allows no boxes.
struct Nothing;

impl Prune2<Point, Point> for Nothing {
    ghost allows = { λ prune a b. false };

    ghost wanted = { λ prune a b. false };

    fn may(&self, _a: &Bounds, _b: &Bounds) -> bool {
        false
    }

    fn wants(&self, _a: &Point, _b: &Point, tally: &mut Tally) -> bool {
        tally.tests = tally.tests.saturating_add(1);
        false
    }

    ghost loses_nothing = { λ prune a b box_a box_b w in_a in_b. w };
}

/// The tree of these places.
fn tree_at(alloc: Global, places: &[i64]) -> Result<Tree<Point>, NoMemory> {
    let mut points = Vec::new(alloc);
    for at in places {
        points.push(Point { at: *at })?;
    }
    Tree::build(alloc, points)
}

/// The tree of the places below a number.
fn tree_of(alloc: Global, places: u32) -> Result<Tree<Point>, NoMemory> {
    let mut points = Vec::new(alloc);
    for at in 0..places {
        points.push(Point { at: at as i64 })?;
    }
    Tree::build(alloc, points)
}

/// The pairs of points at one place, and the tests that were counted.
fn pairs_of<P: Prune2<Point, Point>>(
    alloc: Global,
    a: &[i64],
    b: &[i64],
    prune: &P,
) -> Result<(Vec<(usize, usize)>, u64), NoMemory> {
    let mut tally = Tally::zero();
    let found = join_two(
        alloc,
        &tree_at(alloc, a)?,
        &tree_at(alloc, b)?,
        prune,
        &mut tally,
    )?;
    Ok((found, tally.tests))
}

#[test]
fn no_points(rt: HostRuntime) -> Result<(), NoMemory> {
    let (found, _) = pairs_of(rt.alloc(), &[], &[5], &Meeting)?;
    assert!(rt; found.is_empty());
    let (found, _) = pairs_of(rt.alloc(), &[5], &[], &Meeting)?;
    assert!(rt; found.is_empty());
    Ok(())
}

#[test]
fn equal_points(rt: HostRuntime) -> Result<(), NoMemory> {
    let (found, _) = pairs_of(rt.alloc(), &[7, 7, 7], &[7, 7], &Meeting)?;
    let all = [(0, 0), (0, 1), (1, 0), (1, 1), (2, 0), (2, 1)];
    assert_eq!(rt; found.as_slice(), all.as_slice());
    Ok(())
}

#[test]
fn ends_of_the_axis(rt: HostRuntime) -> Result<(), NoMemory> {
    let (found, _) = pairs_of(
        rt.alloc(),
        &[i64::MAX, 0, i64::MIN],
        &[1, i64::MIN, i64::MAX],
        &Meeting,
    )?;
    assert_eq!(rt; found.as_slice(), [(0, 2), (2, 1)].as_slice());
    Ok(())
}

#[test]
fn always_and_never_allowed(rt: HostRuntime) -> Result<(), NoMemory> {
    let twelve = [3, 1, 4, 1, 5, 9, 2, 6, 5, 3, 5, 8];
    let (found, tests) = pairs_of(rt.alloc(), &twelve, &[9, 4], &Anything)?;
    assert_eq!(rt; found.as_slice(), [(2, 1), (5, 0)].as_slice());
    assert_eq!(rt; tests, 24);
    let (found, tests) = pairs_of(rt.alloc(), &twelve, &twelve, &Nothing)?;
    assert!(rt; found.is_empty());
    assert_eq!(rt; tests, 0);
    Ok(())
}

#[test]
fn items_as_given(rt: HostRuntime) -> Result<(), NoMemory> {
    let tree = tree_at(rt.alloc(), &[6, 2])?;
    assert_eq!(rt; tree.items().len(), 2);
    assert_eq!(rt; tree.items()[0].at, 6);
    Ok(())
}

/// Whether the pairs are those of each number with itself, in order.
fn is_diagonal(found: &[(usize, usize)]) -> bool {
    for place in 0..found.len() {
        if found[place].0 != place || found[place].1 != place {
            return false;
        }
    }
    true
}

#[test]
fn join_two_on_a_diagonal(rt: HostRuntime) -> Result<(), NoMemory> {
    let tree = tree_of(rt.alloc(), 524_288)?;
    let found = join_two(rt.alloc(), &tree, &tree, &Meeting, &mut Tally::zero())?;
    assert_eq!(rt; found.len(), 524_288);
    assert!(rt; is_diagonal(found.as_slice()));
    Ok(())
}

/// Whether the triples are those of each number with itself, in order.
fn is_diagonal_of_three(found: &[(usize, usize, usize)]) -> bool {
    for place in 0..found.len() {
        if found[place].0 != place || found[place].1 != place || found[place].2 != place {
            return false;
        }
    }
    true
}

#[test]
fn join_three_on_a_diagonal(rt: HostRuntime) -> Result<(), NoMemory> {
    let tree = tree_of(rt.alloc(), 8_192)?;
    let found = join_three(
        rt.alloc(),
        &tree,
        &tree,
        &tree,
        &Meeting,
        &mut Tally::zero(),
    )?;
    assert_eq!(rt; found.len(), 8_192);
    assert!(rt; is_diagonal_of_three(found.as_slice()));
    Ok(())
}
