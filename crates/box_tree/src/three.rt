//! The join of three trees.

ghost use Rattle.std.specs.Prelude.{◌≡◌, ◌<◌, cond, [], ◌∷◌, length, IfOk, OnOk};
ghost use Rattle.std.specs.List.{All};
ghost use Rattle.box_tree.specs.Boxes.{own_box};
ghost use Rattle.box_tree.specs.Counts.{Rises};
ghost use Rattle.box_tree.specs.Joins.{Adds, InTriples, allow_own, at_three, count_triples, triples_that};
ghost use Rattle.box_tree.specs.Nodes.{Lies, run};
ghost use Rattle.box_tree.specs.Trees.{HasNode, IsIndex};

use crate::bounds::{Bounds, own_bounds};
use crate::located::Located;
use crate::nodes::Node;
use crate::prune::Prune3;
use crate::steps::{halves_of, push_where, run_of, weight_of};
use crate::tree::{Index, Tree};
use sky_units::{NoMemory, Tally};
use std::alloc::Global;

/// All triples of places of three trees whose items are wanted, in lexicographic order.
///
/// The tally rises by at most the number of triples whose items' own boxes `may` accepts. The only error
/// is want of memory.
pub fn join_three<A: Located, B: Located, C: Located, P: Prune3<A, B, C>>(
    alloc: Global,
    a: &Tree<A>,
    b: &Tree<B>,
    c: &Tree<C>,
    prune: &P,
    tally: &mut Tally,
) -> Result<Vec<(usize, usize, usize)>, NoMemory>
    ensures triples { IfOk result (λ found. found.items ≡
        triples_that (P.wanted prune.now) a.now b.now c.now) }
    ensures tests { Rises (length
        (triples_that
        (allow_own (P.allows prune.now) A.AXES A.lows A.highs B.AXES B.lows B.highs C.AXES C.lows
        C.highs) a.now b.now c.now)) tally.old.tests tally.new.tests }
{
    join_indices(alloc, &a.index, &b.index, &c.index, prune, tally)
}

/// The same of what the trees keep.
fn join_indices<A: Located, B: Located, C: Located, P: Prune3<A, B, C>>(
    alloc: Global,
    a: &Index<A>,
    b: &Index<B>,
    c: &Index<C>,
    prune: &P,
    tally: &mut Tally,
) -> Result<Vec<(usize, usize, usize)>, NoMemory>
    requires a { IsIndex A.AXES A.lows A.highs a.now }
    requires b { IsIndex B.AXES B.lows B.highs b.now }
    requires c { IsIndex C.AXES C.lows C.highs c.now }
    ensures triples { IfOk result (λ found. found.items ≡
        triples_that (P.wanted prune.now) a.now.items.items b.now.items.items c.now.items.items) }
    ensures tests { Rises (length
        (triples_that
        (allow_own (P.allows prune.now) A.AXES A.lows A.highs B.AXES B.lows B.highs C.AXES C.lows
        C.highs) a.now.items.items b.now.items.items c.now.items.items)) tally.old.tests
        tally.new.tests }
{
    let mut found = Vec::new(alloc);
    join_roots(a, b, c, prune, &mut found, tally)?;
    found.sort_unstable();
    found.dedup();
    Ok(found)
}

/// Adds the wanted triples of all items, in some order.
fn join_roots<A: Located, B: Located, C: Located, P: Prune3<A, B, C>>(
    a: &Index<A>,
    b: &Index<B>,
    c: &Index<C>,
    prune: &P,
    found: &mut Vec<(usize, usize, usize)>,
    tally: &mut Tally,
) -> Result<(), NoMemory>
    requires a { IsIndex A.AXES A.lows A.highs a.now }
    requires b { IsIndex B.AXES B.lows B.highs b.now }
    requires c { IsIndex C.AXES C.lows C.highs c.now }
    ensures adds { OnOk result (Adds
        (at_three (P.wanted prune.now) a.now.items.items b.now.items.items c.now.items.items)
        (InTriples a.now.order.items b.now.order.items c.now.order.items) found.old.items
        found.new.items) }
    ensures tests { Rises (count_triples
        (at_three (allow_own
        (P.allows prune.now) A.AXES A.lows A.highs B.AXES B.lows B.highs C.AXES C.lows C.highs)
        a.now.items.items b.now.items.items c.now.items.items) a.now.order.items b.now.order.items
        c.now.order.items) tally.old.tests tally.new.tests }
{
    let Some(x) = &a.root else {
        return Ok(());
    };
    let Some(y) = &b.root else {
        return Ok(());
    };
    let Some(z) = &c.root else {
        return Ok(());
    };
    join_nodes(a, b, c, x, y, z, prune, found, tally)
}

/// Adds the wanted triples of the items of three nodes, in some order. The first two nodes are opened
/// down to their items before the third is: most pairs of them are refused, and each only once.
fn join_nodes<A: Located, B: Located, C: Located, P: Prune3<A, B, C>>(
    a: &Index<A>,
    b: &Index<B>,
    c: &Index<C>,
    x: &Node,
    y: &Node,
    z: &Node,
    prune: &P,
    found: &mut Vec<(usize, usize, usize)>,
    tally: &mut Tally,
) -> Result<(), NoMemory>
    requires x { HasNode A.AXES A.lows A.highs a.now x.now }
    requires y { HasNode B.AXES B.lows B.highs b.now y.now }
    requires z { HasNode C.AXES C.lows C.highs c.now z.now }
    ensures adds { OnOk result (Adds
        (at_three (P.wanted prune.now) a.now.items.items b.now.items.items c.now.items.items)
        (InTriples (run a.now.order.items x.now) (run b.now.order.items y.now)
        (run c.now.order.items z.now)) found.old.items found.new.items) }
    ensures tests { Rises (count_triples
        (at_three (allow_own
        (P.allows prune.now) A.AXES A.lows A.highs B.AXES B.lows B.highs C.AXES C.lows C.highs)
        a.now.items.items b.now.items.items c.now.items.items) (run a.now.order.items x.now)
        (run b.now.order.items y.now)
        (run c.now.order.items z.now)) tally.old.tests tally.new.tests }
{
    if !prune.may(&x.bounds, &y.bounds, &z.bounds) {
        return Ok(());
    }
    if weight_of(x) >= weight_of(y) {
        if let Some((left, right)) = halves_of(a, x) {
            join_nodes(a, b, c, left, y, z, prune, found, tally)?;
            return join_nodes(a, b, c, right, y, z, prune, found, tally);
        }
    }
    if let Some((left, right)) = halves_of(b, y) {
        join_nodes(a, b, c, x, left, z, prune, found, tally)?;
        return join_nodes(a, b, c, x, right, z, prune, found, tally);
    }
    join_leaves(a, b, c, x, y, z, prune, found, tally)
}

/// Adds the wanted triples of the items of two nodes with those of a third one. As long as one half of the third
/// is not allowed, the other half stands for it.
fn join_leaves<A: Located, B: Located, C: Located, P: Prune3<A, B, C>>(
    a: &Index<A>,
    b: &Index<B>,
    c: &Index<C>,
    x: &Node,
    y: &Node,
    z: &Node,
    prune: &P,
    found: &mut Vec<(usize, usize, usize)>,
    tally: &mut Tally,
) -> Result<(), NoMemory>
    requires x { HasNode A.AXES A.lows A.highs a.now x.now }
    requires y { HasNode B.AXES B.lows B.highs b.now y.now }
    requires z { HasNode C.AXES C.lows C.highs c.now z.now }
    ensures adds { OnOk result (Adds
        (at_three (P.wanted prune.now) a.now.items.items b.now.items.items c.now.items.items)
        (InTriples (run a.now.order.items x.now) (run b.now.order.items y.now)
        (run c.now.order.items z.now)) found.old.items found.new.items) }
    ensures tests { Rises (count_triples
        (at_three (allow_own
        (P.allows prune.now) A.AXES A.lows A.highs B.AXES B.lows B.highs C.AXES C.lows C.highs)
        a.now.items.items b.now.items.items c.now.items.items) (run a.now.order.items x.now)
        (run b.now.order.items y.now)
        (run c.now.order.items z.now)) tally.old.tests tally.new.tests }
{
    if let Some((left, right)) = halves_of(c, z) {
        if !prune.may(&x.bounds, &y.bounds, &right.bounds) {
            return join_leaves(a, b, c, x, y, left, prune, found, tally);
        }
        if !prune.may(&x.bounds, &y.bounds, &left.bounds) {
            return join_leaves(a, b, c, x, y, right, prune, found, tally);
        }
    }
    join_rows(a, b, c, x, y, z, prune, found, tally)
}

/// Adds the wanted triples of the items of three nodes, item by item of the first.
fn join_rows<A: Located, B: Located, C: Located, P: Prune3<A, B, C>>(
    a: &Index<A>,
    b: &Index<B>,
    c: &Index<C>,
    x: &Node,
    y: &Node,
    z: &Node,
    prune: &P,
    found: &mut Vec<(usize, usize, usize)>,
    tally: &mut Tally,
) -> Result<(), NoMemory>
    requires x { HasNode A.AXES A.lows A.highs a.now x.now }
    requires y { HasNode B.AXES B.lows B.highs b.now y.now }
    requires z { HasNode C.AXES C.lows C.highs c.now z.now }
    ensures adds { OnOk result (Adds
        (at_three (P.wanted prune.now) a.now.items.items b.now.items.items c.now.items.items)
        (InTriples (run a.now.order.items x.now) (run b.now.order.items y.now)
        (run c.now.order.items z.now)) found.old.items found.new.items) }
    ensures tests { Rises (count_triples
        (at_three (allow_own
        (P.allows prune.now) A.AXES A.lows A.highs B.AXES B.lows B.highs C.AXES C.lows C.highs)
        a.now.items.items b.now.items.items c.now.items.items) (run a.now.order.items x.now)
        (run b.now.order.items y.now)
        (run c.now.order.items z.now)) tally.old.tests tally.new.tests }
{
    let places = run_of(a, x);
    for place in places {
        join_row(a, b, c, *place, y, z, prune, found, tally)?;
    }
    Ok(())
}

/// Adds the wanted triples of one item with those of two nodes, item by item of the first node. Where
/// its own box and those of the nodes are not allowed, there are none.
fn join_row<A: Located, B: Located, C: Located, P: Prune3<A, B, C>>(
    a: &Index<A>,
    b: &Index<B>,
    c: &Index<C>,
    place: usize,
    y: &Node,
    z: &Node,
    prune: &P,
    found: &mut Vec<(usize, usize, usize)>,
    tally: &mut Tally,
) -> Result<(), NoMemory>
    requires place { place < length a.now.items.items }
    requires y { HasNode B.AXES B.lows B.highs b.now y.now }
    requires z { HasNode C.AXES C.lows C.highs c.now z.now }
    ensures adds { OnOk result (Adds
        (at_three (P.wanted prune.now) a.now.items.items b.now.items.items c.now.items.items)
        (InTriples (place ∷ []) (run b.now.order.items y.now)
        (run c.now.order.items z.now)) found.old.items found.new.items) }
    ensures tests { Rises (count_triples
        (at_three (allow_own
        (P.allows prune.now) A.AXES A.lows A.highs B.AXES B.lows B.highs C.AXES C.lows C.highs)
        a.now.items.items b.now.items.items c.now.items.items) (place ∷ [])
        (run b.now.order.items y.now)
        (run c.now.order.items z.now)) tally.old.tests tally.new.tests }
{
    let own = own_bounds(&a.items[place]);
    if !prune.may(&own, &y.bounds, &z.bounds) {
        return Ok(());
    }
    let others = run_of(b, y);
    for other in others {
        let partners_own = own_bounds(&b.items[*other]);
        join_pair(
            a,
            b,
            c,
            place,
            *other,
            &own,
            &partners_own,
            z,
            prune,
            found,
            tally,
        )?;
    }
    Ok(())
}

/// Adds the wanted triples of two items with those of a node, in some order. Where their boxes and that
/// of the node are not allowed, there are none.
fn join_pair<A: Located, B: Located, C: Located, P: Prune3<A, B, C>>(
    a: &Index<A>,
    b: &Index<B>,
    c: &Index<C>,
    place: usize,
    other: usize,
    own: &Bounds,
    partners_own: &Bounds,
    z: &Node,
    prune: &P,
    found: &mut Vec<(usize, usize, usize)>,
    tally: &mut Tally,
) -> Result<(), NoMemory>
    requires place { place < length a.now.items.items }
    requires other { other < length b.now.items.items }
    requires own { All (λ place. Lies A.AXES A.lows A.highs a.now.items.items place own.now) (place ∷ []) }
    requires partners_own { All (λ place. Lies B.AXES B.lows B.highs b.now.items.items place partners_own.now) (other ∷ []) }
    requires z { HasNode C.AXES C.lows C.highs c.now z.now }
    ensures adds { OnOk result (Adds
        (at_three (P.wanted prune.now) a.now.items.items b.now.items.items c.now.items.items)
        (InTriples (place ∷ []) (other ∷ [])
        (run c.now.order.items z.now)) found.old.items found.new.items) }
    ensures tests { Rises (count_triples
        (at_three (allow_own
        (P.allows prune.now) A.AXES A.lows A.highs B.AXES B.lows B.highs C.AXES C.lows C.highs)
        a.now.items.items b.now.items.items c.now.items.items) (place ∷ []) (other ∷ [])
        (run c.now.order.items z.now)) tally.old.tests tally.new.tests }
{
    if !prune.may(own, partners_own, &z.bounds) {
        return Ok(());
    }
    if let Some((left, right)) = halves_of(c, z) {
        join_pair(
            a,
            b,
            c,
            place,
            other,
            own,
            partners_own,
            left,
            prune,
            found,
            tally,
        )?;
        return join_pair(
            a,
            b,
            c,
            place,
            other,
            own,
            partners_own,
            right,
            prune,
            found,
            tally,
        );
    }
    join_thirds(a, b, c, place, other, z, prune, found, tally)
}

/// Adds the wanted triples of two items with each of a node.
fn join_thirds<A: Located, B: Located, C: Located, P: Prune3<A, B, C>>(
    a: &Index<A>,
    b: &Index<B>,
    c: &Index<C>,
    place: usize,
    other: usize,
    z: &Node,
    prune: &P,
    found: &mut Vec<(usize, usize, usize)>,
    tally: &mut Tally,
) -> Result<(), NoMemory>
    requires place { place < length a.now.items.items }
    requires other { other < length b.now.items.items }
    requires z { HasNode C.AXES C.lows C.highs c.now z.now }
    ensures adds { OnOk result (Adds
        (at_three (P.wanted prune.now) a.now.items.items b.now.items.items c.now.items.items)
        (InTriples (place ∷ []) (other ∷ [])
        (run c.now.order.items z.now)) found.old.items found.new.items) }
    ensures tests { Rises (count_triples
        (at_three (allow_own
        (P.allows prune.now) A.AXES A.lows A.highs B.AXES B.lows B.highs C.AXES C.lows C.highs)
        a.now.items.items b.now.items.items c.now.items.items) (place ∷ []) (other ∷ [])
        (run c.now.order.items z.now)) tally.old.tests tally.new.tests }
{
    let item = &a.items[place];
    let partner = &b.items[other];
    let own = own_bounds(item);
    let partners_own = own_bounds(partner);
    let thirds = run_of(c, z);
    for third in thirds {
        let wanted = wants_all(
            item,
            partner,
            &c.items[*third],
            &own,
            &partners_own,
            prune,
            tally,
        );
        push_where(found, wanted, (place, other, *third))?;
    }
    Ok(())
}

/// Whether three items are wanted. It is asked only where their own boxes are allowed.
fn wants_all<A: Located, B: Located, C: Located, P: Prune3<A, B, C>>(
    item: &A,
    partner: &B,
    third: &C,
    own: &Bounds,
    partners_own: &Bounds,
    prune: &P,
    tally: &mut Tally,
) -> bool
    requires own { own.now ≡ own_box A.AXES (A.lows item.now) (A.highs item.now) }
    requires partners_own { partners_own.now ≡
        own_box B.AXES (B.lows partner.now) (B.highs partner.now) }
    ensures wanted { result ≡ P.wanted prune.now item.now partner.now third.now }
    ensures tests { Rises (cond (allow_own
        (P.allows prune.now) A.AXES A.lows A.highs B.AXES B.lows B.highs C.AXES C.lows C.highs
        item.now partner.now third.now) 1 0) tally.old.tests tally.new.tests }
{
    if prune.may(own, partners_own, &own_bounds(third)) {
        prune.wants(item, partner, third, tally)
    } else {
        false
    }
}
