//! The join of two trees.

ghost use Rattle.std.specs.Prelude.{◌≡◌, ◌<◌, cond, [], ◌∷◌, length, IfOk, OnOk};
ghost use Rattle.box_tree.specs.Boxes.{own_box};
ghost use Rattle.box_tree.specs.Counts.{Rises};
ghost use Rattle.box_tree.specs.Joins.{Adds, InPairs, allows_own, at_two, count_pairs, pairs_that};
ghost use Rattle.box_tree.specs.Nodes.{run};
ghost use Rattle.box_tree.specs.Trees.{HasNode, IsIndex};

use crate::bounds::{Bounds, own_bounds};
use crate::located::Located;
use crate::nodes::Node;
use crate::prune::Prune2;
use crate::steps::{halves_of, push_where, run_of, weight_of};
use crate::tree::{Index, Tree};
use sky_units::{NoMemory, Tally};
use std::alloc::Global;

/// All pairs of places of two trees whose items are wanted, in lexicographic order.
///
/// The tally rises by at most the number of pairs whose items' own boxes `may` accepts. The only error
/// is want of memory.
pub fn join_two<A: Located, B: Located, P: Prune2<A, B>>(
    alloc: Global,
    a: &Tree<A>,
    b: &Tree<B>,
    prune: &P,
    tally: &mut Tally,
) -> Result<Vec<(usize, usize)>, NoMemory>
    ensures pairs { IfOk result (λ found. found.items ≡
        pairs_that (P.wanted prune.now) a.now b.now) }
    ensures tests { Rises (length
        (pairs_that (allows_own
        (P.allows prune.now) A.AXES A.lows A.highs B.AXES B.lows B.highs) a.now b.now))
        tally.old.tests tally.new.tests }
{
    join_indices(alloc, &a.index, &b.index, prune, tally)
}

/// The same of what the trees keep.
fn join_indices<A: Located, B: Located, P: Prune2<A, B>>(
    alloc: Global,
    a: &Index<A>,
    b: &Index<B>,
    prune: &P,
    tally: &mut Tally,
) -> Result<Vec<(usize, usize)>, NoMemory>
    requires a { IsIndex A.AXES A.lows A.highs a.now }
    requires b { IsIndex B.AXES B.lows B.highs b.now }
    ensures pairs { IfOk result (λ found. found.items ≡
        pairs_that (P.wanted prune.now) a.now.items.items b.now.items.items) }
    ensures tests { Rises (length
        (pairs_that (allows_own
        (P.allows prune.now) A.AXES A.lows A.highs B.AXES B.lows B.highs) a.now.items.items
        b.now.items.items)) tally.old.tests tally.new.tests }
{
    let mut found = Vec::new(alloc);
    join_roots(a, b, prune, &mut found, tally)?;
    found.sort_unstable();
    found.dedup();
    Ok(found)
}

/// Adds the wanted pairs of all items, in some order.
fn join_roots<A: Located, B: Located, P: Prune2<A, B>>(
    a: &Index<A>,
    b: &Index<B>,
    prune: &P,
    found: &mut Vec<(usize, usize)>,
    tally: &mut Tally,
) -> Result<(), NoMemory>
    requires a { IsIndex A.AXES A.lows A.highs a.now }
    requires b { IsIndex B.AXES B.lows B.highs b.now }
    ensures adds { OnOk result (Adds
        (at_two (P.wanted prune.now) a.now.items.items b.now.items.items)
        (InPairs a.now.order.items b.now.order.items) found.old.items found.new.items) }
    ensures tests { Rises (count_pairs
        (at_two (allows_own
        (P.allows prune.now) A.AXES A.lows A.highs B.AXES B.lows B.highs) a.now.items.items
        b.now.items.items) a.now.order.items b.now.order.items) tally.old.tests tally.new.tests }
{
    let Some(x) = &a.root else {
        return Ok(());
    };
    let Some(y) = &b.root else {
        return Ok(());
    };
    join_nodes(a, b, x, y, prune, found, tally)
}

/// Adds the wanted pairs of the items of two nodes, in some order.
fn join_nodes<A: Located, B: Located, P: Prune2<A, B>>(
    a: &Index<A>,
    b: &Index<B>,
    x: &Node,
    y: &Node,
    prune: &P,
    found: &mut Vec<(usize, usize)>,
    tally: &mut Tally,
) -> Result<(), NoMemory>
    requires x { HasNode A.AXES A.lows A.highs a.now x.now }
    requires y { HasNode B.AXES B.lows B.highs b.now y.now }
    ensures adds { OnOk result (Adds
        (at_two (P.wanted prune.now) a.now.items.items b.now.items.items)
        (InPairs (run a.now.order.items x.now)
        (run b.now.order.items y.now)) found.old.items found.new.items) }
    ensures tests { Rises (count_pairs
        (at_two (allows_own
        (P.allows prune.now) A.AXES A.lows A.highs B.AXES B.lows B.highs) a.now.items.items
        b.now.items.items) (run a.now.order.items x.now)
        (run b.now.order.items y.now)) tally.old.tests tally.new.tests }
{
    if !prune.may(&x.bounds, &y.bounds) {
        return Ok(());
    }
    if weight_of(x) >= weight_of(y) {
        if let Some((left, right)) = halves_of(a, x) {
            join_nodes(a, b, left, y, prune, found, tally)?;
            return join_nodes(a, b, right, y, prune, found, tally);
        }
    }
    if let Some((left, right)) = halves_of(b, y) {
        join_nodes(a, b, x, left, prune, found, tally)?;
        return join_nodes(a, b, x, right, prune, found, tally);
    }
    join_rows(a, b, x, y, prune, found, tally)
}

/// Adds the wanted pairs of the items of two nodes, item by item of the first.
fn join_rows<A: Located, B: Located, P: Prune2<A, B>>(
    a: &Index<A>,
    b: &Index<B>,
    x: &Node,
    y: &Node,
    prune: &P,
    found: &mut Vec<(usize, usize)>,
    tally: &mut Tally,
) -> Result<(), NoMemory>
    requires x { HasNode A.AXES A.lows A.highs a.now x.now }
    requires y { HasNode B.AXES B.lows B.highs b.now y.now }
    ensures adds { OnOk result (Adds
        (at_two (P.wanted prune.now) a.now.items.items b.now.items.items)
        (InPairs (run a.now.order.items x.now)
        (run b.now.order.items y.now)) found.old.items found.new.items) }
    ensures tests { Rises (count_pairs
        (at_two (allows_own
        (P.allows prune.now) A.AXES A.lows A.highs B.AXES B.lows B.highs) a.now.items.items
        b.now.items.items) (run a.now.order.items x.now)
        (run b.now.order.items y.now)) tally.old.tests tally.new.tests }
{
    let places = run_of(a, x);
    for place in places {
        join_row(a, b, *place, y, prune, found, tally)?;
    }
    Ok(())
}

/// Adds the wanted pairs of one item with those of a node. Where its own box and the node's are not
/// allowed, there are none.
fn join_row<A: Located, B: Located, P: Prune2<A, B>>(
    a: &Index<A>,
    b: &Index<B>,
    place: usize,
    y: &Node,
    prune: &P,
    found: &mut Vec<(usize, usize)>,
    tally: &mut Tally,
) -> Result<(), NoMemory>
    requires place { place < length a.now.items.items }
    requires y { HasNode B.AXES B.lows B.highs b.now y.now }
    ensures adds { OnOk result (Adds
        (at_two (P.wanted prune.now) a.now.items.items b.now.items.items)
        (InPairs (place ∷ []) (run b.now.order.items y.now)) found.old.items found.new.items) }
    ensures tests { Rises (count_pairs
        (at_two (allows_own
        (P.allows prune.now) A.AXES A.lows A.highs B.AXES B.lows B.highs) a.now.items.items
        b.now.items.items) (place ∷ [])
        (run b.now.order.items y.now)) tally.old.tests tally.new.tests }
{
    let item = &a.items[place];
    let own = own_bounds(item);
    if !prune.may(&own, &y.bounds) {
        return Ok(());
    }
    let others = run_of(b, y);
    for other in others {
        let wanted = wants_both(item, &own, &b.items[*other], prune, tally);
        push_where(found, wanted, (place, *other))?;
    }
    Ok(())
}

/// Whether two items are wanted. It is asked only where their own boxes are allowed.
fn wants_both<A: Located, B: Located, P: Prune2<A, B>>(
    item: &A,
    own: &Bounds,
    other: &B,
    prune: &P,
    tally: &mut Tally,
) -> bool
    requires { own.now ≡ own_box A.AXES (A.lows item.now) (A.highs item.now) }
    ensures wanted { result ≡ P.wanted prune.now item.now other.now }
    ensures tests { Rises (cond (allows_own
        (P.allows prune.now) A.AXES A.lows A.highs B.AXES B.lows B.highs item.now other.now) 1 0)
        tally.old.tests tally.new.tests }
{
    if prune.may(own, &own_bounds(other)) {
        prune.wants(item, other, tally)
    } else {
        false
    }
}
