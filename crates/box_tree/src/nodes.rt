//! The nodes of a tree: runs of the order, with the box of each, and halves of halves of the whole.

ghost use Rattle.std.specs.Prelude.{◌≡◌, ◌<◌, ◌≤◌, ◌+◌, ◌^◌, List, [], ◌∷◌, ◌++◌, length, IfOk};
ghost use Rattle.std.specs.List.{All};
ghost use Rattle.box_tree.specs.declared.nodes.Node.{Node};
ghost use Rattle.box_tree.specs.Nodes.{Lies, IsNode, Grown, IsRoot};

use crate::bounds::{Bounds, joined_bounds, no_bounds, own_bounds};
use crate::located::Located;
use sky_units::NoMemory;

/// The most items of a leaf.
const LEAF_ITEMS: usize = 8;

/// A run of a tree's order.
#[derive(Clone, Copy)]
pub struct Node {
    /// A box that holds each item of the run.
    pub bounds: Bounds,
    /// Where the run begins in the order.
    pub from: usize,
    /// Where the run ends in the order.
    pub to: usize,
    /// The halves of the run.
    pub below: Below,
}

/// The halves of a run.
#[derive(Clone, Copy)]
pub enum Below {
    /// The run is not halved.
    Leaf,
    /// The places of both halves among the nodes, in order.
    Halves(usize, usize),
}

/// The node of the whole order, with the nodes below it put behind `nodes`. There is none where the
/// order is empty. The keys only tell where a run is best halved.
pub fn root_of<T: Located>(
    items: &[T],
    order: &[usize],
    keyed: &[(u64, usize)],
    nodes: &mut Vec<Node>,
) -> Result<Option<Node>, NoMemory>
    requires places { All (λ place. place < length items.now) order.now }
    requires none { length nodes.old.items ≡ 0 }
    ensures nodes { IfOk result (λ root.
        All (IsNode (Lies T.AXES T.lows T.highs items.now) order.now nodes.new.items)
        nodes.new.items) }
    ensures root { IfOk result (λ root.
        IsRoot (Lies T.AXES T.lows T.highs items.now) order.now nodes.new.items root) }
{
    if order.is_empty() {
        return Ok(None);
    }
    let root = node_of(items, order, keyed, 0, order.len(), nodes)?;
    Ok(Some(root))
}

/// The node of a run, with the nodes below it put behind `nodes`.
fn node_of<T: Located>(
    items: &[T],
    order: &[usize],
    keyed: &[(u64, usize)],
    from: usize,
    to: usize,
    nodes: &mut Vec<Node>,
) -> Result<Node, NoMemory>
    requires some { from < to }
    requires within { to ≤ length order.now }
    requires places { All (λ place. place < length items.now) order.now }
    requires nodes { All (IsNode (Lies T.AXES T.lows T.highs items.now) order.now nodes.old.items)
        nodes.old.items }
    ensures { IfOk result (λ node.
        Grown (Lies T.AXES T.lows T.highs items.now) order.now from to nodes.old.items
        nodes.new.items node) }
{
    if to - from <= LEAF_ITEMS {
        return Ok(leaf_of(items, order, from, to));
    }
    let middle = middle_of(keyed, from, to);
    let left = node_of(items, order, keyed, from, middle, nodes)?;
    let right = node_of(items, order, keyed, middle, to, nodes)?;
    let place = push_both(nodes, left, right)?;
    Ok(Node {
        bounds: joined_bounds(&left.bounds, &right.bounds),
        from,
        to,
        below: Below::Halves(place, place + 1),
    })
}

/// Where a run is halved: where the leading bit changes in which its keys differ, but with at least a
/// quarter of the run on each side.
fn middle_of(keyed: &[(u64, usize)], from: usize, to: usize) -> usize
    requires { from + 8 < to }
    ensures above { from < result }
    ensures below { result < to }
{
    let quarter = (to - from) / 4;
    let front = match keyed.get(from..to) {
        Some(run) => alike_in_front(run),
        None => 0,
    };
    from + front.max(quarter).min(to - from - quarter)
}

/// How many keys at the front agree with the first one in the leading bit in which the keys differ.
fn alike_in_front(keyed: &[(u64, usize)]) -> usize {
    let Some(first) = keyed.first() else {
        return 0;
    };
    let Some(last) = keyed.last() else {
        return 0;
    };
    let key = first.0;
    let shared = (key ^ last.0).leading_zeros();
    keyed.partition_point(|entry| (entry.0 ^ key).leading_zeros() > shared)
}

/// Puts two nodes behind the others, and gives the place of the first.
fn push_both(nodes: &mut Vec<Node>, left: Node, right: Node) -> Result<usize, NoMemory>
    ensures { IfOk result (λ place. (place ≡ length nodes.old.items) × (place + 1 < 2 ^ 64) ×
        (nodes.new.items ≡ (nodes.old.items ++ left ∷ []) ++ right ∷ [])) }
{
    let place = nodes.len();
    nodes.push(left)?;
    nodes.push(right)?;
    Ok(place)
}

/// The node of a run that is not halved.
fn leaf_of<T: Located>(items: &[T], order: &[usize], from: usize, to: usize) -> Node
    requires some { from < to }
    requires within { to ≤ length order.now }
    requires places { All (λ place. place < length items.now) order.now }
    ensures node { (nodes : List Node) →
        IsNode (Lies T.AXES T.lows T.highs items.now) order.now nodes result }
    ensures from { result.from ≡ from }
    ensures to { result.to ≡ to }
{
    Node {
        bounds: bounds_of(items, &order[from..to]),
        from,
        to,
        below: Below::Leaf,
    }
}

/// A box that holds the items at these places.
fn bounds_of<T: Located>(items: &[T], places: &[usize]) -> Bounds
    requires { All (λ place. place < length items.now) places.now }
    ensures { All (λ place. Lies T.AXES T.lows T.highs items.now place result) places.now }
{
    let mut bounds = no_bounds();
    for place in places {
        bounds = joined_bounds(&bounds, &own_bounds(&items[*place]));
    }
    bounds
}
