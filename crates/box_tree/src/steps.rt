//! The steps of a join from a node: to its halves and to its items.

ghost use Rattle.std.specs.Prelude.{◌≡◌, ◌<◌, cond, [], ◌∷◌, ◌++◌, length, MatchOption, OnOk, ⊤};
ghost use Rattle.std.specs.List.{All};
ghost use Rattle.box_tree.specs.Nodes.{run};
ghost use Rattle.box_tree.specs.Trees.{HasHalves, HasNode};

use crate::located::Located;
use crate::nodes::{Below, Node};
use crate::tree::Index;
use sky_units::NoMemory;

/// How much there is to open below a node: its items, or nothing where it has no halves.
pub fn weight_of(node: &Node) -> usize
    requires { node.now.from < node.now.to }
{
    match node.below {
        Below::Leaf => 0,
        Below::Halves(_, _) => node.to - node.from,
    }
}

/// The halves of a node.
pub fn halves_of<'a, T: Located>(index: &'a Index<T>, node: &Node) -> Option<(&'a Node, &'a Node)>
    requires { HasNode T.AXES T.lows T.highs index.now node.now }
    ensures { MatchOption result ⊤
        (λ halves. HasHalves T.AXES T.lows T.highs index.now node.now halves.0.now halves.1.now) }
{
    match node.below {
        Below::Leaf => None,
        Below::Halves(left, right) => Some((&index.nodes[left], &index.nodes[right])),
    }
}

/// The places of a node's items.
pub fn run_of<'a, T: Located>(index: &'a Index<T>, node: &Node) -> &'a [usize]
    requires { HasNode T.AXES T.lows T.highs index.now node.now }
    ensures run { result.now ≡ run index.now.order.items node.now }
    ensures places { All (λ place. place < length index.now.items.items) result.now }
{
    let order = index.order.as_slice();
    &order[node.from..node.to]
}

/// Puts a tuple behind those found where it is wanted.
pub fn push_where<T: Copy>(found: &mut Vec<T>, wanted: bool, tuple: T) -> Result<(), NoMemory>
    ensures { OnOk result (found.new.items ≡
        cond wanted (found.old.items ++ tuple ∷ []) found.old.items) }
{
    if wanted {
        found.push(tuple)?;
    }
    Ok(())
}
