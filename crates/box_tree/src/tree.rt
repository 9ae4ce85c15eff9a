//! A tree of items.

ghost use Rattle.std.specs.Prelude.{◌≡◌, List, IfOk};

use crate::located::Located;
use crate::nodes::{Node, root_of};
use crate::order::order_of;
use sky_units::NoMemory;
use std::alloc::Global;
use std::marker::Model;

/// Items with an order of their places, and nodes that hold runs of this order.
#[derive(Drop)]
pub struct Index<T> {
    /// The items, in the order given.
    pub items: Vec<T>,
    /// The place of each item, once.
    pub order: Vec<usize>,
    /// The nodes below the root.
    pub nodes: Vec<Node>,
    /// The node of the whole order, if there is an item.
    pub root: Option<Node>,
}

/// Items that can be joined with others by the boxes that hold them. An item's place is its index in
/// the list that the tree was built of.
#[derive(Drop)]
pub struct Tree<T: Located> {
    pub(crate) index: Index<T>,
}

impl<T: Located> Model for Tree<T> {
    ghost use Rattle.std.specs.Prelude.{List};
    ghost use Rattle.box_tree.specs.Trees.{IsIndex};

    ghost Value = { List T };

    ghost view = { λ tree. tree.index.items.items };

    ghost invariant = { λ tree. IsIndex T.AXES T.lows T.highs tree.index };
}

impl<T: Located + Drop> Tree<T> {
    /// The tree of these items. The only error is want of memory.
    pub fn build(alloc: Global, items: Vec<T>) -> Result<Tree<T>, NoMemory>
        ensures { IfOk result (λ tree. tree ≡ items.items) }
    {
        let ordered = order_of(alloc, items.as_slice())?;
        let order = ordered.places.as_slice();
        let mut nodes = Vec::new(alloc);
        let root = root_of(
            items.as_slice(),
            order,
            ordered.keyed.as_slice(),
            &mut nodes,
        )?;
        let index = Index {
            items,
            order: ordered.places,
            nodes,
            root,
        };
        Ok(Tree { index })
    }
}

impl<T: Located> Tree<T> {
    /// The items, in the order given.
    pub fn items(&self) -> &[T]
        ensures { result.now ≡ self.now }
    {
        self.index.items.as_slice()
    }
}
