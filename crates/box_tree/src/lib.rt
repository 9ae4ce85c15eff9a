//! Trees of items by the boxes that hold them, and joins of two and of three trees.
//!
//! A join finds all tuples of items that a pruning type wants. It opens a tuple of nodes only where the
//! pruning type says of their boxes that something wanted may lie in them.
#![tactic(auto)]

pub use bounds::Bounds;
pub use located::Located;
pub use prune::{Prune2, Prune3};
pub use three::join_three;
pub use tree::Tree;
pub use two::join_two;

mod bounds;
mod located;
mod nodes;
mod order;
mod prune;
mod steps;
#[cfg(test)]
mod tests;
mod three;
mod tree;
mod two;
