//! The closed sets that are kept, in an index by item, and what a change makes of them.
#![tactic(auto)]

pub use laws::{SetFamily, changed_are_kept, kept_are_after, kept_are_ready, kept_are_top};
pub use store::KeptSets;
pub use walk::Sets;

mod changing;
mod compacting;
mod emptying;
mod entering;
mod finding;
mod laws;
mod numbers;
mod rests;
mod store;
#[cfg(test)]
mod tests;
mod walk;
