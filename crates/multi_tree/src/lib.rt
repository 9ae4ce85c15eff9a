//! The fitting triples of three nights, by the join of the trees of their boxes.
#![tactic(auto)]

pub use laws::fitting_triples_are_fitting_sets;
pub use seeding::seeds;

mod laws;
mod seeding;
#[cfg(test)]
mod tests;
