//! The groups of one night: pairs whose detections one object on a line may have left.
//!
//! The pairs are taken in their order. A pair joins the first group with which it lies on a line,
//! also where a later group lies closer; where there is none, it becomes a new last group.
#![tactic(auto)]

pub use grouping::collapse;

mod grouping;
mod joining;
mod reaching;
mod strips;
#[cfg(test)]
mod tests;
mod uniting;
