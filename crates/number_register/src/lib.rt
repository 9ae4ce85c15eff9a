//! A register of detections: each has the least number that none had, and is found by it and by its id.
#![tactic(auto)]

pub use numbering::Register;
pub use taking::{let_go_all, take_all};

mod id_numbers;
mod numbering;
mod taking;
#[cfg(test)]
mod tests;
