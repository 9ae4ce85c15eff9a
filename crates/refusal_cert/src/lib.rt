//! Certificates of a misfit: three or four detections of an arc that no admitted quadratic of an
//! axis passes.
//!
//! An axis admits an arc exactly where it admits each three and each four of its detections. Of
//! three, the quadratics within the tolerance have the leading coefficients from a least to a
//! greatest one, so the greatest acceleration tells whether one of them is admitted. Of four whose
//! threes are admitted, the coefficients of the first three and those of the last three tell it.
#![tactic(auto)]

pub use checking::check;
pub use laws::four_suffice;
pub use refusing::refuse;

mod checking;
mod coefficients;
mod fours;
mod laws;
mod numbers;
mod refusing;
#[cfg(test)]
mod tests;
mod threes;
