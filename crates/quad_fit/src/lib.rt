//! The exact test whether quadratics of a bounded acceleration stay within a tolerance of the spots
//! of an arc, on both axes of the sky.
//!
//! It is the exchange algorithm of Remez over discrete points, with the tolerance given and the
//! acceleration sought. A curve is levelled on a reference: on two points a line, on three a
//! quadratic, that lies exactly the tolerance above and below them by turns, so that no curve
//! within the tolerance of the reference bends less. The point farthest outside takes the place of
//! one of the reference, so that the signs still alternate and the new reference asks for more.
//! The exchange ends where no point is outside, where the curve passes the greatest acceleration,
//! or where four points alternate so that no quadratic passes them.
//!
//! So a curve at which it ends is of the least acceleration, and at that acceleration of the least
//! rate: its coefficients, counted from the middle epoch and the first position and divided by
//! their greatest common divisor, are the quadratic that a report tells.
#![tactic(auto)]

pub use fitting::{fits, fits_joined};
pub use growing::{Basis, fits_basis, fits_grown};
pub use laws::{fit_is_decided, parts_are_admitted, reported_exists, three_suffice};
pub use passing::passes;
pub use range::acc_range;
pub use reporting::{reported, reported_from};
pub use single::axis_admits;

#[cfg(test)]
mod comparison_tests;
mod curves;
mod exchange;
mod fitting;
mod growing;
mod laws;
mod levelling;
mod marks;
mod passing;
mod range;
mod references;
mod reporting;
#[cfg(test)]
mod reporting_tests;
mod single;
#[cfg(test)]
mod tests;
