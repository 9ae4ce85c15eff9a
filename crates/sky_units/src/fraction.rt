//! Fractions of bounded terms, compared and reduced exactly.
ghost use Rattle.std.specs.Prelude.{◌≡◌, SomeIff};
ghost use Rattle.sky_units.specs.FracData.{IsFrac, frac_data, frac_cmp, HaveOneValue, IsInLowestTerms};

use crate::euclid::{common_divisor, quotient};
use std::cmp::Ordering;
use std::marker::Model;

/// A fraction: at most 10^16 in absolute value above, and from 1 to 10^22 below. Equal fields make
/// equal fractions; `compare` compares values.
#[derive(Clone, Copy, Debug, PartialEq, Eq)]
pub struct Frac {
    /// What stands above: -10^16 to 10^16.
    pub num: i128,
    /// What stands below: 1 to 10^22.
    pub den: i128,
}

impl Model for Frac {
    ghost use Rattle.sky_units.specs.FracData.{FracData, IsFrac};

    ghost Value = { FracData };

    ghost view = { λ f. record { num = f.num; den = f.den } };

    ghost invariant = { λ f. IsFrac f.num f.den };

    ghost inverse = { λ f. record { num = f.num; den = f.den } };
}

/// What stands above a fraction is at most this in absolute value.
const GREATEST_NUMERATOR: i128 = 10_000_000_000_000_000;

/// What stands below a fraction is at most this.
const GREATEST_DENOMINATOR: i128 = 10_000_000_000_000_000_000_000;

impl Frac {
    /// The fraction of these numbers. None where `num` is above 10^16 in absolute value, or `den`
    /// isn't from 1 to 10^22.
    pub fn new(num: i128, den: i128) -> Option<Frac>
        ensures { SomeIff result (IsFrac num den) (frac_data num den) }
    {
        if num < -GREATEST_NUMERATOR || num > GREATEST_NUMERATOR {
            return None;
        }
        if den < 1 || den > GREATEST_DENOMINATOR {
            return None;
        }
        Some(Frac { num, den })
    }

    /// The fraction of the same value whose two numbers have no common divisor above 1.
    pub fn lowest_terms(&self) -> Frac
        ensures value { HaveOneValue self.now result }
        ensures lowest { IsInLowestTerms result }
        ensures range { IsFrac result.num result.den }
    {
        let divisor = common_divisor(self.num.unsigned_abs(), self.den.unsigned_abs()) as i128;
        Frac {
            num: quotient(self.num, divisor),
            den: quotient(self.den, divisor),
        }
    }

    /// Compares the values of two fractions.
    pub fn compare(&self, other: &Frac) -> Ordering
        ensures { result ≡ frac_cmp self.now other.now }
    {
        (self.num * other.den).cmp(&(other.num * self.den))
    }
}
