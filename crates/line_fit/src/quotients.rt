//! Slopes as quotients of whole numbers.

ghost use Rattle.std.specs.Prelude.{◌≡◌};
ghost use Rattle.line_fit.specs.Lines.{is_at_most};

use std::marker::Model;

/// A slope, in 10^-6 degree per tick.
#[derive(Clone, Copy)]
pub struct Slope {
    /// What stands above: -10^9 to 10^9.
    pub num: i64,
    /// What stands below: 1 to 10^6.
    pub den: i64,
}

impl Model for Slope {
    ghost use Rattle.sky_units.specs.FracData.{FracData};
    ghost use Rattle.line_fit.specs.Quotients.{IsSlope};

    ghost Value = { FracData };

    ghost view = { λ f. record { num = f.num; den = f.den } };

    ghost invariant = { λ f. IsSlope f.num f.den };

    ghost inverse = { λ f. record { num = f.num; den = f.den } };
}

impl Slope {
    /// Whether this slope is at most the other one.
    pub fn is_at_most(&self, other: &Slope) -> bool
        ensures { result ≡ is_at_most self.now other.now }
    {
        self.num * other.den <= other.num * self.den
    }
}
