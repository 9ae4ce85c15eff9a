//! The range of the leading coefficients.
ghost use Rattle.std.specs.Prelude.{◌≡◌, ◌≤◌, pos, length, MatchOption};
ghost use Rattle.sky_units.specs.Arcs.{IsArc};
ghost use Rattle.sky_units.specs.Coefficients.{NoCoefficient, IsCoefficientRange};
ghost use Rattle.sky_units.specs.FracData.{frac_data, IsFrac};
ghost use Rattle.sky_units.specs.Ranges.{IsBetween};
ghost use Rattle.quad_fit.specs.MarkRanges.{AreMarks};
ghost use Rattle.quad_fit.specs.References.{IsTripleOf};

use crate::curves::Curve;
use crate::levelling::extreme;
use crate::marks::{Marks, marks_of};
use crate::references::Triple;
use sky_units::{Axis, Frac, Spot};

/// The least and the greatest leading coefficient, in lowest terms and in 10^-6 degree per tick
/// squared, of the quadratics on an axis that are nowhere farther than `tol` (10^-6 degree) from
/// the spots. None where there is no such quadratic.
pub fn acc_range(spots: &[Spot], axis: Axis, tol: i64) -> Option<(Frac, Frac)>
    requires arc { IsArc spots.now }
    requires three { 3 ≤ length spots.now }
    requires tol { IsBetween (pos 0) (pos 100000) tol }
    ensures { MatchOption result (NoCoefficient axis tol spots.now)
        (λ range. IsCoefficientRange axis tol spots.now range.0 range.1) }
{
    let marks = marks_of(spots, &[], &[], axis, spots[0]);
    let start = spread_triple(&marks);
    let least = extreme(&marks, &start, true, tol)?;
    let greatest = extreme(&marks, &start, false, tol)?;
    Some((
        leading_coefficient(&least).lowest_terms(),
        leading_coefficient(&greatest).lowest_terms(),
    ))
}

/// The first, the middle and the last of the marks.
fn spread_triple(marks: &Marks) -> Triple
    requires marks { AreMarks marks.now }
    requires three { 3 ≤ length marks.now }
    ensures { IsTripleOf marks.now result }
{
    let len = marks.len();
    Triple {
        first: marks.at(0),
        middle: marks.at(len / 2),
        last: marks.at(len - 1),
    }
}

/// The leading coefficient of a curve.
fn leading_coefficient(curve: &Curve) -> Frac
    ensures value { result ≡ frac_data curve.now.bend curve.now.den }
    ensures range { IsFrac result.num result.den }
{
    Frac {
        num: curve.bend as i128,
        den: curve.den,
    }
}
