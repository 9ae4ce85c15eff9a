//! The slopes that each two spots allow.

ghost use Rattle.std.specs.Prelude.{◌<◌, pos, length};
ghost use Rattle.sky_math.specs.Lists.{EachTwo};
ghost use Rattle.sky_units.specs.Arcs.{HaveRisingEpochs};
ghost use Rattle.sky_units.specs.Ranges.{IsBetween};
ghost use Rattle.line_fit.specs.Slopes.{AreOfOneDay, IsFilled, IsNarrowed, Suits, SuitsEarlier};

use crate::slopes::{Slopes, meet, of_two};
use sky_units::{Axis, Spot};

/// What is left of `slopes` where they must suit the spot at the place `last` and each before it.
fn narrow_to(spots: &[Spot], last: usize, axis: Axis, tol: i64, slopes: Slopes) -> Option<Slopes>
    requires within { last < length spots.now }
    requires rising { HaveRisingEpochs spots.now }
    requires day { AreOfOneDay spots.now }
    requires tol { IsBetween (pos 0) (pos 100000) tol }
    requires filled { IsFilled slopes }
    ensures { IsNarrowed slopes (SuitsEarlier axis tol spots.now last) result }
{
    let to = &spots[last];
    let mut left = slopes;
    for i in 0..last {
        left = meet(left, of_two(axis, &spots[i], to, tol))?;
    }
    Some(left)
}

/// What is left of `slopes` where they must suit each two spots.
pub fn narrow(spots: &[Spot], axis: Axis, tol: i64, slopes: Slopes) -> Option<Slopes>
    requires rising { HaveRisingEpochs spots.now }
    requires day { AreOfOneDay spots.now }
    requires tol { IsBetween (pos 0) (pos 100000) tol }
    requires filled { IsFilled slopes }
    ensures { IsNarrowed slopes (λ a b. EachTwo (Suits axis tol a b) spots.now) result }
{
    let mut left = slopes;
    for last in 0..spots.len() {
        left = narrow_to(spots, last, axis, tol, left)?;
    }
    Some(left)
}
