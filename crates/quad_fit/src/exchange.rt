//! The exchange of one mark of a reference for one that its curve misses.
ghost use Rattle.std.specs.Prelude.{◌≡◌, pos, ◌≤ℤ◌, ℤ, List, MatchOption, None};
ghost use Rattle.std.specs.List.{All};
ghost use Rattle.sky_math.specs.Quadratics.{Point, Passes};
ghost use Rattle.sky_units.specs.Ranges.{IsBetween};
ghost use Rattle.quad_fit.specs.Curves.{CurveData, quadratic_of};
ghost use Rattle.quad_fit.specs.Levels.{IsExchanged};
ghost use Rattle.quad_fit.specs.MarkRanges.{AreMarks};
ghost use Rattle.quad_fit.specs.References.{IsPairOf, IsTripleOf, IsLevelled, IsLevelLine, IsOutsideOf, IsFarther, NonePasses, AsksMoreBend};

use crate::curves::Curve;
use crate::marks::{Mark, Marks};
use crate::references::{Pair, Triple};

/// A mark farther from a curve than the tolerance.
#[derive(Clone, Copy)]
pub struct Outside {
    pub mark: Mark,
    /// Whether the curve lies above the mark.
    pub above: bool,
    /// How far, times the denominator of the curve.
    pub distance: u128,
}

/// A curve that misses a mark by more than so many tolerances is exchanged at once: to look for a
/// mark still farther away would cost more than it gains.
const GROSS: u128 = 8;

/// The mark farthest from a curve, of those farther than `tol`, or the first one that is grossly
/// outside; None where there are none.
pub fn farthest(marks: &Marks, curve: &Curve, tol: i64) -> Option<Outside>
    requires { IsBetween (pos 0) (pos 100000) tol }
    ensures { MatchOption result (All (Passes tol (quadratic_of curve.now)) marks.now)
        (IsOutsideOf tol curve.now marks.now) }
{
    let within = (tol as i128 * curve.den).unsigned_abs();
    let mut found = None;
    for place in 0..marks.len() {
        found = farther(found, curve, marks.at(place), within);
        if distance_of(&found) / GROSS > within {
            break;
        }
    }
    found
}

/// The farther of what was found outside a curve and a further mark, if that is outside: more than
/// `within` away, times the denominator of the curve.
fn farther(found: Option<Outside>, curve: &Curve, mark: Mark, within: u128) -> Option<Outside>
    ensures { IsFarther curve.now mark within found result }
{
    let residual = curve.residual(mark);
    let distance = residual.unsigned_abs();
    if distance <= within {
        return found;
    }
    if distance <= distance_of(&found) {
        return found;
    }
    Some(Outside {
        mark,
        above: residual > 0,
        distance,
    })
}

/// How far a mark outside is, and 0 where none was found.
fn distance_of(found: &Option<Outside>) -> u128
    ensures { found.now ≡ None → result ≡ 0 }
{
    match found {
        Some(outside) => outside.distance,
        None => 0,
    }
}

/// The exchange of one of three marks for one outside their levelled curve, so that the three ask
/// for more bend; None where no quadratic passes all four.
pub fn exchange(triple: &Triple, outside: &Outside, up: bool) -> Option<Triple>
    ensures { (tol : ℤ) (curve : CurveData) (points : List Point) → pos 0 ≤ℤ tol →
        AreMarks points → IsTripleOf points triple.now → IsLevelled tol up triple.now curve →
        IsOutsideOf tol curve points outside.now →
        MatchOption result (NonePasses tol points) (λ t. IsTripleOf points t ×
        AsksMoreBend tol up curve t) }
{
    let mark = outside.mark;
    let Triple {
        first,
        middle,
        last,
    } = *triple;
    if outside.above == up {
        if mark.time <= first.time {
            return None;
        }
        if last.time <= mark.time {
            return None;
        }
        return Some(Triple {
            first,
            middle: mark,
            last,
        });
    }
    if mark.time < middle.time {
        Some(Triple {
            first: mark,
            middle,
            last,
        })
    } else {
        Some(Triple {
            first,
            middle,
            last: mark,
        })
    }
}

/// What the exchange of one of two marks gives.
pub enum Exchanged {
    /// Two marks whose lines rise more.
    Pair(Pair),
    /// Three marks that no line passes.
    Triple(Triple),
}

/// The exchange of one of two marks for one outside their level line: two that ask for more slope,
/// or the three where the line lies on either side of them by turns, so that they ask for a bend.
pub fn exchange_in_pair(pair: &Pair, outside: &Outside) -> Exchanged
    ensures { (tol : ℤ) (line : CurveData) (points : List Point) → pos 0 ≤ℤ tol → AreMarks points →
        IsPairOf points pair.now → IsLevelLine tol pair.now line →
        IsOutsideOf tol line points outside.now →
        IsExchanged tol line points outside.now.above result }
{
    let mark = outside.mark;
    let Pair { first, last } = *pair;
    if outside.above {
        if mark.time < last.time {
            return Exchanged::Pair(Pair { first: mark, last });
        }
        return Exchanged::Triple(Triple {
            first,
            middle: last,
            last: mark,
        });
    }
    if first.time < mark.time {
        return Exchanged::Pair(Pair { first, last: mark });
    }
    Exchanged::Triple(Triple {
        first: mark,
        middle: first,
        last,
    })
}
