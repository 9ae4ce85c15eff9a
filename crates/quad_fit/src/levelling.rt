//! The exchange, from a reference to where it ends.
ghost use Rattle.std.specs.Prelude.{◌≤◌, ◌≤ℤ◌, ◌<ℤ◌, pos, length, MatchOption};
ghost use Rattle.sky_math.specs.Quadratics.{Admits};
ghost use Rattle.sky_units.specs.Ranges.{IsBetween};
ghost use Rattle.quad_fit.specs.Levels.{IsLevel, IsExtreme, IsBent, RestsOn};
ghost use Rattle.quad_fit.specs.MarkRanges.{AreMarks};
ghost use Rattle.quad_fit.specs.References.{IsPairOf, IsTripleOf, NonePasses};

use crate::curves::Curve;
use crate::exchange::{Exchanged, exchange, exchange_in_pair, farthest};
use crate::marks::Marks;
use crate::references::{Pair, Triple, level_line, levelled_curve};

/// The marks on which a curve is levelled: two of a line, or three of a curve that bends up or down.
#[derive(Clone, Copy)]
pub enum Reference {
    Pair(Pair),
    Triple(Triple, bool),
}

/// A curve of the least acceleration that passes all marks, and the reference that it rests on.
#[derive(Clone, Copy)]
pub struct Levelled {
    pub curve: Curve,
    pub reference: Reference,
}

/// The curve of the least acceleration that passes all marks. None where that is above `acc`, or
/// where no curve passes all.
pub fn level(marks: &Marks, acc: i64, tol: i64) -> Option<Levelled>
    requires acc { IsBetween (pos 0) (pos 1000000) acc }
    requires tol { IsBetween (pos 0) (pos 100000) tol }
    requires marks { AreMarks marks.now }
    requires two { 2 ≤ length marks.now }
    ensures { MatchOption result (¬ Admits acc tol marks.now) (IsLevel acc tol marks.now) }
{
    let ends = Pair {
        first: marks.at(0),
        last: marks.at(marks.len() - 1),
    };
    level_pair(marks, &ends, acc, tol)
}

/// `level` from a curve on that rests on some of the marks.
pub fn level_from(marks: &Marks, start: &Levelled, acc: i64, tol: i64) -> Option<Levelled>
    requires acc { IsBetween (pos 0) (pos 1000000) acc }
    requires tol { IsBetween (pos 0) (pos 100000) tol }
    requires marks { AreMarks marks.now }
    requires rests { RestsOn tol marks.now start.now.curve start.now.reference }
    ensures { MatchOption result (¬ Admits acc tol marks.now) (IsLevel acc tol marks.now) }
{
    match start.reference {
        Reference::Pair(pair) => level_pair(marks, &pair, acc, tol),
        Reference::Triple(triple, up) => level_triple(marks, &triple, up, acc, tol),
    }
}

/// `level` from the line through two of the marks on.
fn level_pair(marks: &Marks, start: &Pair, acc: i64, tol: i64) -> Option<Levelled>
    requires acc { IsBetween (pos 0) (pos 1000000) acc }
    requires tol { IsBetween (pos 0) (pos 100000) tol }
    requires marks { AreMarks marks.now }
    requires pair { IsPairOf marks.now start.now }
    ensures { MatchOption result (¬ Admits acc tol marks.now) (IsLevel acc tol marks.now) }
{
    let mut pair = *start;
    let mut line = level_line(&pair, tol);
    while let Some(outside) = farthest(marks, &line, tol) {
        match exchange_in_pair(&pair, &outside) {
            Exchanged::Pair(steeper) => pair = steeper,
            Exchanged::Triple(bent) => {
                return level_triple(marks, &bent, !outside.above, acc, tol);
            }
        }
        line = level_line(&pair, tol);
    }
    Some(Levelled {
        curve: line,
        reference: Reference::Pair(pair),
    })
}

/// `level` from three of the marks on that no line passes.
fn level_triple(marks: &Marks, start: &Triple, up: bool, acc: i64, tol: i64) -> Option<Levelled>
    requires acc { IsBetween (pos 0) (pos 1000000) acc }
    requires tol { IsBetween (pos 0) (pos 100000) tol }
    requires marks { AreMarks marks.now }
    requires triple { IsTripleOf marks.now start.now }
    requires bent { IsBent tol up start.now }
    ensures { MatchOption result (¬ Admits acc tol marks.now) (IsLevel acc tol marks.now) }
{
    let mut triple = *start;
    let mut curve = levelled_curve(&triple, tol, up);
    while curve.is_admitted(acc) {
        let Some(outside) = farthest(marks, &curve, tol) else {
            return Some(Levelled {
                curve,
                reference: Reference::Triple(triple, up),
            });
        };
        triple = exchange(&triple, &outside, up)?;
        curve = levelled_curve(&triple, tol, up);
    }
    None
}

/// The curve that bends the least, up or down as asked, of those that pass all marks: downward it
/// bends the most. None where no curve passes all.
pub fn extreme(marks: &Marks, start: &Triple, up: bool, tol: i64) -> Option<Curve>
    requires tol { IsBetween (pos 0) (pos 100000) tol }
    requires marks { AreMarks marks.now }
    requires triple { IsTripleOf marks.now start.now }
    ensures { MatchOption result (NonePasses tol marks.now) (IsExtreme tol up marks.now) }
{
    let mut triple = *start;
    let mut curve = levelled_curve(&triple, tol, up);
    while let Some(outside) = farthest(marks, &curve, tol) {
        triple = exchange(&triple, &outside, up)?;
        curve = levelled_curve(&triple, tol, up);
    }
    Some(curve)
}
