//! What holds of every family.

ghost use Rattle.closed_sets.specs.Laws.{ClosedByNumbers};

use crate::family::Family;

/// A set is closed exactly where it fits, and fits together with no number that it lacks.
pub fn closed_by_numbers<F: Family>(family: &F)
    ensures { ClosedByNumbers (F.Fits family.now) }
{
    let _ = family;
}
