//! The fit test of spots that may be no arc.
ghost use Rattle.std.specs.Prelude.{◌↔◌, ◌++◌, IsTrue};
ghost use Rattle.closed_sets.specs.Counting.{Rises};
ghost use Rattle.sky_units.specs.Arcs.{IsArc};
ghost use Rattle.sky_units.specs.Motion.{Fits};

use quad_fit::fits_joined;
use sky_units::{Settings, Spot, Tally, is_arc_joined};

/// Whether spots are an arc that fits. It counts a test of an arc, and none else.
pub fn is_fitting_arc(spots: &[Spot], settings: &Settings, tally: &mut Tally) -> bool
    ensures fits { IsTrue result ↔ (IsArc spots.now × Fits settings.now spots.now) }
    ensures tests { Rises 1 tally.old.tests tally.new.tests }
{
    are_fitting_arc(spots, &[], &[], settings, tally)
}

/// The same of the spots of three slices, one slice after the other.
pub fn are_fitting_arc(
    a: &[Spot],
    b: &[Spot],
    c: &[Spot],
    settings: &Settings,
    tally: &mut Tally,
) -> bool
    ensures fits { IsTrue result ↔
        (IsArc (a.now ++ b.now ++ c.now) × Fits settings.now (a.now ++ b.now ++ c.now)) }
    ensures tests { Rises 1 tally.old.tests tally.new.tests }
{
    if !is_arc_joined(a, b, c) {
        return false;
    }
    let mut test = Tally::zero();
    let fit = fits_joined(a, b, c, settings, &mut test);
    tally.tests = tally.tests.saturating_add(test.tests);
    fit
}
