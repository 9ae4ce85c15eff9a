//! The test of spots, in one slice or in three.
ghost use Rattle.std.specs.Prelude.{◌≡◌, ◌↔◌, ◌+◌, ◌-◌, ◌^◌, ◌++◌, min, IsTrue};
ghost use Rattle.sky_units.specs.Arcs.{IsArc};
ghost use Rattle.sky_units.specs.Motion.{Fits};

use crate::growing::basis_of;
use sky_units::{Settings, Spot, Tally, joined_len};

/// Whether on each axis some admitted quadratic passes all the spots, which are an arc: one of a
/// bounded acceleration that is nowhere farther from a spot than the tolerance, both by the
/// settings. It counts one test.
pub fn fits(spots: &[Spot], settings: &Settings, tally: &mut Tally) -> bool
    requires { IsArc spots.now }
    ensures fits { IsTrue result ↔ Fits settings.now spots.now }
    ensures counted { tally.new.tests ≡ min (tally.old.tests + 1) (2 ^ 64 - 1) }
{
    fits_joined(spots, &[], &[], settings, tally)
}

/// Whether `fits` holds of the spots of three slices, one slice after the other. Each of the slices
/// may be empty. It counts one test.
pub fn fits_joined(
    a: &[Spot],
    b: &[Spot],
    c: &[Spot],
    settings: &Settings,
    tally: &mut Tally,
) -> bool
    requires { IsArc (a.now ++ b.now ++ c.now) }
    ensures fits { IsTrue result ↔ Fits settings.now (a.now ++ b.now ++ c.now) }
    ensures counted { tally.new.tests ≡ min (tally.old.tests + 1) (2 ^ 64 - 1) }
{
    tally.tests = tally.tests.saturating_add(1);
    if joined_len(a, b, c) < 2 {
        // One spot fits, since no greatest acceleration is negative.
        let _ = &settings.acc_ra;
        return true;
    }
    basis_of(a, b, c, settings).is_some()
}
