//! The test of spots on one axis.
ghost use Rattle.std.specs.Prelude.{◌↔◌, IsTrue};
ghost use Rattle.sky_units.specs.Arcs.{IsArc};
ghost use Rattle.sky_units.specs.Motion.{AxisAdmits};

use crate::growing::axis_level;
use sky_units::{Axis, Settings, Spot};

/// Whether some admitted quadratic of the axis passes all the spots, which are an arc. It counts no
/// test.
pub fn axis_admits(spots: &[Spot], axis: Axis, settings: &Settings) -> bool
    requires { IsArc spots.now }
    ensures { IsTrue result ↔ AxisAdmits axis settings.now spots.now }
{
    if spots.len() < 2 {
        // One spot is admitted, since no greatest acceleration is negative.
        let _ = &settings.acc_ra;
        return true;
    }
    axis_level(spots, &[], &[], spots[0], axis, settings).is_some()
}
