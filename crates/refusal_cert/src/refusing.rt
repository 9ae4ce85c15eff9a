//! The certificate of a misfit.
ghost use Rattle.std.specs.Prelude.{◌≡◌, ◌↔◌, None};
ghost use Rattle.sky_units.specs.Arcs.{IsArc};
ghost use Rattle.sky_units.specs.Motion.{AxisAdmits};
ghost use Rattle.refusal_cert.specs.Certificates.{IsCertificate};

use crate::fours::first_four;
use crate::numbers::number_at;
use crate::threes::first_three;
use quad_fit::axis_admits;
use sky_units::{Axis, Cert, Settings, Spot};

/// The certificate that an axis doesn't admit the spots, which are an arc: the numbers of the first
/// three that it doesn't admit, in lexicographic order of their places, or, where there are none, of
/// the first such four. None exactly where the axis admits the spots.
pub fn refuse(spots: &[Spot], axis: Axis, settings: &Settings) -> Option<Cert>
    requires { IsArc spots.now }
    ensures certificate { IsCertificate axis settings.now spots.now result }
    ensures none { (result ≡ None) ↔ AxisAdmits axis settings.now spots.now }
{
    // No greatest acceleration is negative.
    let _ = &settings.acc_ra;
    if axis_admits(spots, axis, settings) {
        return None;
    }
    if let Some((i, j, k)) = first_three(spots, axis, settings) {
        return Some(Cert::Three([
            number_at(spots, i),
            number_at(spots, j),
            number_at(spots, k),
        ]));
    }
    let (i, j, k, l) = first_four(spots, axis, settings)?;
    Some(Cert::Four([
        number_at(spots, i),
        number_at(spots, j),
        number_at(spots, k),
        number_at(spots, l),
    ]))
}
