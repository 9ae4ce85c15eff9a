//! Whether a certificate shows what it claims.
ghost use Rattle.std.specs.Prelude.{◌↔◌, IsTrue};
ghost use Rattle.sky_units.specs.Arcs.{IsArc};
ghost use Rattle.refusal_cert.specs.Certificates.{AreShown, HaveDifferentNumbers, numbers_of};

use crate::numbers::place_of;
use quad_fit::axis_admits;
use sky_units::{Axis, Cert, Settings, Spot};

/// Whether the spots that a certificate names stand among these, which are an arc of different
/// numbers, one after the other, and no admitted quadratic of the axis passes them all.
pub fn check(spots: &[Spot], axis: Axis, cert: &Cert, settings: &Settings) -> bool
    requires arc { IsArc spots.now }
    requires different { HaveDifferentNumbers spots.now }
    ensures { IsTrue result ↔ AreShown axis settings.now spots.now (numbers_of cert.now) }
{
    match cert {
        Cert::Three(numbers) => check_three(spots, axis, numbers, settings),
        Cert::Four(numbers) => check_four(spots, axis, numbers, settings),
    }
}

/// `check` of three.
fn check_three(spots: &[Spot], axis: Axis, numbers: &[u32; 3], settings: &Settings) -> bool
    requires arc { IsArc spots.now }
    requires different { HaveDifferentNumbers spots.now }
    ensures { IsTrue result ↔ AreShown axis settings.now spots.now numbers.now }
{
    let Some(i) = place_of(spots, 0, numbers[0]) else {
        return false;
    };
    let Some(j) = place_of(spots, i + 1, numbers[1]) else {
        return false;
    };
    let Some(k) = place_of(spots, j + 1, numbers[2]) else {
        return false;
    };
    !axis_admits(&[spots[i], spots[j], spots[k]], axis, settings)
}

/// `check` of four.
fn check_four(spots: &[Spot], axis: Axis, numbers: &[u32; 4], settings: &Settings) -> bool
    requires arc { IsArc spots.now }
    requires different { HaveDifferentNumbers spots.now }
    ensures { IsTrue result ↔ AreShown axis settings.now spots.now numbers.now }
{
    let Some(i) = place_of(spots, 0, numbers[0]) else {
        return false;
    };
    let Some(j) = place_of(spots, i + 1, numbers[1]) else {
        return false;
    };
    let Some(k) = place_of(spots, j + 1, numbers[2]) else {
        return false;
    };
    let Some(l) = place_of(spots, k + 1, numbers[3]) else {
        return false;
    };
    !axis_admits(&[spots[i], spots[j], spots[k], spots[l]], axis, settings)
}
