//! The first three spots that an axis doesn't admit.
ghost use Rattle.std.specs.Prelude.{◌↔◌, ◌<◌, ◌∷◌, [], IsTrue, length};
ghost use Rattle.sky_units.specs.Arcs.{IsArc};
ghost use Rattle.sky_units.specs.Motion.{AxisAdmits};
ghost use Rattle.refusal_cert.specs.Searches.{FindsFirst, one, three, two};

use crate::coefficients::{coefficients_of, limits_of};
use sky_units::{Axis, Settings, Spot};

/// The places of the first three spots of an arc, in lexicographic order of their places, that the
/// axis doesn't admit.
pub fn first_three(spots: &[Spot], axis: Axis, settings: &Settings) -> Option<(usize, usize, usize)>
    requires { IsArc spots.now }
    ensures { FindsFirst 3 three axis settings.now spots.now [] result }
{
    for i in 0..spots.len() {
        if let Some((j, k)) = first_two_after(spots, i, axis, settings) {
            return Some((i, j, k));
        }
    }
    None
}

/// The places of the first two spots that the axis doesn't admit together with an earlier one.
fn first_two_after(
    spots: &[Spot],
    i: usize,
    axis: Axis,
    settings: &Settings,
) -> Option<(usize, usize)>
    requires arc { IsArc spots.now }
    requires within { i < length spots.now }
    ensures { FindsFirst 2 two axis settings.now spots.now (i ∷ []) result }
{
    for j in i + 1..spots.len() {
        if let Some(k) = first_one_after(spots, i, j, axis, settings) {
            return Some((j, k));
        }
    }
    None
}

/// The place of the first spot that the axis doesn't admit together with two earlier ones.
fn first_one_after(
    spots: &[Spot],
    i: usize,
    j: usize,
    axis: Axis,
    settings: &Settings,
) -> Option<usize>
    requires arc { IsArc spots.now }
    requires rising { i < j }
    requires within { j < length spots.now }
    ensures { FindsFirst 1 one axis settings.now spots.now (i ∷ j ∷ []) result }
{
    for k in j + 1..spots.len() {
        if !admits_three(axis, &spots[i], &spots[j], &spots[k], settings) {
            return Some(k);
        }
    }
    None
}

/// Whether the axis admits three spots of an arc.
fn admits_three(axis: Axis, x: &Spot, y: &Spot, z: &Spot, settings: &Settings) -> bool
    requires { IsArc (x.now ∷ y.now ∷ z.now ∷ []) }
    ensures { IsTrue result ↔ AxisAdmits axis settings.now (x.now ∷ y.now ∷ z.now ∷ []) }
{
    let (acc, tol) = limits_of(axis, settings);
    coefficients_of(axis, x, y, z, tol).keep(acc)
}
