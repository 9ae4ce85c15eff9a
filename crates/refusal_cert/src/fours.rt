//! The first four spots that an axis doesn't admit, where it admits each three.
ghost use Rattle.std.specs.Prelude.{◌<◌, ◌∷◌, [], length, take};
ghost use Rattle.sky_units.specs.Arcs.{IsArc};
ghost use Rattle.sky_units.specs.Motion.{AxisAdmits};
ghost use Rattle.refusal_cert.specs.Certificates.{AdmitsEach};
ghost use Rattle.refusal_cert.specs.Searches.{FindsFirst, four, one, three, two};

use crate::coefficients::{coefficients_of, limits_of};
use quad_fit::axis_admits;
use sky_units::{Axis, Settings, Spot};

/// The places of the first four spots of an arc, in lexicographic order of their places, that the
/// axis doesn't admit. It admits each three.
pub fn first_four(
    spots: &[Spot],
    axis: Axis,
    settings: &Settings,
) -> Option<(usize, usize, usize, usize)>
    requires arc { IsArc spots.now }
    requires threes { AdmitsEach 3 axis settings.now spots.now }
    ensures { FindsFirst 4 four axis settings.now spots.now [] result }
{
    let front = admitted_front(spots, axis, settings);
    for i in 0..spots.len() {
        if let Some((j, k, l)) = first_three_after(spots, i, front, axis, settings) {
            return Some((i, j, k, l));
        }
    }
    None
}

/// How many spots of an arc, from the first on, the axis admits together. Four of them that it
/// doesn't admit end behind these.
fn admitted_front(spots: &[Spot], axis: Axis, settings: &Settings) -> usize
    requires { IsArc spots.now }
    ensures { AxisAdmits axis settings.now (take result spots.now) }
{
    // No spots are admitted, since no greatest acceleration is negative.
    let _ = &settings.acc_ra;
    for len in 0..spots.len() {
        if !axis_admits(&spots[..len + 1], axis, settings) {
            return len;
        }
    }
    spots.len()
}

/// The places of the first three spots that the axis doesn't admit together with an earlier one.
fn first_three_after(
    spots: &[Spot],
    i: usize,
    front: usize,
    axis: Axis,
    settings: &Settings,
) -> Option<(usize, usize, usize)>
    requires arc { IsArc spots.now }
    requires threes { AdmitsEach 3 axis settings.now spots.now }
    requires front { AxisAdmits axis settings.now (take front spots.now) }
    requires within { i < length spots.now }
    ensures { FindsFirst 3 three axis settings.now spots.now (i ∷ []) result }
{
    for j in i + 1..spots.len() {
        if let Some((k, l)) = first_two_after(spots, i, j, front, axis, settings) {
            return Some((j, k, l));
        }
    }
    None
}

/// The places of the first two spots that the axis doesn't admit together with two earlier ones.
fn first_two_after(
    spots: &[Spot],
    i: usize,
    j: usize,
    front: usize,
    axis: Axis,
    settings: &Settings,
) -> Option<(usize, usize)>
    requires arc { IsArc spots.now }
    requires threes { AdmitsEach 3 axis settings.now spots.now }
    requires front { AxisAdmits axis settings.now (take front spots.now) }
    requires rising { i < j }
    requires within { j < length spots.now }
    ensures { FindsFirst 2 two axis settings.now spots.now (i ∷ j ∷ []) result }
{
    for k in j + 1..spots.len() {
        if let Some(l) = first_one_after(spots, i, j, k, front, axis, settings) {
            return Some((k, l));
        }
    }
    None
}

/// The place of the first spot that the axis doesn't admit together with three earlier ones.
fn first_one_after(
    spots: &[Spot],
    i: usize,
    j: usize,
    k: usize,
    front: usize,
    axis: Axis,
    settings: &Settings,
) -> Option<usize>
    requires arc { IsArc spots.now }
    requires threes { AdmitsEach 3 axis settings.now spots.now }
    requires front { AxisAdmits axis settings.now (take front spots.now) }
    requires first_step { i < j }
    requires second_step { j < k }
    requires within { k < length spots.now }
    ensures { FindsFirst 1 one axis settings.now spots.now (i ∷ j ∷ k ∷ []) result }
{
    let (_, tol) = limits_of(axis, settings);
    let second = &spots[j];
    let third = &spots[k];
    let before = coefficients_of(axis, &spots[i], second, third, tol);
    for l in front.max(k + 1)..spots.len() {
        let after = coefficients_of(axis, second, third, &spots[l], tol);
        if !before.meet(&after) {
            return Some(l);
        }
    }
    None
}
