//! Tests whose answer is kept: a set of spots that grows is tested on from where the last test ended.
ghost use Rattle.std.specs.Prelude.{◌≡◌, ◌≤◌, ◌+◌, ◌-◌, ◌^◌, ◌++◌, pos, min, length};
ghost use Rattle.std.specs.List.{Contains};
ghost use Rattle.sky_units.specs.Arcs.{IsArc};
ghost use Rattle.sky_units.specs.Motion.{tolerance, acceleration};
ghost use Rattle.sky_units.specs.Ranges.{IsBetween};
ghost use Rattle.quad_fit.specs.Bases.{GivesBasis, GivesLevel, IsBasis, IsLevelOn};

use crate::exchange::farthest;
use crate::levelling::{Levelled, level, level_from};
use crate::marks::marks_of;
use sky_units::{Axis, Settings, Spot, Tally, joined_spot};

/// What a test leaves where the spots fit: on each axis a curve that passes them all, with the two
/// or three spots on which it rests, counted from one of the spots. A test of these spots and some
/// more goes on from there.
#[derive(Clone, Copy)]
pub struct Basis {
    pub(crate) base: Spot,
    pub(crate) ra: Levelled,
    pub(crate) dec: Levelled,
}

/// Whether `fits` holds of the spots of three slices, one slice after the other, two spots or more;
/// where it does, their basis. Each of the slices may be empty. It counts one test.
pub fn fits_basis(
    a: &[Spot],
    b: &[Spot],
    c: &[Spot],
    settings: &Settings,
    tally: &mut Tally,
) -> Option<Basis>
    requires arc { IsArc (a.now ++ b.now ++ c.now) }
    requires two { 2 ≤ length (a.now ++ b.now ++ c.now) }
    ensures fits { GivesBasis settings.now (a.now ++ b.now ++ c.now) result }
    ensures counted { tally.new.tests ≡ min (tally.old.tests + 1) (2 ^ 64 - 1) }
{
    tally.tests = tally.tests.saturating_add(1);
    basis_of(a, b, c, settings)
}

/// `fits_basis` of spots that fit and of new ones: `b` are the new spots, and `basis` is that of `a`
/// and `c`, one after the other. Where the curves of the basis pass the new spots, no other spot is
/// looked at. It counts one test.
pub fn fits_grown(
    a: &[Spot],
    b: &[Spot],
    c: &[Spot],
    basis: &Basis,
    settings: &Settings,
    tally: &mut Tally,
) -> Option<Basis>
    requires arc { IsArc (a.now ++ b.now ++ c.now) }
    requires known { IsBasis settings.now (a.now ++ c.now) basis.now }
    ensures fits { GivesBasis settings.now (a.now ++ b.now ++ c.now) result }
    ensures counted { tally.new.tests ≡ min (tally.old.tests + 1) (2 ^ 64 - 1) }
{
    tally.tests = tally.tests.saturating_add(1);
    let base = basis.base;
    let ra = axis_grown(a, b, c, base, &basis.ra, Axis::Ra, settings)?;
    let dec = axis_grown(a, b, c, base, &basis.dec, Axis::Dec, settings)?;
    Some(Basis { base, ra, dec })
}

/// The basis of the spots of three slices, if they fit.
pub fn basis_of(a: &[Spot], b: &[Spot], c: &[Spot], settings: &Settings) -> Option<Basis>
    requires arc { IsArc (a.now ++ b.now ++ c.now) }
    requires two { 2 ≤ length (a.now ++ b.now ++ c.now) }
    ensures { GivesBasis settings.now (a.now ++ b.now ++ c.now) result }
{
    let base = *joined_spot(a, b, c, 0);
    let ra = axis_level(a, b, c, base, Axis::Ra, settings)?;
    let dec = axis_level(a, b, c, base, Axis::Dec, settings)?;
    Some(Basis { base, ra, dec })
}

/// The curve of an axis that passes the spots of three slices, counted from a base among them, if
/// the axis admits them.
pub fn axis_level(
    a: &[Spot],
    b: &[Spot],
    c: &[Spot],
    base: Spot,
    axis: Axis,
    settings: &Settings,
) -> Option<Levelled>
    requires arc { IsArc (a.now ++ b.now ++ c.now) }
    requires two { 2 ≤ length (a.now ++ b.now ++ c.now) }
    requires base { Contains (a.now ++ b.now ++ c.now) base }
    ensures { GivesLevel axis settings.now base (a.now ++ b.now ++ c.now) result }
{
    let acc = acceleration_of(axis, settings);
    let tol = tolerance_of(axis, settings);
    level(&marks_of(a, b, c, axis, base), acc, tol)
}

/// `axis_level` of spots of which all but those of `b` are passed by a known curve.
fn axis_grown(
    a: &[Spot],
    b: &[Spot],
    c: &[Spot],
    base: Spot,
    known: &Levelled,
    axis: Axis,
    settings: &Settings,
) -> Option<Levelled>
    requires arc { IsArc (a.now ++ b.now ++ c.now) }
    requires base { Contains (a.now ++ c.now) base }
    requires known { IsLevelOn axis settings.now base (a.now ++ c.now) known.now }
    ensures { GivesLevel axis settings.now base (a.now ++ b.now ++ c.now) result }
{
    let acc = acceleration_of(axis, settings);
    let tol = tolerance_of(axis, settings);
    if farthest(&marks_of(b, &[], &[], axis, base), &known.curve, tol).is_none() {
        return Some(*known);
    }
    level_from(&marks_of(a, b, c, axis, base), known, acc, tol)
}

/// The greatest acceleration of an axis.
pub fn acceleration_of(axis: Axis, settings: &Settings) -> i64
    ensures value { result ≡ acceleration axis settings.now }
    ensures range { IsBetween (pos 0) (pos 1000000) result }
{
    match axis {
        Axis::Ra => settings.acc_ra,
        Axis::Dec => settings.acc_dec,
    }
}

/// The tolerance of an axis.
pub fn tolerance_of(axis: Axis, settings: &Settings) -> i64
    ensures value { result ≡ tolerance axis settings.now }
    ensures range { IsBetween (pos 0) (pos 100000) result }
{
    match axis {
        Axis::Ra => settings.tol_ra,
        Axis::Dec => settings.tol_dec,
    }
}
