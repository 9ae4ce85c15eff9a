//! Marks: spots on one axis, counted from a base.
ghost use Rattle.std.specs.Prelude.{◌≡◌, ◌<◌, ◌++◌, length, map, slice_index_or};
ghost use Rattle.sky_units.specs.Motion.{point_from};
ghost use Rattle.quad_fit.specs.MarkRanges.{IsMarkPoint, AreMarks};

use sky_units::{Axis, Spot, joined_len, joined_spot, offset};
use std::marker::Model;

/// A spot on one axis: its time and position counted from those of a base.
#[derive(Clone, Copy)]
pub struct Mark {
    /// In ticks: less than 30,000,000 either way.
    pub time: i64,
    /// In 10^-6 degree: less than 90,000,000 either way.
    pub position: i64,
}

impl Model for Mark {
    ghost use Rattle.sky_math.specs.Quadratics.{Point};
    ghost use Rattle.quad_fit.specs.MarkRanges.{IsMark};

    ghost Value = { Point };

    ghost view = { λ m. record { time = m.time; position = m.position } };

    ghost invariant = { λ m. IsMark m.time m.position };

    ghost inverse = { λ m. record { time = m.time; position = m.position } };
}

/// The spots of three slices, one slice after the other, on one axis, counted from a base.
#[derive(Drop)]
pub struct Marks<'a> {
    a: &'a [Spot],
    b: &'a [Spot],
    c: &'a [Spot],
    axis: Axis,
    base: Spot,
}

impl<'a> Model for Marks<'a> {
    ghost use Rattle.std.specs.Prelude.{◌++◌, List, map};
    ghost use Rattle.sky_math.specs.Quadratics.{Point};
    ghost use Rattle.sky_units.specs.Motion.{point_from};
    ghost use Rattle.quad_fit.specs.MarkRanges.{AreMarks};

    ghost Value = { List Point };

    ghost view = { λ m. map (point_from m.axis m.base) (m.a.now ++ m.b.now ++ m.c.now) };

    ghost invariant = { λ m. AreMarks
        (map (point_from m.axis m.base) (m.a.now ++ m.b.now ++ m.c.now)) };
}

impl<'a> Marks<'a> {
    /// How many spots there are.
    pub fn len(&self) -> usize
        ensures { result ≡ length self.now }
    {
        joined_len(self.a, self.b, self.c)
    }

    /// The mark of the spot at this place.
    pub fn at(&self, place: usize) -> Mark
        requires { place < length self.now }
        ensures { result ≡ slice_index_or self.now place result }
    {
        let base = &self.base;
        mark_of(self.axis, base, joined_spot(self.a, self.b, self.c, place))
    }
}

/// The mark of a spot, counted from the base.
fn mark_of(axis: Axis, base: &Spot, spot: &Spot) -> Mark
    requires { IsMarkPoint (point_from axis base.now spot.now) }
    ensures { result ≡ point_from axis base.now spot.now }
{
    Mark {
        time: spot.epoch - base.epoch,
        position: offset(axis, base, spot),
    }
}

/// The spots of three slices on one axis, counted from a base near them.
pub fn marks_of<'a>(
    a: &'a [Spot],
    b: &'a [Spot],
    c: &'a [Spot],
    axis: Axis,
    base: Spot,
) -> Marks<'a>
    requires { AreMarks (map (point_from axis base) (a.now ++ b.now ++ c.now)) }
    ensures { result ≡ map (point_from axis base) (a.now ++ b.now ++ c.now) }
{
    Marks {
        a,
        b,
        c,
        axis,
        base,
    }
}
