//! References, and the curves that are levelled on them.
ghost use Rattle.std.specs.Prelude.{◌≡◌, ◌≤◌, ◌*◌, ◌^◌, pos, ◌+ℤ◌, ◌-ℤ◌, ◌*ℤ◌, ◌<ℤ◌, neg_ℤ};
ghost use Rattle.std.specs.Int.RustNames.{unsigned_abs};
ghost use Rattle.sky_math.specs.Triples.{bend, slack, stretch};
ghost use Rattle.sky_units.specs.Limits.{arc_ticks};
ghost use Rattle.sky_units.specs.Ranges.{IsBetween};
ghost use Rattle.quad_fit.specs.Curves.{IsCurveData};
ghost use Rattle.quad_fit.specs.References.{signed, IsTriple, IsLevelled, IsLevelLine};

use crate::curves::Curve;
use crate::marks::Mark;

/// Two marks, the earlier one first.
#[derive(Clone, Copy)]
pub struct Pair {
    pub first: Mark,
    pub last: Mark,
}

/// Three marks in the order of time.
#[derive(Clone, Copy)]
pub struct Triple {
    pub first: Mark,
    pub middle: Mark,
    pub last: Mark,
}

/// The curve that bends the least, up or down as asked, of those within `tol` of three marks.
pub fn levelled_curve(triple: &Triple, tol: i64, up: bool) -> Curve
    requires tol { IsBetween (pos 0) (pos 100000) tol }
    requires triple { IsTriple triple.now }
    ensures levelled { IsLevelled tol up triple.now result }
    ensures range { IsCurveData result }
{
    let Triple {
        first,
        middle,
        last,
    } = *triple;
    let lean = lean_of(tol, up);
    let den = stretch_of(first, middle, last);
    let bend = bend_of(first, middle, last);
    let slack = slack_of(first, last, lean);
    Curve {
        start: start_of(first, lean, den),
        slope: slope_of(first, middle, last, lean),
        bend: bend + slack,
        den,
        first: first.time,
        second: middle.time,
    }
}

/// The line that rises the least of those within `tol` of two marks.
pub fn level_line(pair: &Pair, tol: i64) -> Curve
    requires tol { IsBetween (pos 0) (pos 100000) tol }
    requires rising { pair.now.first.time <ℤ pair.now.last.time }
    ensures level { IsLevelLine tol pair.now result }
    ensures range { IsCurveData result }
{
    let Pair { first, last } = *pair;
    let den = (last.time - first.time) as i128;
    Curve {
        start: start_of(first, tol, den),
        slope: rise_of(first, last, tol) as i128,
        bend: 0,
        den,
        first: first.time,
        second: last.time,
    }
}

/// How far a levelled curve lies above the first and the last mark.
fn lean_of(tol: i64, up: bool) -> i64
    requires { IsBetween (pos 0) (pos 100000) tol }
    ensures value { result ≡ neg_ℤ (signed up tol) }
    ensures size { unsigned_abs result ≤ 100000 }
{
    if up { -tol } else { tol }
}

/// The value of a curve `lean` above a mark, over the denominator `den`.
fn start_of(x: Mark, lean: i64, den: i128) -> i128
    requires lean { unsigned_abs lean ≤ 100000 }
    requires den { IsBetween (pos 1) (pos (10 ^ 22)) den }
    ensures value { result ≡ (x.position +ℤ lean) *ℤ den }
    ensures size { unsigned_abs result ≤ 10 ^ 30 }
{
    (x.position + lean) as i128 * den
}

/// How far a curve rises from `lean` above one mark to `lean` below another.
fn rise_of(x: Mark, y: Mark, lean: i64) -> i64
    requires { unsigned_abs lean ≤ 100000 }
    ensures value { result ≡ (y.position -ℤ x.position) -ℤ (lean +ℤ lean) }
    ensures size { unsigned_abs result ≤ 180200000 }
{
    y.position - x.position - (lean + lean)
}

/// The slope from `lean` above the first of three marks to `lean` below the second, over the
/// product of the three stretches of time.
fn slope_of(x: Mark, y: Mark, z: Mark, lean: i64) -> i128
    requires lean { unsigned_abs lean ≤ 100000 }
    requires before { x.time <ℤ y.time }
    requires after { y.time <ℤ z.time }
    requires brief { (z.time -ℤ x.time) <ℤ arc_ticks }
    ensures value { result ≡ ((y.position -ℤ x.position) -ℤ (lean +ℤ lean)) *ℤ
        ((z.time -ℤ y.time) *ℤ (z.time -ℤ x.time)) }
    ensures size { unsigned_abs result ≤ 2 * 10 ^ 23 }
{
    rise_of(x, y, lean) as i128 * ((z.time - y.time) * (z.time - x.time)) as i128
}

/// What the second slope of three marks exceeds the first by, times both stretches of time.
fn bend_of(x: Mark, y: Mark, z: Mark) -> i64
    requires before { x.time <ℤ y.time }
    requires after { y.time <ℤ z.time }
    requires brief { (z.time -ℤ x.time) <ℤ arc_ticks }
    ensures value { result ≡ bend x y z }
    ensures size { unsigned_abs result ≤ 5400000000000000 }
{
    (z.position - y.position) * (y.time - x.time) - (y.position - x.position) * (z.time - y.time)
}

/// Twice the `lean` over the whole stretch of time of three marks.
fn slack_of(x: Mark, z: Mark, lean: i64) -> i64
    requires lean { unsigned_abs lean ≤ 100000 }
    requires rising { x.time <ℤ z.time }
    requires brief { (z.time -ℤ x.time) <ℤ arc_ticks }
    ensures value { result ≡ slack lean x z }
    ensures size { unsigned_abs result ≤ 6000000000000 }
{
    (lean + lean) * (z.time - x.time)
}

/// The product of the three stretches of time between three marks.
fn stretch_of(x: Mark, y: Mark, z: Mark) -> i128
    requires before { x.time <ℤ y.time }
    requires after { y.time <ℤ z.time }
    requires brief { (z.time -ℤ x.time) <ℤ arc_ticks }
    ensures value { result ≡ stretch x y z }
    ensures size { IsBetween (pos 1) (pos (10 ^ 22)) result }
{
    ((y.time - x.time) * (z.time - y.time)) as i128 * (z.time - x.time) as i128
}
