//! The spot that lies farthest from the least-squares lines.

ghost use Rattle.std.specs.Prelude.{◌≡◌, ◌<◌, ◌≤◌, ◌+ℤ◌, ◌-ℤ◌, ◌*ℤ◌, if◌then◌else◌, length, max, nat_le};
ghost use Rattle.std.specs.Int.RustNames.{unsigned_abs};
ghost use Rattle.sky_units.specs.Arcs.{IsArc};
ghost use Rattle.sky_units.specs.Motion.{offset, points};
ghost use Rattle.line_fit.specs.Slopes.{AreOfOneDay};
ghost use Rattle.purge.specs.LeastSquares.{line_over};
ghost use Rattle.purge.specs.Purging.{worst};
ghost use Rattle.purge.specs.Sizes.{IsSmallLine, IsSmallPoint};

use crate::squares::{SquaresLine, distance_from, line_of, no_sums, with_point};
use sky_units::{Axis, Spot, offset};

/// A spot by its place, and how far it lies from the lines.
#[derive(Clone, Copy)]
struct Candidate {
    at: usize,
    deviation: u128,
}

/// The place of the worst spot: the one with the greatest absolute residual from the least-squares
/// lines of position over time. The greater of the two axes counts; of equal ones the latest is taken.
/// The spots are two or more, an arc within one day.
pub fn worst(spots: &[Spot]) -> usize
    requires two { 2 ≤ length spots.now }
    requires arc { IsArc spots.now }
    requires day { AreOfOneDay spots.now }
    ensures { result ≡ worst spots.now }
{
    let ra = least_squares(Axis::Ra, spots);
    let dec = least_squares(Axis::Dec, spots);
    let first = &spots[0];
    let mut found = Candidate {
        at: 0,
        deviation: 0,
    };
    for at in 0..spots.len() {
        let deviation = deviation_from(ra, dec, first, &spots[at]);
        found = worse(found, Candidate { at, deviation });
    }
    found.at
}

/// The worse one of two candidates, the later one where they lie equally far.
fn worse(one: Candidate, later: Candidate) -> Candidate
    ensures { result ≡ (if nat_le one.deviation later.deviation then later else one) }
{
    if one.deviation <= later.deviation {
        later
    } else {
        one
    }
}

/// The greater of a spot's distances from the lines of the two axes.
fn deviation_from(ra: SquaresLine, dec: SquaresLine, first: &Spot, spot: &Spot) -> u128
    requires ra { IsSmallLine ra.scale ra.slope ra.level }
    requires dec { IsSmallLine dec.scale dec.slope dec.level }
    requires ra_point { IsSmallPoint (spot.now.epoch -ℤ first.now.epoch)
        (offset Axis.Ra first.now spot.now) }
    requires dec_point { IsSmallPoint (spot.now.epoch -ℤ first.now.epoch)
        (offset Axis.Dec first.now spot.now) }
    ensures { result ≡ max
        (unsigned_abs
        ((offset Axis.Ra first.now spot.now *ℤ ra.scale) -ℤ
        (ra.level +ℤ (ra.slope *ℤ (spot.now.epoch -ℤ first.now.epoch)))))
        (unsigned_abs
        ((offset Axis.Dec first.now spot.now *ℤ dec.scale) -ℤ
        (dec.level +ℤ (dec.slope *ℤ (spot.now.epoch -ℤ first.now.epoch))))) }
{
    let time = time_from(first, spot);
    let on_ra = distance_from(ra, time, offset(Axis::Ra, first, spot) as i128);
    let on_dec = distance_from(dec, time, offset(Axis::Dec, first, spot) as i128);
    on_ra.max(on_dec)
}

/// The ticks from one spot to another.
fn time_from(first: &Spot, spot: &Spot) -> i128
    ensures { result ≡ spot.now.epoch -ℤ first.now.epoch }
{
    (spot.epoch - first.epoch) as i128
}

/// The least-squares line of spots on an axis, counted from the first of them.
fn least_squares(axis: Axis, spots: &[Spot]) -> SquaresLine
    requires some { 0 < length spots.now }
    requires arc { IsArc spots.now }
    requires day { AreOfOneDay spots.now }
    ensures level { result.level ≡ (line_over (points axis spots.now)).p }
    ensures slope { result.slope ≡ (line_over (points axis spots.now)).v }
    ensures scale { result.scale ≡ (line_over (points axis spots.now)).d }
    ensures size { IsSmallLine result.scale result.slope result.level }
{
    let first = &spots[0];
    let mut sums = no_sums();
    for at in 0..spots.len() {
        let spot = &spots[at];
        sums = with_point(
            sums,
            time_from(first, spot),
            offset(axis, first, spot) as i128,
        );
    }
    line_of(sums)
}
