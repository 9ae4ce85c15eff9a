//! The test against a plain one over all triples of detections, on made-up arcs.
ghost use Rattle.std.specs.Prelude.{◌≤◌, ◌≤ℤ◌, pos};
ghost use Rattle.sky_units.specs.Ranges.{IsBetween};

use crate::{fits, fits_basis, fits_grown};
use sky_units::{Axis, Settings, Spot, Tally, is_arc, is_arc_joined, offset};
use std::alloc::Global;
use std::process::Abort;
use std::test::Fail;

/// How arcs are made up, each a little different.
#[derive(Clone, Copy)]
struct Form {
    /// An arc has from three detections to so many.
    most: u64,
    /// Times are multiples of this, in ticks.
    step: i64,
    /// Between two detections pass up to so many steps.
    gap: u64,
    /// The acceleration of the curve, in 10^-6 degree per day squared.
    acc: i64,
    /// How far the detections lie from the curve.
    off: i64,
    /// The greatest acceleration by the settings, and their tolerance.
    limit: i64,
    tol: i64,
    /// One of so many detections lies one unit farther.
    rare: u64,
    /// The right ascension of the curve at its start.
    ra: i64,
}

const FORMS: [Form; 9] = [
    Form {
        most: 12,
        step: 1,
        gap: 2_400_000,
        acc: 0,
        off: 300,
        limit: 0,
        tol: 300,
        rare: 12,
        ra: 10_000_000,
    },
    Form {
        most: 6,
        step: 1,
        gap: 5_000_000,
        acc: 5_000,
        off: 300,
        limit: 20_000,
        tol: 300,
        rare: 6,
        ra: 359_999_000,
    },
    Form {
        most: 8,
        step: 1_000_000,
        gap: 4,
        acc: 20_000,
        off: 0,
        limit: 20_000,
        tol: 0,
        rare: 16,
        ra: 10_000_000,
    },
    Form {
        most: 5,
        step: 1_000_000,
        gap: 3,
        acc: 20_002,
        off: 1,
        limit: 20_000,
        tol: 1,
        rare: 16,
        ra: 10_000_000,
    },
    Form {
        most: 16,
        step: 1,
        gap: 700_000,
        acc: 1_000_000,
        off: 299,
        limit: 1_000_000,
        tol: 300,
        rare: 5,
        ra: 10_000_000,
    },
    Form {
        most: 20,
        step: 1,
        gap: 1_400_000,
        acc: 0,
        off: 0,
        limit: 0,
        tol: 0,
        rare: 20,
        ra: 359_999_999,
    },
    Form {
        most: 60,
        step: 1,
        gap: 480_000,
        acc: 19_900,
        off: 299,
        limit: 20_000,
        tol: 300,
        rare: 6,
        ra: 359_990_000,
    },
    Form {
        most: 60,
        step: 1,
        gap: 480_000,
        acc: 20_010,
        off: 299,
        limit: 20_000,
        tol: 300,
        rare: 240,
        ra: 10_000_000,
    },
    Form {
        most: 40,
        step: 1,
        gap: 700_000,
        acc: 0,
        off: 100_000,
        limit: 1_000_000,
        tol: 100_000,
        rare: 40,
        ra: 10_000_000,
    },
];

#[test]
fn fits_as_all_triples_say(rt: HostRuntime) -> Result<(), Fail> {
    let mut numbers = Numbers { state: 1 };
    for form in FORMS {
        compare(&rt, rt.alloc(), form, &mut numbers)?;
    }
    Ok(())
}

/// How many arcs fitted, and how many didn't.
#[derive(Drop)]
struct Seen {
    fits: u32,
    misfits: u32,
}

/// Compares the tests on arcs of a form, of which some fit and some don't.
fn compare(rt: &impl Abort, alloc: Global, form: Form, numbers: &mut Numbers) -> Result<(), Fail> {
    let mut settings = Settings::standard();
    settings.set(b"tol_ra", form.tol)?;
    settings.set(b"tol_dec", form.tol)?;
    settings.set(b"acc_ra", form.limit)?;
    settings.set(b"acc_dec", form.limit)?;
    let mut seen = Seen {
        fits: 0,
        misfits: 0,
    };
    for _ in 0..500 {
        let spots = made_up(alloc, form, numbers)?;
        compare_arc(rt, &spots, &settings, numbers, &mut seen);
    }
    assert!(rt; seen.fits > 20);
    assert!(rt; seen.misfits > 20);
    Ok(())
}

/// Compares the tests on spots, if they are an arc.
fn compare_arc(
    rt: &impl Abort,
    spots: &[Spot],
    settings: &Settings,
    numbers: &mut Numbers,
    seen: &mut Seen,
) {
    if !is_arc(spots) {
        return;
    }
    let plain = triples_fit(spots, Axis::Ra, settings.acc_ra, settings.tol_ra)
        && triples_fit(spots, Axis::Dec, settings.acc_dec, settings.tol_dec);
    assert_eq!(rt; fits(spots, settings, &mut Tally::zero()), plain);
    let (a, rest) = spots.split_at(numbers.place(spots.len()));
    let (b, c) = rest.split_at(numbers.place(rest.len()));
    if let Some(grown) = grown_fits(a, b, c, settings) {
        assert_eq!(rt; grown, plain);
    }
    if plain {
        seen.fits = seen.fits.wrapping_add(1);
    } else {
        seen.misfits = seen.misfits.wrapping_add(1);
    }
}

/// Whether spots fit, tested on from what fits without those of the second slice.
fn grown_fits(a: &[Spot], b: &[Spot], c: &[Spot], settings: &Settings) -> Option<bool> {
    if a.len() + c.len() < 2 || !is_arc_joined(&[], a, c) {
        return None;
    }
    if !is_arc_joined(a, b, c) {
        return None;
    }
    let mut tally = Tally::zero();
    match fits_basis(&[], a, c, settings, &mut tally) {
        Some(basis) => Some(fits_grown(a, b, c, &basis, settings, &mut tally).is_some()),
        None => None,
    }
}

/// The spots of an arc, on one side of a curve or the other and the tolerance away from it.
fn made_up(alloc: Global, form: Form, numbers: &mut Numbers) -> Result<Vec<Spot>, Fail> {
    let mut spots = Vec::new(alloc);
    let mut time: i64 = 0;
    for _ in 0..numbers.below(form.most.wrapping_add(1)).max(3) {
        let ra = bent(form.acc, time).wrapping_add(numbers.side(form));
        let dec = bent(form.acc, time).wrapping_add(numbers.side(form));
        spots.push(spot_at(time, form.ra.wrapping_add(ra), dec))?;
        let steps = numbers.below(form.gap).min(100_000_000) as i64;
        time = time.wrapping_add(form.step.wrapping_mul(steps.wrapping_add(1)));
    }
    Ok(spots)
}

/// How far a body of this acceleration moves in a time.
fn bent(acc: i64, time: i64) -> i64 {
    let time = time as i128;
    let moved = time.wrapping_mul(time).wrapping_mul(acc as i128) / 2_000_000_000_000;
    moved.max(-1_000_000_000).min(1_000_000_000) as i64
}

/// A detection so long after the start, its right ascension taken round the circle.
fn spot_at(time: i64, ra: i64, dec: i64) -> Spot {
    Spot {
        num: 0,
        epoch: within(time.wrapping_add(59_000_000_000), 200_000_000_000),
        ra: within(ra.wrapping_add(360_000_000) % 360_000_000, 359_999_999),
        dec: within(dec.wrapping_add(5_000_000), 90_000_000),
    }
}

/// The number nearest to `number` from 0 to `most`.
fn within(number: i64, most: i64) -> i64
    requires { pos 0 ≤ℤ most }
    ensures { IsBetween (pos 0) most result }
{
    if number < 0 {
        0
    } else if number > most {
        most
    } else {
        number
    }
}

/// A made-up sequence of numbers.
#[derive(Drop)]
struct Numbers {
    state: u64,
}

impl Numbers {
    /// The next number, below `count` where that isn't 0.
    fn below(&mut self, count: u64) -> u64 {
        let next = self.state.wrapping_mul(6_364_136_223_846_793_005);
        self.state = next.wrapping_add(1_442_695_040_888_963_407);
        if count == 0 {
            0
        } else {
            (self.state >> 33) % count
        }
    }

    /// A place in a list of this length.
    fn place(&mut self, len: usize) -> usize
        ensures { result ≤ len }
    {
        (self.below(len as u64) as usize).min(len)
    }

    /// How far a detection lies from its curve.
    fn side(&mut self, form: Form) -> i64 {
        let far = if self.below(form.rare) == 1 { 1 } else { 0 };
        let off = form.off.wrapping_add(far);
        if self.below(2) == 0 {
            off
        } else {
            off.wrapping_neg()
        }
    }
}

/// A spot on one axis.
#[derive(Clone, Copy)]
struct Place {
    time: i128,
    position: i128,
}

/// A fraction with a denominator above 0.
#[derive(Clone, Copy)]
struct Fraction {
    num: i128,
    den: i128,
}

/// The leading coefficients from a least to a greatest one.
#[derive(Clone, Copy)]
struct Range {
    low: Fraction,
    high: Fraction,
}

/// Whether some leading coefficient within the limit suits all triples of the spots.
fn triples_fit(spots: &[Spot], axis: Axis, acc: i64, tol: i64) -> bool {
    let den = 2_000_000_000_000;
    let low = Fraction {
        num: (acc as i128).wrapping_neg(),
        den,
    };
    let high = Fraction {
        num: acc as i128,
        den,
    };
    let mut range = Range { low, high };
    for i in 0..spots.len() {
        range = with_first(range, spots, i, axis, tol);
    }
    !is_less(range.high, range.low)
}

/// What is left of a range by the triples whose first spot this is.
fn with_first(range: Range, spots: &[Spot], i: usize, axis: Axis, tol: i64) -> Range {
    let mut range = range;
    for j in i.wrapping_add(1)..spots.len() {
        range = with_two(range, spots, i, j, axis, tol);
    }
    range
}

/// What is left of a range by the triples whose first two spots these are.
fn with_two(range: Range, spots: &[Spot], i: usize, j: usize, axis: Axis, tol: i64) -> Range {
    let mut range = range;
    for k in j.wrapping_add(1)..spots.len() {
        if i < spots.len() && j < spots.len() {
            let base = &spots[i];
            let y = seen_from(axis, base, &spots[j]);
            range = narrowed(range, y, seen_from(axis, base, &spots[k]), tol as i128);
        }
    }
    range
}

/// A spot as seen from another one.
fn seen_from(axis: Axis, base: &Spot, spot: &Spot) -> Place {
    let time = spot.epoch.wrapping_sub(base.epoch) as i128;
    let position = offset(axis, base, spot) as i128;
    Place { time, position }
}

/// What is left of a range by three places, of which the first is that of time and position 0.
fn narrowed(range: Range, y: Place, z: Place, tol: i128) -> Range {
    let after = z.time.wrapping_sub(y.time);
    let rise = z.position.wrapping_sub(y.position).wrapping_mul(y.time);
    let bend = rise.wrapping_sub(y.position.wrapping_mul(after));
    let slack = tol.wrapping_mul(2).wrapping_mul(z.time);
    let den = y.time.wrapping_mul(after).wrapping_mul(z.time);
    let low = Fraction {
        num: bend.wrapping_sub(slack),
        den,
    };
    let high = Fraction {
        num: bend.wrapping_add(slack),
        den,
    };
    Range {
        low: if is_less(range.low, low) {
            low
        } else {
            range.low
        },
        high: if is_less(high, range.high) {
            high
        } else {
            range.high
        },
    }
}

/// Whether a fraction is less than another one.
fn is_less(one: Fraction, other: Fraction) -> bool {
    one.num.wrapping_mul(other.den) < other.num.wrapping_mul(one.den)
}
