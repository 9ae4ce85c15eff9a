//! Which two tracklets fit together with a third one.
ghost use Rattle.std.specs.Prelude.{ℕ, ◌≡◌, ◌<◌, ◌↔◌, ◌⊎◌, ◌++◌, ◌∷◌, [], cond, IsTrue, IfOk, OnOk};
ghost use Rattle.std.specs.List.{Contains};
ghost use Rattle.closed_sets.specs.Around.{AreFittingPairs, FitTogether};
ghost use Rattle.closed_sets.specs.Counting.{AreDifferent, IsPaid, Rises};
ghost use Rattle.set_grow.specs.Nights.{AreInPlace};
ghost use Rattle.set_grow.specs.declared.partners.Partner.{Partner};
ghost use Rattle.set_grow.specs.Partners.{ArePartners, FitApart, IsPairWith, IsPartner, IsPartnerOf, IsRisingPair, IsTestedAmong, IsTestedOf, IsTestedWith, ordered as ordered_of, partner_numbers};
ghost use Rattle.set_grow.specs.SkyData.{FitsWithParts};

use crate::ends::may_go;
use crate::family::Sky;
use crate::seats::Seat;
use crate::testing::are_fitting_arc;
use bound_prune::TrackletEnds;
use sky_units::{NoMemory, Tally};
use std::alloc::Global;

/// A tracklet with its seat and its ends: an item, or one that may fit together with it.
#[derive(Clone, Copy)]
pub struct Partner {
    /// Its number.
    pub number: u32,
    /// Where it stands.
    pub seat: Seat,
    /// The ends of its box.
    pub ends: TrackletEnds,
}

/// The fitting pairs around an item: two numbers each, the lesser first, that fit together with it. It makes at most
/// one test for each two partners that may be of one object.
pub fn fitting_pairs(
    alloc: Global,
    sky: &Sky<'_>,
    item: &Partner,
    partners: &[Partner],
    tally: &mut Tally,
) -> Result<Vec<(u32, u32)>, NoMemory>
    requires place { AreInPlace sky.now.nights sky.now.table }
    requires item { IsPartner sky.now item.now }
    requires partners { ArePartners sky.now item.now partners.now }
    ensures pairs { IfOk result (λ pairs.
        AreFittingPairs (FitsWithParts sky.now) item.now.number pairs.items) }
    ensures paid { IsPaid (IsTestedAmong sky.now partners.now) 1 0 tally.old.tests tally.new.tests }
{
    let mut pairs = Vec::new(alloc);
    let mut rest = partners;
    while let Some((one, others)) = rest.split_first() {
        push_pairs(sky, item, one, others, &mut pairs, tally)?;
        rest = others;
    }
    Ok(pairs)
}

/// Adds the pairs of one partner and another one.
fn push_pairs(
    sky: &Sky<'_>,
    item: &Partner,
    one: &Partner,
    others: &[Partner],
    pairs: &mut Vec<(u32, u32)>,
    tally: &mut Tally,
) -> Result<(), NoMemory>
    requires item { IsPartner sky.now item.now }
    requires one { IsPartnerOf sky.now item.now one.now }
    requires others { (other : Partner) → Contains others.now other →
        (IsPartnerOf sky.now item.now other ×
        IsRisingPair item.now.number (ordered_of one.now.number other.number)) }
    requires different { AreDifferent (partner_numbers others.now) }
    ensures pairs { OnOk result ((pair : ℕ × ℕ) → Contains pairs.new.items pair ↔
        (Contains pairs.old.items pair ⊎
        IsPairWith sky.now item.now.number one.now others.now pair)) }
    ensures paid { IsPaid (IsTestedWith sky.now one.now others.now) 1 0
        tally.old.tests tally.new.tests }
{
    for other in others {
        let fits = fit_apart(sky, item, one, other, tally);
        push_where(pairs, ordered(one.number, other.number), fits)?;
    }
    Ok(())
}

/// Adds a pair where it is wanted.
fn push_where(pairs: &mut Vec<(u32, u32)>, pair: (u32, u32), wanted: bool) -> Result<(), NoMemory>
    ensures { OnOk result (pairs.new.items ≡
        cond wanted (pairs.old.items ++ pair ∷ []) pairs.old.items) }
{
    if wanted {
        pairs.push(pair)?;
    }
    Ok(())
}

/// Two numbers, the lesser first.
fn ordered(a: u32, b: u32) -> (u32, u32)
    ensures { result ≡ ordered_of a b }
{
    if a < b { (a, b) } else { (b, a) }
}

/// Whether two partners are of different nights, and fit together with an item. It makes one test at most, and none
/// where they may not be of one object.
fn fit_apart(
    sky: &Sky<'_>,
    item: &Partner,
    one: &Partner,
    other: &Partner,
    tally: &mut Tally,
) -> bool
    requires item { IsPartner sky.now item.now }
    requires one { IsPartnerOf sky.now item.now one.now }
    requires other { IsPartnerOf sky.now item.now other.now }
    requires rising { IsRisingPair item.now.number (ordered_of one.now.number other.now.number) }
    ensures fits { IsTrue result ↔ FitApart sky.now item.now.number one.now other.now }
    ensures paid { IsPaid (IsTestedOf sky.now one.now other.now) 1 0
        tally.old.tests tally.new.tests }
{
    if !may_go(
        one.seat.night,
        &one.ends,
        other.seat.night,
        &other.ends,
        sky.settings,
    ) {
        return false;
    }
    if one.seat.night < other.seat.night {
        return fit_around(sky, item, one, other, tally);
    }
    fit_around(sky, item, other, one, tally)
}

/// Whether two partners, the second one of a later night, fit together with an item.
fn fit_around(
    sky: &Sky<'_>,
    item: &Partner,
    first: &Partner,
    second: &Partner,
    tally: &mut Tally,
) -> bool
    requires item { IsPartner sky.now item.now }
    requires first { IsPartnerOf sky.now item.now first.now }
    requires second { IsPartnerOf sky.now item.now second.now }
    requires later { first.now.seat.night < second.now.seat.night }
    ensures fits { IsTrue result ↔ FitTogether (FitsWithParts sky.now)
        (item.now.number ∷ first.now.number ∷ second.now.number ∷ []) }
    ensures tests { Rises 1 tally.old.tests tally.new.tests }
{
    if item.seat.night < first.seat.night {
        return three_fit(sky, item, first, second, tally);
    }
    if item.seat.night < second.seat.night {
        return three_fit(sky, first, item, second, tally);
    }
    three_fit(sky, first, second, item, tally)
}

/// Whether three tracklets, each of a later night than the one before, fit together.
fn three_fit(sky: &Sky<'_>, a: &Partner, b: &Partner, c: &Partner, tally: &mut Tally) -> bool
    requires a { IsPartner sky.now a.now }
    requires b { IsPartner sky.now b.now }
    requires c { IsPartner sky.now c.now }
    requires second { a.now.seat.night < b.now.seat.night }
    requires third { b.now.seat.night < c.now.seat.night }
    ensures fits { IsTrue result ↔ FitTogether (FitsWithParts sky.now)
        (a.now.number ∷ b.now.number ∷ c.now.number ∷ []) }
    ensures tests { Rises 1 tally.old.tests tally.new.tests }
{
    let first = sky.spots_at(a.seat);
    let second = sky.spots_at(b.seat);
    let third = sky.spots_at(c.seat);
    are_fitting_arc(first, second, third, sky.settings, tally)
}
