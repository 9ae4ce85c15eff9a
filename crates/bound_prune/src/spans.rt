//! Where in declination the tracklets of a night lie that may be of one object with another tracklet.

ghost use Rattle.std.specs.Prelude.{◌≡◌, ◌↔◌, ◌⊎◌, pos, neg_ℤ, negsuc, IsTrue};
ghost use Rattle.std.specs.List.{Contains};
ghost use Rattle.sky_units.specs.Ranges.{IsBetween, IsDeclination};
ghost use Rattle.bound_prune.specs.Bounds.{May, kept_within};
ghost use Rattle.bound_prune.specs.EndsData.{AreUsual, EndsData, bounds_of};
ghost use Rattle.bound_prune.specs.SpanData.{LiesIn};
ghost use Rattle.bound_prune.specs.Spans.{AreTimesAcross, HasReached, HoldNear, IsInRange, IsWidest};
ghost use Rattle.bound_prune.specs.Times.{AreInOrder};

use crate::ends::{TrackletEnds, lasting};
use crate::rates::Rates;
use crate::times::{Times, kept};
use crate::travel::{Travel, farthest_ways};
use crate::ways::{WAY_SCALE, gained};
use sky_units::{ARC_TICKS, Axis, Settings};
use std::marker::Model;

/// No mean rate of a tracklet is greater, in 10^-6 degree per day.
const GREATEST_RATE: i64 = 1_000_000_000_000_000;

/// No way counts for more, in 1 / 2,000,000 of 10^-6 degree: it is more than half a turn.
const GREATEST_WAY: i128 = 1_000_000_000_000_000_000;

/// What holds of the ends of all tracklets of a night.
#[derive(Clone, Copy)]
pub struct NightSpan {
    /// When the first of them begins, in ticks.
    pub first_epoch: i64,
    /// When the last of them ends.
    pub last_epoch: i64,
    /// How long the longest of them lasts, in ticks.
    pub lasting: i64,
    /// How far apart the rates of declination lie that the tolerances of one of them leave, in 10^-6 degree per day.
    pub rates_apart: i64,
}

impl Model for NightSpan {
    ghost use Rattle.bound_prune.specs.SpanData.{IsSpan, SpanData};

    ghost Value = { SpanData };

    ghost view = { λ s. record {
      first_epoch = s.first_epoch;
      last_epoch = s.last_epoch;
      lasting = s.lasting;
      rates_apart = s.rates_apart;
    } };

    ghost invariant = { λ s. IsSpan (record {
      first_epoch = s.first_epoch;
      last_epoch = s.last_epoch;
      lasting = s.lasting;
      rates_apart = s.rates_apart;
    }) };

    ghost inverse = { λ s. record {
      first_epoch = s.first_epoch;
      last_epoch = s.last_epoch;
      lasting = s.lasting;
      rates_apart = s.rates_apart;
    } };
}

/// Declinations, in 1 / 2,000,000 of 10^-6 degree.
#[derive(Clone, Copy)]
pub struct DecRange {
    /// The least.
    pub least: i64,
    /// The greatest.
    pub greatest: i64,
}

impl DecRange {
    /// Whether a tracklet begins in the range.
    pub fn has(&self, ends: &TrackletEnds) -> bool
        ensures { IsTrue result ↔ IsInRange self.now ends.now.dec }
    {
        let place = WAY_SCALE * ends.dec;
        if place < self.least {
            return false;
        }
        place <= self.greatest
    }
}

impl NightSpan {
    /// The span of some tracklets.
    pub fn of(ends: &[TrackletEnds]) -> NightSpan
        ensures { (one : EndsData) → Contains ends.now one → LiesIn result one }
    {
        if ends.is_empty() {
            return NightSpan {
                first_epoch: 0,
                last_epoch: 0,
                lasting: 0,
                rates_apart: 0,
            };
        }
        let mut span = NightSpan::of_one(&ends[0]);
        for one in ends {
            let own = NightSpan::of_one(one);
            span = span.with(&own);
        }
        span
    }

    /// The span of one tracklet.
    fn of_one(ends: &TrackletEnds) -> NightSpan
        ensures { LiesIn result ends.now }
    {
        let rates = ends.dec_rates;
        NightSpan {
            first_epoch: ends.first_epoch.min(ends.last_epoch),
            last_epoch: ends.first_epoch.max(ends.last_epoch),
            lasting: lasting(ends),
            rates_apart: (rates.greatest - rates.least).max(0),
        }
    }

    /// This span and another one.
    fn with(&self, other: &NightSpan) -> NightSpan
        ensures { (one : EndsData) → LiesIn self.now one ⊎ LiesIn other.now one → LiesIn result one }
    {
        NightSpan {
            first_epoch: self.first_epoch.min(other.first_epoch),
            last_epoch: self.last_epoch.max(other.last_epoch),
            lasting: self.lasting.max(other.lasting),
            rates_apart: self.rates_apart.max(other.rates_apart),
        }
    }

    /// Where those tracklets of a later night begin that may be of one object with an item.
    pub fn range_after(&self, item: &TrackletEnds, settings: &Settings) -> DecRange
        ensures { (other : EndsData) → LiesIn self.now other →
            May settings.now (bounds_of item.now) (bounds_of other) → IsInRange result other.dec }
    {
        let own = NightSpan::of_one(item);
        let times = times_across(&own, self);
        let ways = widest_ways(item.dec_rates, self.rates_apart, settings, &times);
        range_around(item.dec, settings.tol_dec, ways.ahead, ways.back)
    }

    /// The same of an earlier night.
    pub fn range_before(&self, item: &TrackletEnds, settings: &Settings) -> DecRange
        ensures { (other : EndsData) → LiesIn self.now other →
            May settings.now (bounds_of other) (bounds_of item.now) → IsInRange result other.dec }
    {
        let own = NightSpan::of_one(item);
        let times = times_across(self, &own);
        let ways = widest_ways(item.dec_rates, self.rates_apart, settings, &times);
        range_around(item.dec, settings.tol_dec, ways.back, ways.ahead)
    }
}

/// The times from what lies in one span to what lies in a later one.
fn times_across(from: &NightSpan, to: &NightSpan) -> Times
    ensures { AreTimesAcross from.now to.now result }
{
    Times {
        shortest: kept(to.first_epoch - from.last_epoch, ARC_TICKS - 1),
        longest: kept(to.last_epoch - from.first_epoch, ARC_TICKS - 1),
        lasting: from.lasting + to.lasting,
    }
}

/// The farthest ways in declination, by rates and by those that an acceleration may have made of them.
fn widest_ways(rates: Rates, apart: i64, settings: &Settings, times: &Times) -> Travel
    requires rates { AreUsual rates }
    requires apart { IsBetween (pos 0) (pos 2000000000000000) apart }
    requires order { AreInOrder times.now }
    requires lasts { IsBetween (pos 0) (pos 59999998) times.now.lasting }
    ensures { IsWidest settings.now rates apart times.now result }
{
    let twice = Times {
        shortest: 0,
        longest: 0,
        lasting: times.longest + times.longest,
    };
    let turned = gained(Axis::Dec, settings, &twice);
    let wide = widened(rates, apart, turned);
    farthest_ways(Axis::Dec, rates, wide, settings, times)
}

/// Rates that hold those of every tracklet that an acceleration may have turned by so much, and whose rates lie no farther
/// apart.
fn widened(rates: Rates, apart: i64, turned: i64) -> Rates
    requires rates { AreUsual rates }
    requires apart { IsBetween (pos 0) (pos 2000000000000000) apart }
    requires turned { IsBetween (pos 1) (pos 30000000) turned }
    ensures usual { AreUsual result }
    ensures holds { HoldNear rates apart turned result }
{
    let more = apart + turned;
    Rates {
        least: (rates.least - more).max(-GREATEST_RATE),
        greatest: (rates.greatest + more).min(GREATEST_RATE),
    }
}

/// The declinations that ways lead to from within the tolerance of one.
fn range_around(dec: i64, tol: i64, ahead: i128, back: i128) -> DecRange
    requires dec { IsDeclination dec }
    requires tol { IsBetween (pos 0) (pos 100000) tol }
    ensures { HasReached tol dec ahead back result }
{
    DecRange {
        least: WAY_SCALE * (dec - (tol + tol)) - limited(back),
        greatest: WAY_SCALE * (dec + (tol + tol)) + limited(ahead),
    }
}

/// A way, or the end of the range of ways that it lies beyond.
fn limited(way: i128) -> i64
    ensures value { result ≡ kept_within (neg_ℤ (pos 1000000000000000000)) (pos 1000000000000000000) way }
    ensures range { IsBetween (neg_ℤ (pos 1000000000000000000)) (pos 1000000000000000000) result }
{
    way.clamp(-GREATEST_WAY, GREATEST_WAY) as i64
}
