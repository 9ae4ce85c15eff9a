//! The ends of a tracklet's box, and whether two tracklets may be of one object by them.

ghost use Rattle.std.specs.Prelude.{◌≡◌, ◌↔◌, pos, IsTrue};
ghost use Rattle.sky_units.specs.Ranges.{IsBetween};
ghost use Rattle.sky_units.specs.TrackletData.{IsTracklet};
ghost use Rattle.sky_units.specs.declared.axis.Axis.TheVariants.{Ra as ra, Dec as dec};
ghost use Rattle.bound_prune.specs.BoxEnds.{AreEnds, boxed, ends_of};
ghost use Rattle.bound_prune.specs.Bounds.{IsOpen, IsOpenRound, May, RatesAgree, greatest_distance, lasting as lasting_of, least_distance, longest as longest_of, way_ahead, way_back};
ghost use Rattle.bound_prune.specs.EndsData.{bounds_of};
ghost use Rattle.bound_prune.specs.Times.{AreTimes};

use crate::rates::{Rates, differ_little, rates_of};
use crate::times::{Times, kept};
use crate::travel::{farthest_ways, is_either_reached, is_reached};
use crate::ways::FULL_TURN;
use sky_units::{ARC_TICKS, Axis, Settings, Spot};
use std::marker::Model;

/// Where a tracklet begins and ends in place, time and rates: the ends of its box (the definitions `box_low`, `box_high`).
#[derive(Clone, Copy)]
pub struct TrackletEnds {
    /// The right ascension of the first spot, in 10^-6 degree.
    pub ra: i64,
    /// Its declination.
    pub dec: i64,
    /// The epoch of the first spot, in ticks.
    pub first_epoch: i64,
    /// The epoch of the last spot.
    pub last_epoch: i64,
    /// The rates of right ascension that the tolerances leave.
    pub ra_rates: Rates,
    /// The rates of declination.
    pub dec_rates: Rates,
}

impl Model for TrackletEnds {
    ghost use Rattle.bound_prune.specs.EndsData.{AreInRange, EndsData};

    ghost Value = { EndsData };

    ghost view = { λ e. record {
      ra = e.ra;
      dec = e.dec;
      first_epoch = e.first_epoch;
      last_epoch = e.last_epoch;
      ra_rates = e.ra_rates;
      dec_rates = e.dec_rates;
    } };

    ghost invariant = { λ e. AreInRange (record {
      ra = e.ra;
      dec = e.dec;
      first_epoch = e.first_epoch;
      last_epoch = e.last_epoch;
      ra_rates = e.ra_rates;
      dec_rates = e.dec_rates;
    }) };

    ghost inverse = { λ e. record {
      ra = e.ra;
      dec = e.dec;
      first_epoch = e.first_epoch;
      last_epoch = e.last_epoch;
      ra_rates = e.ra_rates;
      dec_rates = e.dec_rates;
    } };
}

impl TrackletEnds {
    /// The ends of a tracklet of these spots, by the tolerances of the settings.
    pub fn of(spots: &[Spot], settings: &Settings) -> TrackletEnds
        requires { IsTracklet spots.now }
        ensures are { AreEnds (boxed spots.now settings.now.tol_ra settings.now.tol_dec) result }
        ensures value { result ≡ ends_of (boxed spots.now settings.now.tol_ra settings.now.tol_dec) }
    {
        let first = &spots[0];
        let last = &spots[spots.len() - 1];
        TrackletEnds {
            ra: first.ra,
            dec: first.dec,
            first_epoch: first.epoch,
            last_epoch: last.epoch,
            ra_rates: rates_of(Axis::Ra, settings.tol_ra, first, last),
            dec_rates: rates_of(Axis::Dec, settings.tol_dec, first, last),
        }
    }

    /// Whether this tracklet and a later one may be of one object (the definition `May` of their boxes). Two tracklets
    /// that fit together always may. Most others are told apart by their declinations.
    pub fn may_precede(&self, later: &TrackletEnds, settings: &Settings) -> bool
        ensures { IsTrue result ↔
            May settings.now (bounds_of self.now) (bounds_of later.now) }
    {
        if later.last_epoch <= self.first_epoch {
            return false;
        }
        let times = times_between(self, later);
        if !is_open(self, later, settings, &times) {
            return false;
        }
        if !is_open_round(self, later, settings, &times) {
            return false;
        }
        rates_agree(self, later, settings, times.longest)
    }
}

/// The times from one tracklet to a later one.
fn times_between(a: &TrackletEnds, b: &TrackletEnds) -> Times
    ensures { AreTimes (bounds_of a.now) (bounds_of b.now) result }
{
    let longest = kept(b.last_epoch - a.first_epoch, ARC_TICKS - 1);
    Times {
        shortest: kept(b.first_epoch - a.last_epoch, longest),
        longest,
        lasting: lasting(a) + lasting(b),
    }
}

/// How long a tracklet lasts, in ticks, or the most that an arc lasts.
pub fn lasting(a: &TrackletEnds) -> i64
    ensures value { result ≡ lasting_of (bounds_of a.now) }
    ensures range { IsBetween (pos 0) (pos 29999999) result }
{
    kept(a.last_epoch - a.first_epoch, ARC_TICKS - 1)
}

/// Whether a way in declination leads from one tracklet to a later one.
fn is_open(a: &TrackletEnds, b: &TrackletEnds, settings: &Settings, times: &Times) -> bool
    requires { AreTimes (bounds_of a.now) (bounds_of b.now) times.now }
    ensures { IsTrue result ↔ IsOpen settings.now.tol_dec
        (least_distance dec (bounds_of a.now) (bounds_of b.now))
        (greatest_distance dec (bounds_of a.now) (bounds_of b.now))
        (way_ahead dec settings.now (bounds_of a.now) (bounds_of b.now))
        (way_back dec settings.now (bounds_of a.now) (bounds_of b.now)) }
{
    let distance = b.dec - a.dec;
    let ways = farthest_ways(Axis::Dec, a.dec_rates, b.dec_rates, settings, times);
    if !is_reached(settings.tol_dec, distance, ways.ahead) {
        return false;
    }
    is_reached(settings.tol_dec, -distance, ways.back)
}

/// Whether a way in right ascension leads from one tracklet to a later one, round the circle.
fn is_open_round(a: &TrackletEnds, b: &TrackletEnds, settings: &Settings, times: &Times) -> bool
    requires { AreTimes (bounds_of a.now) (bounds_of b.now) times.now }
    ensures { IsTrue result ↔ IsOpenRound settings.now.tol_ra
        (least_distance ra (bounds_of a.now) (bounds_of b.now))
        (greatest_distance ra (bounds_of a.now) (bounds_of b.now))
        (way_ahead ra settings.now (bounds_of a.now) (bounds_of b.now))
        (way_back ra settings.now (bounds_of a.now) (bounds_of b.now)) }
{
    let distance = b.ra - a.ra;
    let ways = farthest_ways(Axis::Ra, a.ra_rates, b.ra_rates, settings, times);
    if !is_either_reached(settings.tol_ra, distance, FULL_TURN - distance, &ways) {
        return false;
    }
    is_either_reached(settings.tol_ra, FULL_TURN + distance, -distance, &ways)
}

/// Whether the rates of two tracklets differ by no more than the acceleration allows over the longest time.
fn rates_agree(a: &TrackletEnds, b: &TrackletEnds, settings: &Settings, longest: i64) -> bool
    requires value { longest ≡ longest_of (bounds_of a.now) (bounds_of b.now) }
    requires range { IsBetween (pos 0) (pos 29999999) longest }
    ensures { IsTrue result ↔ (RatesAgree dec settings.now (bounds_of a.now) (bounds_of b.now) ×
        RatesAgree ra settings.now (bounds_of a.now) (bounds_of b.now)) }
{
    if !differ_little(Axis::Dec, settings, a.dec_rates, b.dec_rates, longest) {
        return false;
    }
    differ_little(Axis::Ra, settings, a.ra_rates, b.ra_rates, longest)
}
