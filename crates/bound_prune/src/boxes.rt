//! A tracklet with its box.

ghost use Rattle.std.specs.Prelude.{◌≡◌, ◌↔◌, IsTrue};
ghost use Rattle.std.proofs.Common.{lit≤};
ghost use Rattle.bound_prune.specs.Boxes.{box_low, box_high};
ghost use Rattle.bound_prune.specs.BoxEnds.{boxed};
ghost use Rattle.bound_prune.specs.Wanted.{HasTolerances};

use crate::ends::TrackletEnds;
use box_tree::Located;
use sky_units::{Settings, Tracklet};
use std::marker::Model;

/// A tracklet that stands in a tree by its place, its time and its rates. Its box has five axes: 0 the right ascension and 1 the
/// declination of its first spot (10^-6 degree), 2 its epochs (ticks), 3 and 4 the rates of right ascension and of declination that
/// its tolerances leave (10^-6 degree per day), rounded outward (the definitions `box_low`, `box_high`).
#[derive(Drop)]
pub struct TrackletBox {
    tracklet: Tracklet,
    tol_ra: i64,
    tol_dec: i64,
    ends: TrackletEnds,
}

impl Model for TrackletBox {
    ghost use Rattle.bound_prune.specs.Boxes.{BoxedTracklet};
    ghost use Rattle.bound_prune.specs.BoxEnds.{AreEnds, boxed};

    ghost Value = { BoxedTracklet };

    ghost view = { λ b. boxed b.tracklet b.tol_ra b.tol_dec };

    ghost invariant = { λ b. AreEnds (boxed b.tracklet b.tol_ra b.tol_dec) b.ends };
}

impl TrackletBox {
    /// The tracklet with its box, by the tolerances of the settings.
    pub fn make(tracklet: Tracklet, settings: &Settings) -> TrackletBox
        ensures { result ≡ boxed tracklet settings.now.tol_ra settings.now.tol_dec }
    {
        let ends = TrackletEnds::of(tracklet.spots(), settings);
        TrackletBox {
            tracklet,
            tol_ra: settings.tol_ra,
            tol_dec: settings.tol_dec,
            ends,
        }
    }

    /// The tracklet.
    pub fn tracklet(&self) -> &Tracklet
        ensures { result.now ≡ self.now.spots }
    {
        &self.tracklet
    }

    /// The tolerances that the box was made with, of right ascension and of declination, in 10^-6 degree.
    pub fn tolerances(&self) -> (i64, i64)
        ensures ra { result.0 ≡ self.now.tol_ra }
        ensures dec { result.1 ≡ self.now.tol_dec }
    {
        (self.tol_ra, self.tol_dec)
    }

    /// Whether the box was made with the tolerances of the settings.
    pub fn has_tolerances(&self, settings: &Settings) -> bool
        ensures { IsTrue result ↔ HasTolerances settings.now self.now }
    {
        self.tol_ra == settings.tol_ra && self.tol_dec == settings.tol_dec
    }
}

impl Located for TrackletBox {
    ghost AXES = { 5 };

    ghost lows = { λ b axis. box_low b axis };

    ghost highs = { λ b axis. box_high b axis };

    const AXES: usize = 5;

    fn low(&self, axis: usize) -> i64 {
        let ends = &self.ends;
        match axis {
            0 => ends.ra,
            1 => ends.dec,
            2 => ends.first_epoch,
            3 => ends.ra_rates.least,
            _ => ends.dec_rates.least,
        }
    }

    fn high(&self, axis: usize) -> i64 {
        let ends = &self.ends;
        match axis {
            0 => ends.ra,
            1 => ends.dec,
            2 => ends.last_epoch,
            3 => ends.ra_rates.greatest,
            _ => ends.dec_rates.greatest,
        }
    }

    ghost few_axes = { (lit≤ tt, lit≤ tt) };
}
