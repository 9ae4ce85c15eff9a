//! The spots of a night as a tree holds them, and which pairs of them are wanted.

ghost use Rattle.std.specs.Prelude.{◌≡◌};
ghost use Rattle.std.proofs.Common.{lit≤};
ghost use Rattle.sky_units.specs.Pairs.{are_pair as are_pair_of};
ghost use Rattle.pair_finder.specs.Pruning.{may_hold_pair as may_hold, place_on};
ghost use Rattle.pair_finder.specs.Pruned.{no_pair_is_lost};

use crate::nearness::{DEC, EPOCH, may_hold_pair};
use crate::rates::are_pair;
use box_tree::{Bounds, Located, Prune2};
use sky_units::{Settings, Spot, Tally};
use std::marker::Model;

/// A spot that stands in a tree by its time, its declination and its right ascension.
#[derive(Drop)]
pub struct Placed {
    /// The spot.
    pub spot: Spot,
}

impl Model for Placed {
    ghost use Rattle.sky_units.specs.SpotData.{SpotData};

    ghost Value = { SpotData };

    ghost view = { λ placed. placed.spot };
}

impl Located for Placed {
    ghost AXES = { 3 };

    ghost lows = { λ spot axis. place_on spot axis };

    ghost highs = { λ spot axis. place_on spot axis };

    const AXES: usize = 3;

    fn low(&self, axis: usize) -> i64 {
        end_on(&self.spot, axis)
    }

    fn high(&self, axis: usize) -> i64 {
        end_on(&self.spot, axis)
    }

    ghost few_axes = { (lit≤ tt, lit≤ tt) };
}

/// Where a spot stands on an axis.
fn end_on(spot: &Spot, axis: usize) -> i64
    ensures { result ≡ place_on spot.now axis }
{
    if axis == EPOCH {
        return spot.epoch;
    }
    if axis == DEC {
        return spot.dec;
    }
    spot.ra
}

/// Wants the pairs of a night, the earlier spot from the first tree. It counts nothing.
#[derive(Drop)]
pub struct Pairing {
    /// The settings of the linker, of which the pair gap and the rates count.
    pub settings: Settings,
}

impl Prune2<Placed, Placed> for Pairing {
    ghost allows = { λ pairing a b. may_hold pairing.settings a b };

    ghost wanted = { λ pairing a b. are_pair_of pairing.settings a b };

    fn may(&self, a: &Bounds, b: &Bounds) -> bool {
        may_hold_pair(&self.settings, a, b)
    }

    fn wants(&self, a: &Placed, b: &Placed, _tally: &mut Tally) -> bool {
        are_pair(&a.spot, &b.spot, &self.settings)
    }

    ghost loses_nothing = { λ pairing a b box_a box_b w in_a in_b.
        no_pair_is_lost pairing.settings a b box_a box_b w in_a in_b };
}
