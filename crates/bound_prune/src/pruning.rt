//! What joins of trees of tracklets want.

ghost use Rattle.std.specs.Prelude.{◌≡◌, ◌↔◌, IsTrue};
ghost use Rattle.box_tree.specs.Counts.{Rises};
ghost use Rattle.bound_prune.specs.Bounds.{May, MayThree};
ghost use Rattle.bound_prune.specs.Pruning.{CountsWhere, may as may_of, may_three, wanted as wanted_of, wanted_three, two_lose_nothing, three_lose_nothing};
ghost use Rattle.bound_prune.specs.Wanted.{AreArc, AreArcOfThree, AreWanted, AreWantedThree};

use crate::boxes::TrackletBox;
use crate::fitting::{fit_together, three_fit_together};
use crate::following::{may_follow, may_follow_both};
use box_tree::{Bounds, Prune2, Prune3};
use sky_units::{Settings, Tally};
use std::marker::Model;

/// Wants two tracklets, the later one from the second tree, that fit together under its settings.
#[derive(Drop)]
pub struct PairPrune {
    settings: Settings,
}

impl Model for PairPrune {
    ghost use Rattle.sky_units.specs.SettingsData.{SettingsData};

    ghost Value = { SettingsData };

    ghost view = { λ prune. prune.settings };
}

impl PairPrune {
    /// Wants what fits under these settings.
    pub fn new(settings: Settings) -> PairPrune
        ensures { result ≡ settings }
    {
        PairPrune { settings }
    }
}

impl Prune2<TrackletBox, TrackletBox> for PairPrune {
    ghost allows = { λ settings a b. may_of settings a b };

    ghost wanted = { λ settings a b. wanted_of settings a b };

    /// Whether two tracklets of one object may lie in these boxes (the definition `May`).
    fn may(&self, a: &Bounds, b: &Bounds) -> bool
        ensures value { result ≡ may_of self.now a.now b.now }
        ensures yes { IsTrue result ↔ May self.now a.now b.now }
    {
        may_follow(&self.settings, a, b)
    }

    /// Whether both boxes were made with the tolerances of the settings, and the tracklets, one after the other, are an arc
    /// that fits. It makes one test where they are an arc and have these tolerances.
    fn wants(&self, a: &TrackletBox, b: &TrackletBox, tally: &mut Tally) -> bool
        ensures value { result ≡ wanted_of self.now a.now b.now }
        ensures yes { IsTrue result ↔ AreWanted self.now a.now b.now }
        ensures tests { Rises 1 tally.old.tests tally.new.tests }
        ensures counted { CountsWhere (AreArc self.now a.now b.now) tally.old.tests tally.new.tests }
    {
        fit_together(&self.settings, a, b, tally)
    }

    ghost loses_nothing = { λ settings a b box_a box_b w in_a in_b.
        two_lose_nothing settings a b box_a box_b w in_a in_b };
}

/// Wants three tracklets, each later than the one before, that fit together under its settings.
#[derive(Drop)]
pub struct TriplePrune {
    settings: Settings,
}

impl Model for TriplePrune {
    ghost use Rattle.sky_units.specs.SettingsData.{SettingsData};

    ghost Value = { SettingsData };

    ghost view = { λ prune. prune.settings };
}

impl TriplePrune {
    /// Wants what fits under these settings.
    pub fn new(settings: Settings) -> TriplePrune
        ensures { result ≡ settings }
    {
        TriplePrune { settings }
    }
}

impl Prune3<TrackletBox, TrackletBox, TrackletBox> for TriplePrune {
    ghost allows = { λ settings a b c. may_three settings a b c };

    ghost wanted = { λ settings a b c. wanted_three settings a b c };

    /// Whether three tracklets of one object may lie in these boxes: each two may.
    fn may(&self, a: &Bounds, b: &Bounds, c: &Bounds) -> bool
        ensures value { result ≡ may_three self.now a.now b.now c.now }
        ensures yes { IsTrue result ↔ MayThree self.now a.now b.now c.now }
    {
        may_follow_both(&self.settings, a, b, c)
    }

    /// Whether all boxes were made with the tolerances of the settings, and the tracklets, one after the other, are an arc
    /// that fits. It makes one test where they are an arc and have these tolerances.
    fn wants(&self, a: &TrackletBox, b: &TrackletBox, c: &TrackletBox, tally: &mut Tally) -> bool
        ensures value { result ≡ wanted_three self.now a.now b.now c.now }
        ensures yes { IsTrue result ↔ AreWantedThree self.now a.now b.now c.now }
        ensures tests { Rises 1 tally.old.tests tally.new.tests }
        ensures counted { CountsWhere (AreArcOfThree self.now a.now b.now c.now) tally.old.tests
            tally.new.tests }
    {
        three_fit_together(&self.settings, a, b, c, tally)
    }

    ghost loses_nothing = { λ settings a b c box_a box_b box_c w in_a in_b in_c.
        three_lose_nothing settings a b c box_a box_b box_c w in_a in_b in_c };
}
