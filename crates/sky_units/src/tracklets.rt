//! Tracklets, and sets of them.
ghost use Rattle.std.specs.Prelude.{◌≡◌, ◌++◌, ◌↔◌, IsTrue, SomeIff};
ghost use Rattle.sky_units.specs.Arcs.{HaveRisingEpochs};
ghost use Rattle.sky_units.specs.TrackletData.{IsTracklet, IsTrackSet};

use crate::Spot;
use crate::arcs::rise;
use std::marker::Model;

/// A tracklet: two or more spots of strictly rising epochs.
#[derive(Debug, Drop)]
pub struct Tracklet {
    spots: Vec<Spot>,
}

impl Model for Tracklet {
    ghost use Rattle.std.specs.Prelude.{List};
    ghost use Rattle.sky_units.specs.SpotData.{SpotData};
    ghost use Rattle.sky_units.specs.TrackletData.{IsTracklet};

    ghost Value = { List SpotData };

    ghost view = { λ t. t.spots.items };

    ghost invariant = { λ t. IsTracklet t.spots.items };
}

impl Tracklet {
    /// The tracklet of these spots. None where they are fewer than two or their epochs don't rise strictly.
    pub fn from_spots(spots: Vec<Spot>) -> Option<Tracklet>
        ensures { SomeIff result (IsTracklet spots.items) spots.items }
    {
        if spots.len() < 2 || !rise(spots.as_slice(), &[], &[]) {
            return None;
        }
        Some(Tracklet { spots })
    }

    /// The tracklet of these spots, which are two or more, of strictly rising epochs.
    pub fn of_rising(spots: Vec<Spot>) -> Tracklet
        requires { IsTracklet spots.items }
        ensures { result ≡ spots.items }
    {
        Tracklet { spots }
    }

    /// The spots, in order of epoch.
    pub fn spots(&self) -> &[Spot]
        ensures value { result.now ≡ self.now }
        ensures tracklet { IsTracklet self.now }
    {
        self.spots.as_slice()
    }
}

/// A set of tracklets: their spots, one tracklet after the other, have strictly rising epochs.
#[derive(Debug, Drop)]
pub struct TrackSet {
    tracklets: Vec<Tracklet>,
}

impl Model for TrackSet {
    ghost use Rattle.std.specs.Prelude.{List};
    ghost use Rattle.sky_units.specs.SpotData.{SpotData};
    ghost use Rattle.sky_units.specs.TrackletData.{IsTrackSet};

    ghost Value = { List (List SpotData) };

    ghost view = { λ s. s.tracklets.items };

    ghost invariant = { λ s. IsTrackSet s.tracklets.items };
}

impl TrackSet {
    /// The set of these tracklets. None where the epochs of their spots, one tracklet after the
    /// other, don't rise strictly.
    pub fn from_tracklets(list: Vec<Tracklet>) -> Option<TrackSet>
        ensures { SomeIff result (IsTrackSet list.items) list.items }
    {
        if !follow(list.as_slice()) {
            return None;
        }
        Some(TrackSet { tracklets: list })
    }

    /// The set of these tracklets. The epochs of their spots, one tracklet after the other, rise
    /// strictly.
    pub fn of_rising(list: Vec<Tracklet>) -> TrackSet
        requires { IsTrackSet list.items }
        ensures { result ≡ list.items }
    {
        TrackSet { tracklets: list }
    }

    /// The tracklets, in order of epoch.
    pub fn tracklets(&self) -> &[Tracklet]
        ensures value { result.now ≡ self.now }
        ensures set { IsTrackSet self.now }
    {
        self.tracklets.as_slice()
    }
}

/// Whether each tracklet begins after the one before it ended.
fn follow(tracklets: &[Tracklet]) -> bool
    ensures { IsTrue result ↔ IsTrackSet tracklets.now }
{
    for i in 0..tracklets.len() {
        let tracklet = &tracklets[i];
        let spots = tracklet.spots();
        if i > 0 {
            let before = &tracklets[i - 1];
            if !rise_across(before.spots(), spots) {
                return false;
            }
        }
    }
    true
}

/// Whether the second tracklet begins after the first ended.
fn rise_across(before: &[Spot], after: &[Spot]) -> bool
    requires before { IsTracklet before.now }
    requires after { IsTracklet after.now }
    ensures { IsTrue result ↔ HaveRisingEpochs (before.now ++ after.now) }
{
    let last = &before[before.len() - 1];
    let first = &after[0];
    last.epoch < first.epoch
}
