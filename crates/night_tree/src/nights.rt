//! A night: its number and its tracklets.
ghost use Rattle.std.specs.Prelude.{◌≡◌, ◌<◌, ◌^◌, IfOk};
ghost use Rattle.std.specs.Vec.{vec_len};
ghost use Rattle.sky_units.specs.Pairs.{EpochsDontFall};
ghost use Rattle.line_fit.specs.Slopes.{AreOfOneDay};
ghost use Rattle.night_tree.specs.Nights.{tracklets_of};

use crate::stages::tracklets_of;
use sky_units::{NoMemory, Settings, Spot, Tracklet};
use std::alloc::Global;
use std::marker::Model;

/// A night with the tracklets of its spots.
#[derive(Debug, Drop)]
pub struct Night {
    number: i64,
    tracklets: Vec<Tracklet>,
}

impl Model for Night {
    ghost use Rattle.night_tree.specs.Nights.{NightData};

    ghost Value = { NightData };

    ghost view = { λ n. record { number = n.number; tracklets = n.tracklets.items } };
}

impl Night {
    /// The night of this number, with the tracklets that its spots make (the definition
    /// `tracklets_of`).
    ///
    /// `spots` are fewer than 2^32, of epochs that don't fall, and all of one day.
    pub fn build(
        alloc: Global,
        number: i64,
        spots: Vec<Spot>,
        settings: &Settings,
    ) -> Result<Night, NoMemory>
        requires few { vec_len spots < 2 ^ 32 }
        requires order { EpochsDontFall spots.items }
        requires day { AreOfOneDay spots.items }
        ensures { IfOk result (λ night. night ≡
            record { number = number; tracklets = tracklets_of settings.now spots.items }) }
    {
        let tracklets = tracklets_of(alloc, spots.as_slice(), settings)?;
        Ok(Night { number, tracklets })
    }

    /// The night's number: the whole days of its epochs and the night shift.
    pub fn number(&self) -> i64
        ensures { result ≡ self.now.number }
    {
        self.number
    }

    /// The tracklets, in the lexicographic order of the places of their spots.
    pub fn tracklets(&self) -> &[Tracklet]
        ensures { result.now ≡ self.now.tracklets }
    {
        self.tracklets.as_slice()
    }
}
