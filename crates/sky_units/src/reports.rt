//! Tracks and reports as they are told.
ghost use Rattle.std.specs.Prelude.{◌≡◌, ◌++◌, ◌∷◌, [], OnOk, OnErr};

use crate::{NoMemory, Quad, Words};
use std::alloc::Global;
use std::marker::Model;

/// A track: how many nights have a tracklet of it, the ids of its detections in canonical order, and
/// the reported quadratic on each axis.
#[derive(Debug, Drop)]
pub struct Track {
    /// The number of nights.
    pub nights: u32,
    /// The ids of the detections.
    pub ids: Words,
    /// Its motion in right ascension.
    pub ra: Quad,
    /// Its motion in declination.
    pub dec: Quad,
}

/// A list of tracks.
#[derive(Debug, Drop)]
pub struct Tracks {
    items: Vec<Track>,
}

impl Model for Tracks {
    ghost use Rattle.std.specs.Prelude.{List};
    ghost use Rattle.sky_units.specs.declared.reports.Track.{Track};

    ghost Value = { List Track };

    ghost view = { λ t. t.items.items };
}

impl Tracks {
    /// No tracks. This takes no memory.
    pub fn new(alloc: Global) -> Tracks
        ensures { result ≡ [] }
    {
        Tracks {
            items: Vec::new(alloc),
        }
    }

    /// Adds a track at the end.
    pub fn push(&mut self, item: Track) -> Result<(), NoMemory>
        ensures ok { OnOk result (self.new ≡ self.old ++ item ∷ []) }
        ensures err { OnErr result (self.new ≡ self.old) }
    {
        self.items.push(item)?;
        Ok(())
    }

    /// The tracks, in order.
    pub fn items(&self) -> &[Track]
        ensures { result.now ≡ self.now }
    {
        self.items.as_slice()
    }
}

/// What is reported: the window's first and last night, or None where no window was set, and the
/// maximal tracks.
#[derive(Debug, Drop)]
pub struct Report {
    /// The window's first and last night.
    pub window: Option<(i64, i64)>,
    /// The maximal tracks.
    pub tracks: Tracks,
}
