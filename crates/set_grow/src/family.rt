//! The fitting sets of some nights as a family, for the search of closed sets.
ghost use Rattle.std.specs.Prelude.{◌≡◌, ◌<◌, length, get_or, pos, [], IfOk};
ghost use Rattle.std.specs.List.{Contains};
ghost use Rattle.bound_prune.specs.EndsData.{EndsData};
ghost use Rattle.bound_prune.specs.Spans.{IsInRange};
ghost use Rattle.set_grow.specs.Ends.{MayGo, ends_in};
ghost use Rattle.set_grow.specs.Nights.{AreInPlace, NumberedNightData};
ghost use Rattle.set_grow.specs.Numbered.{without_numbers};
ghost use Rattle.set_grow.specs.Seats.{IsSeat, one_at};
ghost use Rattle.set_grow.specs.SkyData.{FitsWithParts, with_parts};

use crate::ends::{NightEnds, ends_by_night};
use crate::seats::{Seat, joined, seats_of};
use crate::testing::is_fitting_arc;
use crate::{NumberedNight, Place};
use bound_prune::{DecRange, TrackletEnds};
use closed_sets::Family;
use sky_units::{NoMemory, Settings, Spot, Tally};
use std::alloc::Global;
use std::marker::Model;

/// Nights in order of time, the table of their tracklets, and the settings by which sets of their
/// numbers fit.
#[derive(Drop)]
pub struct Sky<'a> {
    alloc: Global,
    /// The nights.
    pub nights: &'a [NumberedNight<'a>],
    /// The table.
    pub table: &'a [Place],
    /// The settings.
    pub settings: &'a Settings,
    ends: Vec<NightEnds>,
}

impl<'a> Model for Sky<'a> {
    ghost use Rattle.std.specs.Prelude.{◌≡◌};
    ghost use Rattle.set_grow.specs.Ends.{ends_by_night as ends_by_night_of};
    ghost use Rattle.set_grow.specs.Nights.{AreInPlace};
    ghost use Rattle.set_grow.specs.SkyData.{SkyData};

    ghost Value = { SkyData };

    ghost view = { λ s. record {
      settings = s.settings.now;
      nights = s.nights.now;
      table = s.table.now;
    } };

    ghost invariant = { λ s. AreInPlace s.nights.now s.table.now × (s.ends.items ≡ ends_by_night_of s.settings.now s.nights.now) };
}

impl<'a> Sky<'a> {
    /// The sky of these nights. It reads each of their tracklets once.
    pub fn of(
        alloc: Global,
        nights: &'a [NumberedNight<'a>],
        table: &'a [Place],
        settings: &'a Settings,
    ) -> Result<Sky<'a>, NoMemory>
        requires { AreInPlace nights.now table.now }
        ensures { IfOk result (λ sky. sky ≡ record {
          settings = settings.now;
          nights = nights.now;
          table = table.now;
        }) }
    {
        let ends = ends_by_night(alloc, nights, settings)?;
        Ok(Sky {
            alloc,
            nights,
            table,
            settings,
            ends,
        })
    }

    /// The ends of the tracklets of a night.
    pub fn ends_of(&self, night: usize) -> &[TrackletEnds]
        requires { night < length self.now.nights }
        ensures { (d : NumberedNightData) → result.now ≡
            ends_in self.now.settings (without_numbers (get_or self.now.nights night d).tracklets) }
    {
        self.ends[night].each()
    }

    /// Where in declination the tracklets of a night begin that may be of one object with an item of another night.
    pub fn range_around(&self, night: usize, item_night: usize, item: &TrackletEnds) -> DecRange
        requires { night < length self.now.nights }
        ensures { (d : NumberedNightData) (other : EndsData) →
            Contains (ends_in self.now.settings (without_numbers (get_or self.now.nights night d).tracklets)) other →
            MayGo self.now.settings item_night item.now night other → IsInRange result other.dec }
    {
        self.ends[night].range_around(night, item_night, item, self.settings)
    }

    /// The spots of the tracklet at a seat.
    pub fn spots_at(&self, seat: Seat) -> &[Spot]
        requires { IsSeat self.now.nights seat }
        ensures { result.now ≡ (one_at self.now.nights seat).tracklet }
    {
        let nights = self.nights;
        nights[seat.night].tracklets()[seat.place].spots()
    }
}

impl<'a> Family for Sky<'a> {
    ghost Fits = { λ sky set. FitsWithParts sky set };

    fn fits(&self, set: &[u32], tally: &mut Tally) -> Result<bool, NoMemory> {
        let Some(seats) = seats_of(self.alloc, self.nights, self.table, set)? else {
            return Ok(false);
        };
        let spots = joined(self.alloc, self.nights, seats.as_slice())?;
        Ok(is_fitting_arc(spots.as_slice(), self.settings, tally))
    }

    ghost hereditary = { λ sky. with_parts sky };
}
