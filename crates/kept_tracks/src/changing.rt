//! A change of the kept sets.
ghost use Rattle.std.specs.Prelude.{◌≡◌, [], IfOk, OnErr, OnOk, map};
ghost use Rattle.closed_sets.specs.Families.{IsSet};
ghost use Rattle.kept_sets.specs.Kept.{AreGrown, AreKept};
ghost use Rattle.set_grow.specs.Costs.{IsBounded};
ghost use Rattle.set_grow.specs.Fitting.{FitsByNumber};
ghost use Rattle.set_grow.specs.Nights.{AreInPlace, by_night};
ghost use Rattle.kept_tracks.specs.Stages.{IsExchangeOf};

use crate::exchanging::Change;
use kept_sets::KeptSets;
use set_grow::{NumberedNight, Place, grow_numbered};
use sky_units::{NoMemory, Settings, Tally};
use std::alloc::Global;

/// Changes the kept sets where tracklets went and others came: what came is grown over the nights as
/// they are now. Where memory is wanting, nothing changes, but the tally may have risen.
pub fn change(
    sets: &mut KeptSets,
    alloc: Global,
    nights: &[NumberedNight<'_>],
    table: &[Place],
    change: &Change,
    settings: &Settings,
    tally: &mut Tally,
) -> Result<(), NoMemory>
    requires place { AreInPlace nights.now table.now }
    requires exchange { IsExchangeOf settings.now change.now.went.items change.now.came.items
        sets.old nights.now }
    requires went { IsSet change.now.went.items }
    requires came { IsSet change.now.came.items }
    ensures ok { OnOk result (AreKept (FitsByNumber settings.now (by_night nights.now)) sets.new) }
    ensures err { OnErr result (sets.new ≡ sets.old) }
    ensures tests { IsBounded (record {
      settings = settings.now;
      nights = nights.now;
      table = table.now;
    }) change.now.came.items tally.old.tests tally.new.tests }
    ensures calm { change.now.came.items ≡ [] → tally.new ≡ tally.old }
{
    let came = change.came.as_slice();
    let grown = grown_around(alloc, nights, table, came, settings, tally)?;
    sets.change(alloc, change.went.as_slice(), came, grown)
}

/// The closed sets of three or more that hold one of the numbers that came. Where none came, no
/// tracklet is read, and no fit test is made.
fn grown_around(
    alloc: Global,
    nights: &[NumberedNight<'_>],
    table: &[Place],
    came: &[u32],
    settings: &Settings,
    tally: &mut Tally,
) -> Result<Vec<Vec<u32>>, NoMemory>
    requires { AreInPlace nights.now table.now }
    ensures grown { IfOk result (λ sets. AreGrown (FitsByNumber settings.now (by_night nights.now))
        came.now (map (λ set. set.items) sets.items)) }
    ensures tests { IsBounded (record {
      settings = settings.now;
      nights = nights.now;
      table = table.now;
    }) came.now tally.old.tests tally.new.tests }
    ensures calm { came.now ≡ [] → tally.new ≡ tally.old }
{
    if came.is_empty() {
        return Ok(Vec::new(alloc));
    }
    grow_numbered(alloc, nights, table, came, settings, tally)
}
