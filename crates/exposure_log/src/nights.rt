//! The held exposures, night by night.
ghost use Rattle.std.specs.Prelude.{◌≡◌, ℤ, ◌^◌, ◌<◌, [], false, length, IsSome, IfSome, IfNone, OnOk};
ghost use Rattle.std.specs.Int.Signed.{lt_z};
ghost use Rattle.std.specs.List.{All};
ghost use Rattle.sky_math.specs.Night.{night_at};
ghost use Rattle.exposure_log.specs.Numbered.{RiseStrictly};
ghost use Rattle.exposure_log.specs.Nights.{all_listed, list_of, listed_of, listed_of_night, AreByNight, HasRoom, IsFree, PutsIn, TakesNight, TakesPlace};

use crate::numbered::{NumberedExposure, insert, search};
use sky_units::NoMemory;
use std::alloc::Global;
use std::collections::BTreeMap;
use std::marker::Model;

/// A day, in ticks.
const TICKS_PER_DAY: i128 = 1_000_000;

/// The held exposures, night by night, so that one that comes or goes moves only those of its own night.
#[derive(Drop)]
pub(crate) struct HeldNights {
    shift: i64,
    by_night: BTreeMap<i64, Vec<NumberedExposure>>,
}

impl Model for HeldNights {
    ghost use Rattle.exposure_log.specs.Nights.{NightsData, AreByNight};

    ghost Value = { NightsData };

    ghost view = { λ nights. record { shift = nights.shift; by_night = nights.by_night.entries } };

    ghost invariant = { λ nights. AreByNight nights.shift nights.by_night.entries };
}

/// Where an exposure is to stand: its night, and its place among the exposures of that night.
#[derive(Clone, Copy)]
pub(crate) struct NightPlace {
    pub(crate) night: i64,
    pub(crate) index: usize,
}

impl HeldNights {
    /// No exposures, with nights counted by this shift (in ticks). This takes no memory.
    pub(crate) fn new(alloc: Global, shift: i64) -> HeldNights
        ensures { result ≡ record { shift = shift; by_night = [] } }
    {
        HeldNights {
            shift,
            by_night: BTreeMap::new(alloc),
        }
    }

    /// The shift by which nights are counted, in ticks.
    pub(crate) fn shift(&self) -> i64
        ensures { result ≡ self.now.shift }
    {
        self.shift
    }

    /// How many exposures there are.
    pub(crate) fn len(&self) -> usize
        requires { length (listed_of self.now) < 2 ^ 32 }
        ensures { result ≡ length (listed_of self.now) }
    {
        let mut total = 0;
        for listed in self.by_night.values() {
            total += listed.len();
        }
        total
    }

    /// The exposures of a night.
    pub(crate) fn of_night(&self, night: i64) -> &[NumberedExposure]
        ensures { result.now ≡ listed_of_night self.now night }
    {
        match self.by_night.get(&night) {
            Some(listed) => listed.as_slice(),
            None => &[],
        }
    }

    /// Makes room for one exposure more in a night.
    pub(crate) fn make_room(&mut self, alloc: Global, night: i64) -> Result<(), NoMemory>
        ensures shift { self.new.shift ≡ self.old.shift }
        ensures listed { listed_of self.new ≡ listed_of self.old }
        ensures room { OnOk result (HasRoom self.new.by_night night) }
    {
        add_night(&mut self.by_night, alloc, night)?;
        reserve_one(&mut self.by_night, night)
    }

    /// Puts an exposure at its place in a night that has room for it. This takes no memory.
    pub(crate) fn insert(&mut self, place: NightPlace, numbered: NumberedExposure)
        requires night { place.night ≡ night_at self.old.shift numbered.epoch }
        requires free { IsFree numbered.epoch numbered.site
            (listed_of_night self.old place.night) place.index }
        requires room { HasRoom self.old.by_night place.night }
        ensures shift { self.new.shift ≡ self.old.shift }
        ensures listed { PutsIn (listed_of self.old) numbered (listed_of self.new) }
    {
        if let Some(listed) = self.by_night.get_mut(&place.night) {
            insert(listed, place.index, numbered);
        }
    }

    /// Takes out the exposure of this epoch and site, if there is one. This takes no memory.
    pub(crate) fn take(&mut self, epoch: i64, site: &[u8]) -> Option<NumberedExposure>
        requires { RiseStrictly (listed_of self.old) }
        ensures shift { self.new.shift ≡ self.old.shift }
        ensures taken { TakesPlace epoch site.now (listed_of self.old) result (listed_of self.new) }
        ensures same { IfNone result (self.new ≡ self.old) }
    {
        let night = night_of_any(epoch, self.shift);
        let Ok(index) = search(self.of_night(night), epoch, site) else {
            return None;
        };
        let listed = self.by_night.get_mut(&night)?;
        Some(listed.remove(index))
    }

    /// Takes out the exposures of the first night, where it lies before a night. This takes no memory.
    pub(crate) fn take_before(&mut self, night: i64) -> Option<Vec<NumberedExposure>>
        ensures shift { self.new.shift ≡ self.old.shift }
        ensures some { IfSome result (λ out. TakesNight night self.old out.items self.new) }
        ensures fewer { IfSome result (λ _. length self.new.by_night < length self.old.by_night) }
        ensures none { IfNone result
            (All (λ g. lt_z (night_at self.old.shift g.epoch) night ≡ false) (listed_of self.old)) }
        ensures same { IfNone result (self.new ≡ self.old) }
    {
        let (first, _) = self.by_night.first_key_value()?;
        if *first >= night {
            return None;
        }
        let (_, listed) = self.by_night.pop_first()?;
        Some(listed)
    }
}

/// Gives a night a list of exposures, if it has none.
fn add_night(
    by_night: &mut BTreeMap<i64, Vec<NumberedExposure>>,
    alloc: Global,
    night: i64,
) -> Result<(), NoMemory>
    ensures listed { all_listed by_night.new.entries ≡ all_listed by_night.old.entries }
    ensures nights { (shift : ℤ) → AreByNight shift by_night.old.entries →
        AreByNight shift by_night.new.entries }
    ensures there { OnOk result (IsSome (list_of by_night.new.entries night)) }
{
    if !by_night.contains_key(&night) {
        by_night.insert(night, Vec::new(alloc))?;
    }
    Ok(())
}

/// Makes room for one exposure more in the list of a night.
fn reserve_one(
    by_night: &mut BTreeMap<i64, Vec<NumberedExposure>>,
    night: i64,
) -> Result<(), NoMemory>
    requires { IsSome (list_of by_night.old.entries night) }
    ensures listed { all_listed by_night.new.entries ≡ all_listed by_night.old.entries }
    ensures nights { (shift : ℤ) → AreByNight shift by_night.old.entries →
        AreByNight shift by_night.new.entries }
    ensures room { OnOk result (HasRoom by_night.new.entries night) }
{
    match by_night.get_mut(&night) {
        Some(listed) => listed.reserve(1),
        None => Ok(()),
    }
}

/// The night of any epoch under any shift, both in ticks.
fn night_of_any(epoch: i64, shift: i64) -> i64
    ensures { result ≡ night_at shift epoch }
{
    (i128::from(epoch) + i128::from(shift)).div_euclid(TICKS_PER_DAY) as i64
}
