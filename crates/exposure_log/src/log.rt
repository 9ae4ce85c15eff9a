//! The log of held exposures.
ghost use Rattle.std.specs.Prelude.{◌≡◌, ◌≢◌, ℕ, ℤ, ◌+◌, ◌^◌, ◌<◌, ◌≤◌, ◌<ℤ◌, pos, neg_ℤ, [], None, Some, IsSome, IsTrue, IfOk, IfErr, OnErr, OnOk, ◌++◌, ◌↔◌, List, length, map, nat_le, nat_lt, option_copied};
ghost use Rattle.std.specs.List.{All, list_any};
ghost use Rattle.sky_math.specs.Night.{night_at};
ghost use Rattle.std.specs.Ordering.{is_lt};
ghost use Rattle.sky_units.specs.Limits.{IsNear};
ghost use Rattle.sky_units.specs.SettingRanges.{IsNightShift};
ghost use Rattle.miti_text.specs.Observation.{Observation, is_id};
ghost use Rattle.miti_text.specs.CanonicalOrder.{canonical_cmp};
ghost use Rattle.exposure_log.specs.Numbered.{AreListed, entries_of, exposure_of};
ghost use Rattle.exposure_log.specs.Nights.{listed_of, IsPlaceFor};
ghost use Rattle.exposure_log.specs.declared.numbered.NumberedExposure.{NumberedExposure};
ghost use Rattle.exposure_log.specs.Exposures.{IsExposure, IdsDontFall};
ghost use Rattle.exposure_log.specs.Held.{LogData, TakesIn, IsAnsweredAs, refusal, held_refusal, room_refusal, first_taken as first_taken_of, held_at, detections_of, stands_at, without_exposure, from_night, window_refusal, moved, spots_of_night, spot_of, of_night, most_of_a_night, most_detections, AreOfOneEpoch};
ghost use Rattle.exposure_log.specs.HandedBack.{IsHandedBack};
ghost use Rattle.exposure_log.specs.Orderly.{IsOrderly};
ghost use Rattle.exposure_log.specs.declared.errors.AddError.TheVariants.{NoMemory as no_memory};

use crate::canonical::compare;
use crate::errors::{AddError, NotHeld, WindowError};
use crate::exposures::Exposure;
use crate::nights::{HeldNights, NightPlace};
use crate::numbered::{NumberedExposure, are_of_one_epoch, let_go_listed, search};
use miti_text::Detection;
use number_register::{Register, let_go_all, take_all};
use sky_units::{MOST_NIGHTS, NoMemory, Spot, night_of};
use std::alloc::Global;
use std::marker::Model;

/// The most exposures of a night.
const MOST_OF_A_NIGHT: usize = 4_096;

/// The most detections that are held.
const MOST_DETECTIONS: usize = 1_048_576;

/// The held exposures, the window of nights that they lie in, and the shift by which nights are counted.
///
/// A detection keeps its number as long as it is held. A call that answers an error changes nothing.
#[derive(Drop)]
pub struct ExposureLog {
    alloc: Global,
    window: Option<(i64, i64)>,
    register: Register,
    nights: HeldNights,
}

impl Model for ExposureLog {
    ghost use Rattle.std.specs.Prelude.{map};
    ghost use Rattle.sky_units.specs.SettingRanges.{IsNightShift};
    ghost use Rattle.exposure_log.specs.Orderly.{IsOrderly};
    ghost use Rattle.exposure_log.specs.Held.{LogData};
    ghost use Rattle.exposure_log.specs.Numbered.{exposure_of, AreListed};
    ghost use Rattle.exposure_log.specs.Nights.{listed_of};

    ghost Value = { LogData };

    ghost view = { λ log. record {
      night_shift = log.nights.shift;
      window = log.window;
      exposures = map (exposure_of log.register) (listed_of log.nights);
    } };

    ghost invariant = { λ log. IsNightShift log.nights.shift ×
        AreListed log.register (listed_of log.nights) ×
        IsOrderly (record {
          night_shift = log.nights.shift;
          window = log.window;
          exposures = map (exposure_of log.register) (listed_of log.nights);
        }) };
}

impl ExposureLog {
    /// No window and nothing held, with nights counted by this shift (in ticks).
    pub fn new(alloc: Global, night_shift: i64) -> Result<ExposureLog, NoMemory>
        requires { IsNightShift night_shift }
        ensures { IfOk result (λ log. log ≡
            record { night_shift = night_shift; window = None; exposures = [] }) }
    {
        Ok(ExposureLog {
            alloc,
            window: None,
            register: Register::new(alloc),
            nights: HeldNights::new(alloc, night_shift),
        })
    }

    /// Counts nights by this shift (in ticks) from now on. No window may have been set. This takes
    /// no memory.
    pub fn set_shift(&mut self, night_shift: i64)
        requires range { IsNightShift night_shift }
        requires early { self.old.window ≡ None }
        ensures { self.new ≡ record self.old { night_shift = night_shift } }
    {
        self.nights = HeldNights::new(self.alloc, night_shift);
    }

    /// The first and the last night of the window, if one was set.
    pub fn window(&self) -> Option<(i64, i64)>
        ensures value { result ≡ self.now.window }
        ensures orderly { IsOrderly self.now }
    {
        self.window
    }

    /// Whether the window can be moved to these nights, or the first cause why not. `NoMemory`
    /// never comes.
    pub fn check_window(&self, lo: i64, hi: i64) -> Result<(), WindowError>
        requires { IsNear (lo, hi) }
        ensures { IsAnsweredAs (window_refusal self.now.window lo hi) result }
    {
        if hi < lo {
            return Err(WindowError::Order);
        }
        if hi - lo >= MOST_NIGHTS {
            return Err(WindowError::Wide);
        }
        if let Some((first, last)) = self.window {
            if lo < first {
                return Err(WindowError::Back);
            }
            if hi < last {
                return Err(WindowError::Back);
            }
        }
        Ok(())
    }

    /// Takes out the exposure of this epoch and site; false where none is held there. This takes no
    /// memory.
    pub fn remove(&mut self, epoch: i64, site: &[u8]) -> bool
        ensures found { result ≡ list_any (stands_at epoch site.now) self.old.exposures }
        ensures rest { self.new ≡ record self.old
            { exposures = without_exposure epoch site.now self.old.exposures } }
    {
        let Some(numbered) = self.nights.take(epoch, site) else {
            return false;
        };
        let_go_all(&mut self.register, numbered.numbers.as_slice());
        true
    }

    /// Holds the exposure from now on; the number of its detections. Each takes the least number
    /// that is left. The exposure itself is held, and no copy of it; one that is refused comes back.
    pub fn hold(&mut self, exposure: Exposure) -> Result<u32, NotHeld>
        ensures ok { IfOk result (λ n. (refusal self.old exposure ≡ None) ×
            (n ≡ length exposure.detections) × TakesIn self.old self.new exposure) }
        ensures err { IfErr result (λ e. (self.new ≡ self.old) × IsHandedBack self.old exposure e) }
        ensures keeps { IfOk result (λ _. IsExposure exposure) }
        ensures ids { IfOk result (λ _. All (λ d. IsTrue (is_id d.id)) exposure.detections) }
    {
        let place = match self.place_for(&exposure) {
            Ok(place) => place,
            Err(error) => return Err(NotHeld::Refused(error, exposure)),
        };
        match self.put(place, exposure) {
            Ok(count) => Ok(count),
            Err(_) => Err(NotHeld::NoMemory),
        }
    }

    /// Holds a copy of the exposure, as `hold` does.
    pub fn add(&mut self, exposure: &Exposure) -> Result<u32, AddError>
        ensures ok { IfOk result (λ n. (refusal self.old exposure.now ≡ None) ×
            (n ≡ length exposure.now.detections) × TakesIn self.old self.new exposure.now) }
        ensures err { IfErr result (λ e. (self.new ≡ self.old) × (e ≢ no_memory →
            refusal self.old exposure.now ≡ Some e)) }
        ensures keeps { IfOk result (λ _. IsExposure exposure.now) }
        ensures ids { IfOk result (λ _. All (λ d. IsTrue (is_id d.id)) exposure.now.detections) }
    {
        let place = self.place_for(exposure)?;
        let copy = exposure.copy(self.alloc)?;
        Ok(self.put(place, copy)?)
    }

    /// The place of the exposure in its night, or the first cause for which the log doesn't take it.
    fn place_for(&self, exposure: &Exposure) -> Result<NightPlace, AddError>
        ensures place { IfOk result (λ place. (refusal self.now exposure.now ≡ None) ×
            IsPlaceFor self.now exposure.now place) }
        ensures cause { IfErr result (λ e. refusal self.now exposure.now ≡ Some e) }
        ensures ids { IfOk result (λ _. All (λ d. IsTrue (is_id d.id)) exposure.now.detections) }
    {
        let Some((lo, hi)) = self.window else {
            return Err(AddError::NoWindow);
        };
        let night = night_of(exposure.epoch(), self.nights.shift());
        if night < lo {
            return Err(AddError::Old);
        }
        if hi < night {
            return Err(AddError::New);
        }
        self.place_in_window(exposure, night)
    }

    /// The same for an exposure whose night lies in the window.
    fn place_in_window(&self, exposure: &Exposure, night: i64) -> Result<NightPlace, AddError>
        requires { night ≡ night_at self.now.night_shift exposure.now.epoch }
        ensures place { IfOk result (λ place. (held_refusal self.now exposure.now ≡ None) ×
            IsPlaceFor self.now exposure.now place) }
        ensures cause { IfErr result (λ e. held_refusal self.now exposure.now ≡ Some e) }
        ensures ids { IfOk result (λ _. All (λ d. IsTrue (is_id d.id)) exposure.now.detections) }
    {
        let epoch = exposure.epoch();
        let Err(index) = search(self.nights.of_night(night), epoch, exposure.site()) else {
            return Err(AddError::Held);
        };
        if let Some(at) = first_taken(&self.register, exposure.detections()) {
            return Err(AddError::Id(at));
        }
        if let Some(error) = self.refuses_for_room(exposure, night) {
            return Err(error);
        }
        Ok(NightPlace { night, index })
    }

    /// Why the log has no room for an exposure.
    fn refuses_for_room(&self, exposure: &Exposure, night: i64) -> Option<AddError>
        requires { night ≡ night_at self.now.night_shift exposure.now.epoch }
        ensures cause { result ≡ room_refusal self.now exposure.now }
    {
        if self.is_night_full(night) {
            return Some(AddError::NightFull);
        }
        if self.is_full_with(exposure.detections().len()) {
            return Some(AddError::Full);
        }
        None
    }

    /// Whether a night holds no more exposures.
    fn is_night_full(&self, night: i64) -> bool
        ensures { result ≡ nat_le most_of_a_night
            (length (of_night self.now.night_shift night self.now.exposures)) }
    {
        self.nights.of_night(night).len() >= MOST_OF_A_NIGHT
    }

    /// Whether `more` detections would be more than the log holds.
    fn is_full_with(&self, more: usize) -> bool
        requires { more < 2 ^ 32 }
        ensures { result ≡ nat_lt most_detections
            (length (detections_of self.now.exposures) + more) }
    {
        self.detections() as usize + more > MOST_DETECTIONS
    }

    /// Holds an exposure that nothing refuses, at its place in its night.
    fn put(&mut self, place: NightPlace, exposure: Exposure) -> Result<u32, NoMemory>
        requires free { refusal self.old exposure ≡ None }
        requires ids { All (λ d. IsTrue (is_id d.id)) exposure.detections }
        requires place { IsPlaceFor self.old exposure place }
        ensures ok { IfOk result (λ n. (n ≡ length exposure.detections) ×
            TakesIn self.old self.new exposure) }
        ensures err { OnErr result (self.new ≡ self.old) }
        ensures keeps { IsExposure exposure }
    {
        let (epoch, site, detections) = exposure.into_parts();
        let count = detections.len() as u32;
        self.nights.make_room(self.alloc, place.night)?;
        let numbers = take_all(&mut self.register, self.alloc, detections)?;
        let numbered = NumberedExposure {
            epoch,
            site,
            numbers,
        };
        self.nights.insert(place, numbered);
        Ok(count)
    }

    /// Moves the window to these nights, and forgets the nights before it. `check_window` must answer
    /// Ok. This takes no memory.
    pub fn move_window(&mut self, lo: i64, hi: i64)
        requires { window_refusal self.old.window lo hi ≡ None }
        ensures { self.new ≡ moved self.old lo hi }
    {
        forget_before(&mut self.register, &mut self.nights, lo);
        self.window = Some((lo, hi));
    }

    /// Whether all held exposures of a night are of one epoch. Then no two of its spots are a pair.
    pub fn is_of_one_epoch(&self, night: i64) -> bool
        ensures { IsTrue result ↔ AreOfOneEpoch self.now night }
    {
        are_of_one_epoch(self.nights.of_night(night))
    }

    /// The spots of a night in canonical order, each with its number as its label.
    pub fn night(&self, night: i64) -> Result<Vec<Spot>, NoMemory>
        ensures { IfOk result (λ spots. spots.items ≡ spots_of_night self.now night) }
    {
        spots_of(self.alloc, &self.register, self.nights.of_night(night))
    }

    /// How many exposures are held.
    pub fn exposures(&self) -> u32
        ensures { result ≡ length self.now.exposures }
    {
        self.nights.len() as u32
    }

    /// How many detections are held.
    pub fn detections(&self) -> u32
        ensures { result ≡ length (detections_of self.now.exposures) }
    {
        self.register.count()
    }

    /// The held detection of this number.
    pub fn detection(&self, num: u32) -> Option<&Detection>
        ensures { option_copied result ≡ held_at self.now.exposures num }
    {
        self.register.get(num)
    }

    /// The number of the held detection of this id.
    pub fn find(&self, id: &[u8]) -> Option<u32>
        ensures none { result ≡ None → (n : ℕ) (d : Observation) →
            held_at self.now.exposures n ≡ Some d → d.id ≢ id.now }
        ensures some { (n : ℕ) → result ≡ Some n →
            (d : Observation) × (held_at self.now.exposures n ≡ Some d) × (d.id ≡ id.now) }
    {
        self.register.find(id)
    }

    /// Whether the held detection of number `a` stands before that of number `b` in canonical order.
    pub fn before(&self, a: u32, b: u32) -> bool
        requires a { IsSome (held_at self.now.exposures a) }
        requires b { IsSome (held_at self.now.exposures b) }
        ensures { (d e : Observation) → held_at self.now.exposures a ≡ Some d →
            held_at self.now.exposures b ≡ Some e → result ≡ is_lt (canonical_cmp d e) }
    {
        match (self.register.get(a), self.register.get(b)) {
            (Some(first), Some(second)) => compare(first, second).is_lt(),
            _ => false,
        }
    }
}

/// The first place whose id is held or equals that of an earlier place.
fn first_taken(register: &Register, detections: &[Detection]) -> Option<u32>
    requires few { length detections.now < 2 ^ 32 }
    requires order { IdsDontFall detections.now }
    ensures first { (listed : List NumberedExposure) → AreListed register.now listed →
        result ≡ first_taken_of (map (exposure_of register.now) listed) detections.now }
    ensures ids { result ≡ None → All (λ d. IsTrue (is_id d.id)) detections.now }
{
    for (place, detection) in detections.iter().enumerate() {
        if register.find(detection.id.bytes()).is_some() {
            return Some(place as u32);
        }
        if place > 0 {
            let earlier = &detections[place - 1];
            if earlier.id == detection.id {
                return Some(place as u32);
            }
        }
    }
    None
}

/// Forgets the exposures whose night lies before a night. This takes no memory.
fn forget_before(register: &mut Register, nights: &mut HeldNights, night: i64)
    requires { AreListed register.old (listed_of nights.old) }
    ensures shift { nights.new.shift ≡ nights.old.shift }
    ensures listed { AreListed register.new (listed_of nights.new) }
    ensures exposures { map (exposure_of register.new) (listed_of nights.new) ≡
        from_night nights.old.shift night (map (exposure_of register.old) (listed_of nights.old)) }
{
    while let Some(listed) = nights.take_before(night) {
        let_go_listed(register, listed.as_slice());
    }
}

/// Where a detection stands, with its number as the label.
fn labelled(number: u32, detection: &Detection) -> Spot
    ensures { result ≡ spot_of (number, detection.now) }
{
    Spot {
        num: number,
        epoch: detection.epoch,
        ra: detection.ra,
        dec: detection.dec,
    }
}

/// The spots of the detections of these exposures, in order.
fn spots_of(
    alloc: Global,
    register: &Register,
    listed: &[NumberedExposure],
) -> Result<Vec<Spot>, NoMemory>
    ensures { IfOk result (λ spots. spots.items ≡
        map spot_of (detections_of (map (exposure_of register.now) listed.now))) }
{
    let mut spots = Vec::new(alloc);
    for numbered in listed {
        push_spots(&mut spots, register, numbered.numbers.as_slice())?;
    }
    Ok(spots)
}

/// Adds the spots of the detections of these numbers.
fn push_spots(spots: &mut Vec<Spot>, register: &Register, numbers: &[u32]) -> Result<(), NoMemory>
    ensures { OnOk result (spots.new.items ≡ spots.old.items
        ++ map spot_of (entries_of register.now numbers.now)) }
{
    for number in numbers {
        if let Some(detection) = register.get(*number) {
            spots.push(labelled(*number, detection))?;
        }
    }
    Ok(())
}
