//! The kept tracks, and what a night that is built anew changes of them.
ghost use Rattle.std.specs.Prelude.{◌≡◌, ◌⊎◌, List, [], ◌∷◌, IfOk, OnErr, OnOk, map};
ghost use Rattle.closed_sets.specs.Families.{IsSet};
ghost use Rattle.kept_nights.specs.KeptNights.{RiseByNumber, with_night, without_night};
ghost use Rattle.kept_nights.specs.Renewed.{HaveDifferentNumbers, with_nights};
ghost use Rattle.kept_sets.specs.Kept.{AreKept};
ghost use Rattle.night_tree.specs.Nights.{tracklets_of_each};
ghost use Rattle.set_grow.specs.Costs.{IsBounded};
ghost use Rattle.set_grow.specs.Fitting.{FitsByNumber};
ghost use Rattle.set_grow.specs.Nights.{by_night};
ghost use Rattle.set_grow.specs.declared.places.Place.{Place as PlaceData};
ghost use Rattle.sky_units.specs.SettingsData.{SettingsData};
ghost use Rattle.sky_units.specs.Tracks.{AreMaximalTracks, AreNights};
ghost use Rattle.std.specs.List.{All};
ghost use Rattle.tracklet_register.specs.Registers.{HasNumbersOf, with_numbers};
ghost use Rattle.tracklet_register.specs.Replacing.{AreDifferent};
ghost use Rattle.kept_tracks.specs.Costs.{AreFewTests, BringNothing};
ghost use Rattle.kept_tracks.specs.KeptFor.{AreKeptFor, StandAlike, since};
ghost use Rattle.kept_tracks.specs.Stages.{IsExchangeOf};

use crate::changing::change;
use crate::exchanging::{Change, exchange_tracklets, restore_all};
use crate::numbering::{lent_with, numbered};
use crate::tracks::tracks_of;
use kept_nights::{forget_before, let_go, put_all};
use kept_sets::KeptSets;
use night_tree::Night;
use set_grow::maximal_tracks_are_closed;
use sky_units::{NoMemory, Settings, Tally, TrackSet};
use std::alloc::Global;
use std::marker::Model;
use subset_drop::drop_subsets;
use tracklet_register::{TrackletRegister, numbered_nights};

/// Lasting numbers of the tracklets of some nights, and the closed sets of three or more of these
/// numbers. The nights are kept elsewhere.
#[derive(Drop)]
pub struct KeptTracks {
    register: TrackletRegister,
    sets: KeptSets,
}

impl Model for KeptTracks {
    ghost use Rattle.kept_tracks.specs.KeptFor.{KeptData};

    ghost Value = { KeptData };

    ghost view = { λ kept. record { register = kept.register; sets = kept.sets } };
}

impl KeptTracks {
    /// What is kept of no nights.
    pub fn new(alloc: Global) -> Self
        ensures { (settings : SettingsData) → AreKeptFor settings [] result }
    {
        KeptTracks {
            register: TrackletRegister::new(alloc),
            sets: KeptSets::new(alloc),
        }
    }

    /// The maximal tracks of the nights, each once, in no order that is promised. No fit test is made.
    pub fn maximal(&self, alloc: Global, nights: &[Night]) -> Result<Vec<TrackSet>, NoMemory>
        requires kept { (settings : SettingsData) × AreKeptFor settings nights.now self.now }
        requires follow { AreNights (tracklets_of_each nights.now) }
        requires rising { RiseByNumber nights.now }
        requires different { All (λ night. AreDifferent night) (tracklets_of_each nights.now) }
        ensures { IfOk result (λ list. (settings : SettingsData) →
            AreKeptFor settings nights.now self.now →
            AreMaximalTracks settings (tracklets_of_each nights.now) list.items) }
    {
        // A law: the maximal tracks are among those of the closed sets.
        maximal_tracks_are_closed();
        let numbered = numbered_nights(alloc, &self.register, nights)?;
        let table = self.register.table();
        let tracks = tracks_of(alloc, numbered.as_slice(), table, self.sets.sets())?;
        drop_subsets(alloc, tracks)
    }

    /// Keeps a night that is built anew, or is new, in place of the one of its number (`renew_all` of
    /// one night).
    pub fn renew(
        &mut self,
        alloc: Global,
        nights: &mut Vec<Night>,
        night: Night,
        settings: &Settings,
        tally: &mut Tally,
    ) -> Result<(), NoMemory>
        requires kept { AreKeptFor settings.now nights.old.items self.old }
        requires rising { RiseByNumber nights.old.items }
        requires follow { AreNights (tracklets_of_each nights.old.items) }
        requires now { AreNights (tracklets_of_each (with_night night nights.old.items)) }
        requires different { AreDifferent night.tracklets }
        ensures nights { OnOk result (nights.new.items ≡ with_night night nights.old.items) }
        ensures ok { OnOk result (AreKeptFor settings.now nights.new.items self.new) }
        ensures err { OnErr result (nights.new.items ≡ nights.old.items) }
        ensures same { OnErr result (StandAlike self.old self.new) }
        ensures still { OnErr result (AreKeptFor settings.now nights.new.items self.new) }
        ensures tests { (tally.new ≡ tally.old) ⊎ AreFewTests settings.now self.old.register.nights
            nights.old.items (with_night night nights.old.items) tally.old.tests tally.new.tests }
        ensures calm { BringNothing nights.old.items (night ∷ []) → tally.new ≡ tally.old }
    {
        let mut changed = Vec::new(alloc);
        changed.push(night)?;
        self.renew_all(alloc, nights, changed, settings, tally)
    }

    /// Keeps nights that are built anew, or are new, each in place of the one of its number. The
    /// tracklets that a night had before keep their numbers; those that came are grown, and no others.
    /// Where memory is wanting, nothing changes, but the tally may have risen. It rises by no more than
    /// what came allows (`AreFewTests`), and not at all where nothing came.
    pub fn renew_all(
        &mut self,
        alloc: Global,
        nights: &mut Vec<Night>,
        changed: Vec<Night>,
        settings: &Settings,
        tally: &mut Tally,
    ) -> Result<(), NoMemory>
        requires kept { AreKeptFor settings.now nights.old.items self.old }
        requires rising { RiseByNumber nights.old.items }
        requires follow { AreNights (tracklets_of_each nights.old.items) }
        requires now { AreNights (tracklets_of_each (with_nights changed.items nights.old.items)) }
        requires once { HaveDifferentNumbers changed.items }
        requires different { All (λ night. AreDifferent night.tracklets) changed.items }
        ensures nights { OnOk result (nights.new.items ≡
            with_nights changed.items nights.old.items) }
        ensures ok { OnOk result (AreKeptFor settings.now nights.new.items self.new) }
        ensures err { OnErr result (nights.new.items ≡ nights.old.items) }
        ensures same { OnErr result (StandAlike self.old self.new) }
        ensures still { OnErr result (AreKeptFor settings.now nights.new.items self.new) }
        ensures tests { (tally.new ≡ tally.old) ⊎ AreFewTests settings.now self.old.register.nights
            nights.old.items (with_nights changed.items nights.old.items)
            tally.old.tests tally.new.tests }
        ensures calm { BringNothing nights.old.items changed.items → tally.new ≡ tally.old }
    {
        nights.reserve(changed.len())?;
        self.exchange_all(
            alloc,
            nights.as_slice(),
            changed.as_slice(),
            settings,
            tally,
        )?;
        put_all(nights, changed);
        self.compact(alloc);
        Ok(())
    }

    /// Lets the night of a number go, with what is kept of it. No fit test is made. Where memory is
    /// wanting, nothing changes.
    pub fn let_go(
        &mut self,
        alloc: Global,
        nights: &mut Vec<Night>,
        number: i64,
    ) -> Result<(), NoMemory>
        requires kept { (settings : SettingsData) ×
            AreKeptFor settings nights.old.items self.old }
        requires rising { RiseByNumber nights.old.items }
        requires follow { AreNights (tracklets_of_each nights.old.items) }
        requires now { AreNights (tracklets_of_each (without_night number nights.old.items)) }
        ensures nights { OnOk result (nights.new.items ≡ without_night number nights.old.items) }
        ensures ok { OnOk result ((settings : SettingsData) →
            AreKeptFor settings nights.old.items self.old →
            AreKeptFor settings nights.new.items self.new) }
        ensures err { OnErr result (nights.new.items ≡ nights.old.items) }
        ensures same { OnErr result (self.new ≡ self.old) }
    {
        let went = self.register.numbers_of_night(alloc, number)?;
        self.sets
            .change(alloc, went.as_slice(), &[], Vec::new(alloc))?;
        self.register.forget_night(number);
        self.register.release(went.as_slice());
        let_go(nights, number);
        self.compact(alloc);
        Ok(())
    }

    /// Lets the nights before one go, with what is kept of them. No fit test is made. Where memory is
    /// wanting, nothing changes.
    pub fn forget_before(
        &mut self,
        alloc: Global,
        nights: &mut Vec<Night>,
        first: i64,
    ) -> Result<(), NoMemory>
        requires kept { (settings : SettingsData) ×
            AreKeptFor settings nights.old.items self.old }
        requires rising { RiseByNumber nights.old.items }
        requires follow { AreNights (tracklets_of_each nights.old.items) }
        requires now { AreNights (tracklets_of_each (since first nights.old.items)) }
        ensures nights { OnOk result (nights.new.items ≡ since first nights.old.items) }
        ensures ok { OnOk result ((settings : SettingsData) →
            AreKeptFor settings nights.old.items self.old →
            AreKeptFor settings nights.new.items self.new) }
        ensures err { OnErr result (nights.new.items ≡ nights.old.items) }
        ensures same { OnErr result (self.new ≡ self.old) }
    {
        let went = self.register.numbers_before(alloc, first)?;
        self.sets
            .change(alloc, went.as_slice(), &[], Vec::new(alloc))?;
        self.register.forget_before(first);
        self.register.release(went.as_slice());
        forget_before(nights, first);
        self.compact(alloc);
        Ok(())
    }

    /// Gives back the places of sets that have gone, where they are many. Where memory is wanting for
    /// that, they stay.
    fn compact(&mut self, alloc: Global)
        ensures { self.new ≡ self.old }
    {
        let _ = self.sets.compact(alloc);
    }

    /// Changes what is kept where nights come in place of those of their numbers, or are new. `nights`
    /// are those before.
    fn exchange_all(
        &mut self,
        alloc: Global,
        nights: &[Night],
        changed: &[Night],
        settings: &Settings,
        tally: &mut Tally,
    ) -> Result<(), NoMemory>
        requires kept { AreKeptFor settings.now nights.now self.old }
        requires rising { RiseByNumber nights.now }
        requires follow { AreNights (tracklets_of_each nights.now) }
        requires now { AreNights (tracklets_of_each (with_nights changed.now nights.now)) }
        requires once { HaveDifferentNumbers changed.now }
        requires different { All (λ night. AreDifferent night.tracklets) changed.now }
        ensures ok { OnOk result
            (AreKeptFor settings.now (with_nights changed.now nights.now) self.new) }
        ensures same { OnErr result (StandAlike self.old self.new) }
        ensures still { OnErr result (AreKeptFor settings.now nights.now self.new) }
        ensures tests { (tally.new ≡ tally.old) ⊎ AreFewTests settings.now self.old.register.nights
            nights.now (with_nights changed.now nights.now) tally.old.tests tally.new.tests }
        ensures calm { BringNothing nights.now changed.now → tally.new ≡ tally.old }
    {
        let lent = lent_with(alloc, nights, changed)?;
        let exchanged = exchange_tracklets(&mut self.register, alloc, nights, changed)?;
        let changed_sets = change_sets(
            &mut self.sets,
            alloc,
            &self.register,
            lent.as_slice(),
            &exchanged.change,
            settings,
            tally,
        );
        if let Err(error) = changed_sets {
            restore_all(&mut self.register, exchanged.done);
            return Err(error);
        }
        self.register.release(exchanged.change.went.as_slice());
        Ok(())
    }
}

/// Changes the sets where tracklets of some nights were exchanged in the register. `nights` are those
/// after.
fn change_sets(
    sets: &mut KeptSets,
    alloc: Global,
    register: &TrackletRegister,
    nights: &[&Night],
    exchanged: &Change,
    settings: &Settings,
    tally: &mut Tally,
) -> Result<(), NoMemory>
    requires numbered { HasNumbersOf register.now.nights (map (λ night. night.now) nights.now) }
    requires rising { RiseByNumber (map (λ night. night.now) nights.now) }
    requires follow { AreNights (tracklets_of_each (map (λ night. night.now) nights.now)) }
    requires exchange { IsExchangeOf settings.now exchanged.now.went.items
        exchanged.now.came.items sets.old
        (with_numbers register.now.nights (map (λ night. night.now) nights.now)) }
    requires went { IsSet exchanged.now.went.items }
    requires came { IsSet exchanged.now.came.items }
    ensures ok { OnOk result (AreKept (FitsByNumber settings.now (by_night
        (with_numbers register.now.nights (map (λ night. night.now) nights.now)))) sets.new) }
    ensures err { OnErr result (sets.new ≡ sets.old) }
    ensures tests { (tally.new ≡ tally.old) ⊎ ((table : List PlaceData) × IsBounded (record {
      settings = settings.now;
      nights = with_numbers register.now.nights (map (λ night. night.now) nights.now);
      table = table;
    }) exchanged.now.came.items tally.old.tests tally.new.tests) }
    ensures calm { exchanged.now.came.items ≡ [] → tally.new ≡ tally.old }
{
    let numbered = numbered(alloc, register, nights)?;
    change(
        sets,
        alloc,
        numbered.as_slice(),
        register.table(),
        exchanged,
        settings,
        tally,
    )
}
