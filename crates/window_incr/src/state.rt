//! The linker's state and its calls.
ghost use Rattle.std.specs.Prelude.{◌≡◌, ◌≢◌, ◌≤◌, ◌<◌, ◌^◌, pos, None, Some, Ok, Err, [], length, map, IfOk, IfErr, OnOk, OnErr};
ghost use Rattle.std.specs.List.{sum_by};
ghost use Rattle.sky_units.specs.Limits.{most_nights, IsNear};
ghost use Rattle.sky_units.specs.SettingNames.{set_named};
ghost use Rattle.exposure_log.specs.Held.{TakesIn, refusal, window_refusal, moved};
ghost use Rattle.exposure_log.specs.Outcomes.{HoldsAll};
ghost use Rattle.exposure_log.specs.declared.errors.AddError.TheVariants.{NoMemory as no_memory};
ghost use Rattle.exposure_log.specs.declared.errors.WindowError.TheVariants.{NoMemory as window_memory};
ghost use Rattle.sky_units.specs.declared.ask_errors.AskError.TheVariants.{NoMemory as out_of_memory};
ghost use Rattle.night_tree.specs.Nights.{tracklets_of_each};
ghost use Rattle.window_incr.specs.Answers.{tracklet_ids, IsReport, AreStats};
ghost use Rattle.window_incr.specs.Asked.{IsAsked};
ghost use Rattle.window_incr.specs.LinkerState.{LinkerData, after_setting};
ghost use Rattle.window_incr.specs.Results.{KeepsResults};
ghost use Rattle.window_incr.specs.Soundness.{IsSoundLinker};
ghost use Rattle.window_incr.specs.Work.{IsWorkOfAdding, IsWorkOfHolding, IsWorkTo};
ghost use Rattle.miti_text.specs.ValidReports.{IsValidReport};

use crate::answers::{groups_of, tracks_of};
use crate::asking::asked;
use crate::keeping::{forget_before, renew_all_or_remove, renew_or_remove};
use crate::listing::listed;
use exposure_log::{AddError, Exposure, ExposureLog, Outcome, WindowError, hold_all};
use kept_nights::night_of_number;
use kept_tracks::KeptTracks;
use night_tree::Night;
use sky_units::{
    AskError, Asked, Groups, NoMemory, Report, SetError, Settings, Stats, Tally, Words,
};
use std::alloc::Global;
use std::marker::Model;

/// The settings and the held exposures of a window of nights, which are linked into tracklets and
/// tracks. The tracklets of each night with held exposures are kept, and so are the closed sets of
/// tracklets of three or more nights: after each call, also one that answers an error, they are those
/// of a run from scratch (the definition `KeepsResults`).
///
/// A call that answers an error changes nothing.
#[derive(Drop)]
pub struct Linker {
    alloc: Global,
    settings: Settings,
    log: ExposureLog,
    nights: Vec<Night>,
    kept: KeptTracks,
}

impl Model for Linker {
    ghost use Rattle.std.specs.Prelude.{◌≡◌, IfSome};
    ghost use Rattle.sky_units.specs.Limits.{IsNear};
    ghost use Rattle.window_incr.specs.Keeping.{nights_under};
    ghost use Rattle.window_incr.specs.LinkerState.{LinkerData};
    ghost use Rattle.kept_tracks.specs.KeptFor.{AreKeptFor};
    ghost use Rattle.tracklet_register.specs.Registers.{with_numbers};

    ghost Value = { LinkerData };

    ghost view = { λ l. record {
      state = record { settings = l.settings; log = l.log };
      nights = l.nights.items;
      numbered = with_numbers l.kept.register.nights l.nights.items;
      sets = l.kept.sets;
    } };

    ghost invariant = { λ l. (l.log.night_shift ≡ l.settings.night_shift) ×
        IfSome l.log.window IsNear ×
        (l.nights.items ≡ nights_under l.settings l.log) ×
        AreKeptFor l.settings l.nights.items l.kept };
}

impl Linker {
    /// A linker under these settings, with no window and nothing held.
    pub fn new(alloc: Global, settings: Settings) -> Result<Linker, NoMemory>
        ensures empty { IfOk result (λ l. l.state ≡
            record {
              settings = settings;
              log = record { night_shift = settings.night_shift; window = None; exposures = [] };
            }) }
        ensures kept { IfOk result (λ l. KeepsResults l) }
    {
        let log = ExposureLog::new(alloc, settings.night_shift)?;
        Ok(Linker {
            alloc,
            settings,
            log,
            nights: Vec::new(alloc),
            kept: KeptTracks::new(alloc),
        })
    }

    /// The settings.
    pub fn settings(&self) -> &Settings
        ensures value { result.now ≡ self.now.state.settings }
        ensures sound { IsSoundLinker self.now }
    {
        let _ = self.log.window();
        &self.settings
    }

    /// The nights with held exposures, in order of time, each with exactly the tracklets of its held
    /// detections (the definition `nights_of`).
    pub fn nights(&self) -> &[Night]
        ensures value { result.now ≡ self.now.nights }
        ensures kept { KeepsResults self.now }
    {
        self.nights.as_slice()
    }

    /// Changes the setting of this name. `Name` comes where there is none of this name, otherwise
    /// `Range` where the value lies outside its range, otherwise `Late` where a window was set. This
    /// takes no memory.
    pub fn set(&mut self, name: &[u8], value: i64) -> Result<(), SetError>
        ensures ok { OnOk result (after_setting name.now value self.old.state ≡ Ok self.new.state) }
        ensures cause { IfErr result (λ error. after_setting name.now value self.old.state ≡
            Err error) }
        ensures err { OnErr result (self.new ≡ self.old) }
        ensures kept { KeepsResults self.new }
    {
        let settings = changed(&self.settings, name, value)?;
        if let Some(_window) = self.log.window() {
            return Err(SetError::Late);
        }
        self.log.set_shift(settings.night_shift);
        self.settings = settings;
        // Before a window is set nothing is held, and so nothing is kept.
        self.kept = KeptTracks::new(self.alloc);
        Ok(())
    }

    /// Holds an exposure from now on, and gives the number of its detections. The causes of a
    /// refusal are those of the log. The night of the exposure is built anew, and no other; the
    /// tracklets that came are grown, and no others. The tally stays where none came, and otherwise
    /// rises by no more than the work for them (the definition `IsWork`).
    pub fn add(&mut self, exposure: &Exposure, tally: &mut Tally) -> Result<u32, AddError>
        ensures ok { IfOk result (λ count. (refusal self.old.state.log exposure.now ≡ None) ×
            (count ≡ length exposure.now.detections) ×
            TakesIn self.old.state.log self.new.state.log exposure.now ×
            (self.new.state.settings ≡ self.old.state.settings)) }
        ensures cause { IfErr result (λ error. error ≢ no_memory →
            refusal self.old.state.log exposure.now ≡ Some error) }
        ensures err { OnErr result (self.new ≡ self.old) }
        ensures kept { KeepsResults self.new }
        ensures refused { refusal self.old.state.log exposure.now ≢ None → tally.new ≡ tally.old }
        ensures work { OnOk result (IsWorkTo self.old self.new.state.log tally.old tally.new) }
        ensures wanting { IsWorkOfAdding self.old exposure.now tally.old tally.new }
    {
        let _ = self.log.window();
        let count = self.log.add(exposure)?;
        let _ = self.log.window();
        let alloc = self.alloc;
        let settings = self.settings;
        let epoch = exposure.epoch();
        let site = exposure.site();
        renew_or_remove(
            &mut self.kept,
            &mut self.nights,
            &mut self.log,
            alloc,
            &settings,
            epoch,
            site,
            tally,
        )?;
        Ok(count)
    }

    /// Holds exposures one after another, themselves and no copies, and says what came of each (the
    /// definition `HoldsAll`). Their nights are built anew when all are held, and no other: one
    /// build for all exposures of a night; the tracklets that came are grown, and no others. Where
    /// memory is wanting, nothing changes. The tally stays where no tracklet came, and otherwise
    /// rises by no more than the work for those that came (the definition `IsWork`).
    pub fn hold_all(
        &mut self,
        exposures: Vec<Exposure>,
        tally: &mut Tally,
    ) -> Result<Vec<Outcome>, NoMemory>
        ensures ok { IfOk result (λ outcomes.
            HoldsAll self.old.state.log exposures.items outcomes.items self.new.state.log ×
            (self.new.state.settings ≡ self.old.state.settings)) }
        ensures err { OnErr result (self.new ≡ self.old) }
        ensures kept { KeepsResults self.new }
        ensures work { OnOk result (IsWorkTo self.old self.new.state.log tally.old tally.new) }
        ensures wanting { IsWorkOfHolding self.old exposures.items tally.old tally.new }
    {
        let _ = self.log.window();
        let alloc = self.alloc;
        let settings = self.settings;
        let outcomes = hold_all(alloc, &mut self.log, exposures)?;
        let given = renew_all_or_remove(
            &mut self.kept,
            &mut self.nights,
            &mut self.log,
            alloc,
            &settings,
            outcomes,
            tally,
        )?;
        Ok(given)
    }

    /// Sets the window to these nights, and forgets the nights before it with all that is kept of
    /// them. The causes of a refusal are those of the log. No fit test is made.
    pub fn set_window(&mut self, lo: i64, hi: i64, tally: &mut Tally) -> Result<(), WindowError>
        requires { IsNear (lo, hi) }
        ensures none { OnOk result (window_refusal self.old.state.log.window lo hi ≡ None) }
        ensures cause { IfErr result (λ error. error ≢ window_memory →
            window_refusal self.old.state.log.window lo hi ≡ Some error) }
        ensures ok { OnOk result (self.new.state ≡
            record self.old.state { log = moved self.old.state.log lo hi }) }
        ensures err { OnErr result (self.new ≡ self.old) }
        ensures kept { KeepsResults self.new }
        ensures tally { tally.new ≡ tally.old }
    {
        let _ = self.log.window();
        self.log.check_window(lo, hi)?;
        let alloc = self.alloc;
        forget_before(&mut self.kept, &mut self.nights, alloc, lo)?;
        self.log.move_window(lo, hi);
        Ok(())
    }

    /// The window, and the maximal tracks of the held detections in canonical order (the definition
    /// `IsReport`), each with the reported quadratic on each axis. The report is valid: each track
    /// has three or more nights, and no more than a window, with two or more ids for each, and its
    /// quadratics are counted from a position and an epoch. The tracks are read from what is kept:
    /// no fit test is made.
    pub fn report(&self, tally: &mut Tally) -> Result<Report, NoMemory>
        ensures report { IfOk result (λ report. IsReport self.now.state report) }
        ensures valid { IfOk result (λ report. IsValidReport report) }
        ensures tally { tally.new ≡ tally.old }
    {
        let window = self.log.window();
        let list = listed(self.alloc, &self.log, self.nights.as_slice(), &self.kept)?;
        let tracks = tracks_of(self.alloc, &self.log, &self.settings, list.as_slice())?;
        Ok(Report { window, tracks })
    }

    /// What the detections of some ids are (the definition `IsAsked`): the first of its cases that
    /// holds. A misfit has a certificate for each axis that doesn't admit them, and for no other.
    pub fn ask(&self, ids: &Words) -> Result<Asked, AskError>
        requires few { length ids.now < 2 ^ 32 }
        ensures { result ≢ Err out_of_memory → IsAsked self.now.state ids.now result }
    {
        let _ = self.log.window();
        asked(
            self.alloc,
            &self.log,
            self.nights.as_slice(),
            &self.kept,
            &self.settings,
            ids.items(),
        )
    }

    /// The ids of each tracklet of a night, in the order of the tracklets. There are none for a
    /// night without held exposures.
    pub fn tracklets(&self, night: i64) -> Result<Groups, NoMemory>
        ensures { IfOk result (λ groups. groups ≡ tracklet_ids self.now.state night) }
    {
        let _ = self.log.window();
        match night_of_number(self.nights.as_slice(), night) {
            Some(kept) => groups_of(self.alloc, &self.log, kept.tracklets()),
            None => Ok(Groups::new(self.alloc)),
        }
    }

    /// The numbers of held exposures and detections, of the tracklets of all nights, and of the
    /// report's tracks.
    pub fn stats(&self) -> Result<Stats, NoMemory>
        ensures { IfOk result (λ stats. AreStats self.now.state stats) }
    {
        let _ = self.log.window();
        let tracks = self.kept.maximal(self.alloc, self.nights.as_slice())?;
        Ok(Stats {
            exposures: self.log.exposures(),
            detections: self.log.detections(),
            tracklets: tracklet_count(self.nights.as_slice()),
            tracks: tracks.len() as u64,
        })
    }
}

/// The settings with the one of this name changed, or why it can't be.
fn changed(settings: &Settings, name: &[u8], value: i64) -> Result<Settings, SetError>
    ensures { result ≡ set_named name.now value settings.now }
{
    let mut changed = *settings;
    changed.set(name, value)?;
    Ok(changed)
}

/// The number of tracklets of all of some nights, of which there are no more than a window has.
fn tracklet_count(nights: &[Night]) -> u64
    requires { length nights.now ≤ most_nights }
    ensures { result ≡ sum_by length (tracklets_of_each nights.now) }
{
    let mut count = 0;
    for night in nights {
        // A slice has fewer than 2^63 bytes, which keeps the lengths of thirty of them below 2^64.
        count += night.tracklets().len() as u64;
    }
    count
}
