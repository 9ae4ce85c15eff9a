//! The kept results, when what the log holds has changed.
ghost use Rattle.std.specs.Prelude.{◌≡◌, IfErr, IfOk, OnOk, OnErr};
ghost use Rattle.sky_math.specs.Night.{night_at};
ghost use Rattle.sky_units.specs.Ranges.{IsEpoch};
ghost use Rattle.exposure_log.specs.Held.{without_exposure};
ghost use Rattle.exposure_log.specs.Outcomes.{without_taken};
ghost use Rattle.exposure_log.specs.declared.errors.WindowError.TheVariants.{NoMemory as window_memory};
ghost use Rattle.kept_nights.specs.KeptNights.{RiseByNumber};
ghost use Rattle.kept_tracks.specs.KeptFor.{AreKeptFor, StandAlike, since};
ghost use Rattle.night_tree.specs.Nights.{tracklets_of_each};
ghost use Rattle.sky_units.specs.SettingsData.{SettingsData};
ghost use Rattle.sky_units.specs.Tracks.{AreNights};
ghost use Rattle.tracklet_register.specs.Registers.{with_numbers};
ghost use Rattle.window_incr.specs.Keeping.{HadNights, WereNightsBut, nights_under};
ghost use Rattle.window_incr.specs.Work.{IsWork};

use exposure_log::{ExposureLog, Outcome, WindowError, take_out_all};
use kept_nights::{built, changed_nights};
use kept_tracks::KeptTracks;
use night_tree::Night;
use sky_units::{NoMemory, Settings, Tally, night_of};
use std::alloc::Global;

/// Renews what is kept of the night of an exposure that the log took in. Where memory is wanting, the
/// log lets the exposure go again, and all that is kept stays.
pub(crate) fn renew_or_remove(
    kept: &mut KeptTracks,
    nights: &mut Vec<Night>,
    log: &mut ExposureLog,
    alloc: Global,
    settings: &Settings,
    epoch: i64,
    site: &[u8],
    tally: &mut Tally,
) -> Result<(), NoMemory>
    requires kept { AreKeptFor settings.now nights.old.items kept.old }
    requires epoch { IsEpoch epoch }
    requires but { WereNightsBut settings.now log.old nights.old.items
        (night_at settings.now.night_shift epoch) }
    ensures log { OnOk result (log.new ≡ log.old) }
    ensures nights { OnOk result (nights.new.items ≡ nights_under settings.now log.old) }
    ensures removed { OnErr result (log.new ≡
        record log.old { exposures = without_exposure epoch site.now log.old.exposures }) }
    ensures err { OnErr result (nights.new.items ≡ nights.old.items) }
    ensures same { OnErr result (StandAlike kept.old kept.new) }
    ensures sets { AreKeptFor settings.now nights.new.items kept.new }
    ensures work { IsWork settings.now nights.old.items
        (with_numbers kept.old.register.nights nights.old.items)
        (nights_under settings.now log.old) tally.old tally.new }
{
    let number = night_of(epoch, settings.night_shift);
    if let Err(error) = renew_night(kept, nights, alloc, log, number, settings, tally) {
        log.remove(epoch, site);
        return Err(error);
    }
    Ok(())
}

/// Builds the night of a number from what the log holds of it, and keeps it with its results. Where
/// memory is wanting, all that is kept stays.
fn renew_night(
    kept: &mut KeptTracks,
    nights: &mut Vec<Night>,
    alloc: Global,
    log: &ExposureLog,
    number: i64,
    settings: &Settings,
    tally: &mut Tally,
) -> Result<(), NoMemory>
    requires kept { AreKeptFor settings.now nights.old.items kept.old }
    requires but { WereNightsBut settings.now log.now nights.old.items number }
    ensures nights { OnOk result (nights.new.items ≡ nights_under settings.now log.now) }
    ensures err { OnErr result (nights.new.items ≡ nights.old.items) }
    ensures same { OnErr result (StandAlike kept.old kept.new) }
    ensures sets { AreKeptFor settings.now nights.new.items kept.new }
    ensures work { IsWork settings.now nights.old.items
        (with_numbers kept.old.register.nights nights.old.items)
        (nights_under settings.now log.now) tally.old tally.new }
{
    let night = built(alloc, log, number, settings)?;
    kept.renew(alloc, nights, night, settings, tally)
}

/// Renews what is kept of the nights of the exposures that the log took in. Where memory is wanting,
/// the log lets all of these go again, and all that is kept stays.
pub(crate) fn renew_all_or_remove(
    kept: &mut KeptTracks,
    nights: &mut Vec<Night>,
    log: &mut ExposureLog,
    alloc: Global,
    settings: &Settings,
    outcomes: Vec<Outcome>,
    tally: &mut Tally,
) -> Result<Vec<Outcome>, NoMemory>
    requires kept { AreKeptFor settings.now nights.old.items kept.old }
    requires shift { log.old.night_shift ≡ settings.now.night_shift }
    requires had { HadNights settings.now log.old nights.old.items outcomes.items }
    ensures log { IfOk result (λ given.
        (given.items ≡ outcomes.items) × (log.new ≡ log.old)) }
    ensures nights { OnOk result (nights.new.items ≡ nights_under settings.now log.old) }
    ensures removed { OnErr result (log.new ≡
        record log.old { exposures = without_taken outcomes.items log.old.exposures }) }
    ensures err { OnErr result (nights.new.items ≡ nights.old.items) }
    ensures same { OnErr result (StandAlike kept.old kept.new) }
    ensures sets { AreKeptFor settings.now nights.new.items kept.new }
    ensures work { IsWork settings.now nights.old.items
        (with_numbers kept.old.register.nights nights.old.items)
        (nights_under settings.now log.old) tally.old tally.new }
{
    let _ = log.window();
    let renewed = renew_all(
        kept,
        nights,
        alloc,
        log,
        outcomes.as_slice(),
        settings,
        tally,
    );
    if let Err(error) = renewed {
        take_out_all(log, outcomes.as_slice());
        return Err(error);
    }
    Ok(outcomes)
}

/// Builds the nights of the exposures that were taken, each once, and keeps them with their results.
/// Where memory is wanting, all that is kept stays.
fn renew_all(
    kept: &mut KeptTracks,
    nights: &mut Vec<Night>,
    alloc: Global,
    log: &ExposureLog,
    outcomes: &[Outcome],
    settings: &Settings,
    tally: &mut Tally,
) -> Result<(), NoMemory>
    requires kept { AreKeptFor settings.now nights.old.items kept.old }
    requires shift { log.now.night_shift ≡ settings.now.night_shift }
    requires had { HadNights settings.now log.now nights.old.items outcomes.now }
    ensures nights { OnOk result (nights.new.items ≡ nights_under settings.now log.now) }
    ensures err { OnErr result (nights.new.items ≡ nights.old.items) }
    ensures same { OnErr result (StandAlike kept.old kept.new) }
    ensures sets { AreKeptFor settings.now nights.new.items kept.new }
    ensures work { IsWork settings.now nights.old.items
        (with_numbers kept.old.register.nights nights.old.items)
        (nights_under settings.now log.now) tally.old tally.new }
{
    let _ = log.window();
    let changed = changed_nights(alloc, log, outcomes, settings)?;
    kept.renew_all(alloc, nights, changed, settings, tally)
}

/// Lets the nights before one go, with what is kept of them. Where memory is wanting, all that is kept
/// stays. No fit test is made.
pub(crate) fn forget_before(
    kept: &mut KeptTracks,
    nights: &mut Vec<Night>,
    alloc: Global,
    first: i64,
) -> Result<(), WindowError>
    requires kept { (settings : SettingsData) × AreKeptFor settings nights.old.items kept.old }
    requires rising { RiseByNumber nights.old.items }
    requires follow { AreNights (tracklets_of_each nights.old.items) }
    requires now { AreNights (tracklets_of_each (since first nights.old.items)) }
    ensures nights { OnOk result (nights.new.items ≡ since first nights.old.items) }
    ensures ok { OnOk result ((settings : SettingsData) →
        AreKeptFor settings nights.old.items kept.old →
        AreKeptFor settings nights.new.items kept.new) }
    ensures cause { IfErr result (λ error. error ≡ window_memory) }
    ensures err { OnErr result (nights.new.items ≡ nights.old.items) }
    ensures same { OnErr result (kept.new ≡ kept.old) }
{
    match kept.forget_before(alloc, nights, first) {
        Ok(()) => Ok(()),
        Err(_) => Err(WindowError::NoMemory),
    }
}
