//! The kept nights: one for each night with held exposures, in order of time.
ghost use Rattle.std.specs.Prelude.{◌≡◌, ◌+◌, ◌<◌, ◌≤◌, ◌<ℤ◌, ◌++◌, [], ◌∷◌, List, not, length, slice_index_or, MatchBool, OnOk, OnErr, IfOk, IfErr, option_copied};
ghost use Rattle.std.specs.Vec.{vec_len, vec_capacity};
ghost use Rattle.std.specs.Int.Signed.{lt_z};
ghost use Rattle.std.specs.List.{All, Contains, filter, find};
ghost use Rattle.std.specs.List.Sorted.{IsPartitionPoint};
ghost use Rattle.std.specs.Ordering.{int_eq};
ghost use Rattle.sky_math.specs.Night.{night_at};
ghost use Rattle.sky_units.specs.Ranges.{IsEpoch};
ghost use Rattle.exposure_log.specs.Held.{without_exposure};
ghost use Rattle.exposure_log.specs.Orderly.{IsOrderly};
ghost use Rattle.exposure_log.specs.Outcomes.{IsThere, without_taken};
ghost use Rattle.exposure_log.specs.declared.outcomes.Outcome.{Outcome as OutcomeData};
ghost use Rattle.night_tree.specs.Nights.{NightData};
ghost use Rattle.kept_nights.specs.KeptNights.{RiseByNumber, night_data, with_night, without_night};
ghost use Rattle.kept_nights.specs.Renewed.{AreRenewed, NightsFollow, with_nights};

use exposure_log::{ExposureLog, Outcome, take_out_all};
use night_tree::Night;
use sky_units::{NoMemory, Settings, night_of};
use std::alloc::Global;

/// The kept night of this number, if there is one.
pub fn night_of_number(nights: &[Night], number: i64) -> Option<&Night>
    ensures { option_copied result ≡ find (λ night. int_eq night.number number) nights.now }
{
    nights.iter().find(|night| night.number() == number)
}

/// Renews the night of an exposure that the log took in. Where memory is wanting, the log lets the
/// exposure go again, and the nights stay as they are.
pub fn renew_or_remove(
    nights: &mut Vec<Night>,
    log: &mut ExposureLog,
    alloc: Global,
    settings: &Settings,
    epoch: i64,
    site: &[u8],
) -> Result<(), NoMemory>
    requires rising { RiseByNumber nights.old.items }
    requires epoch { IsEpoch epoch }
    ensures log { OnOk result (log.new ≡ log.old) }
    ensures nights { OnOk result (nights.new.items ≡
        with_night (night_data (record { settings = settings.now; log = log.old })
        (night_at settings.now.night_shift epoch)) nights.old.items) }
    ensures orderly { IsOrderly log.old }
    ensures removed { OnErr result (log.new ≡
        record log.old { exposures = without_exposure epoch site.now log.old.exposures }) }
    ensures err { OnErr result (nights.new.items ≡ nights.old.items) }
{
    let _ = log.window();
    let night = night_of(epoch, settings.night_shift);
    if let Err(error) = renew(nights, alloc, log, night, settings) {
        log.remove(epoch, site);
        return Err(error);
    }
    Ok(())
}

/// Builds the night of this number from what the log holds of it, and keeps it in place of the one
/// that was kept. Where memory is wanting the nights stay as they are.
fn renew(
    nights: &mut Vec<Night>,
    alloc: Global,
    log: &ExposureLog,
    number: i64,
    settings: &Settings,
) -> Result<(), NoMemory>
    requires rising { RiseByNumber nights.old.items }
    requires orderly { IsOrderly log.now }
    ensures ok { OnOk result (nights.new.items ≡
        with_night (night_data
        (record { settings = settings.now; log = log.now }) number) nights.old.items) }
    ensures err { OnErr result (nights.new.items ≡ nights.old.items) }
{
    let night = built(alloc, log, number, settings)?;
    nights.reserve(1)?;
    put(nights, night);
    Ok(())
}

/// The night of this number, built from what the log holds of it (the definition `night_data`).
pub fn built(
    alloc: Global,
    log: &ExposureLog,
    number: i64,
    settings: &Settings,
) -> Result<Night, NoMemory>
    requires { IsOrderly log.now }
    ensures { IfOk result (λ night. night ≡
        night_data (record { settings = settings.now; log = log.now }) number) }
{
    if log.is_of_one_epoch(number) {
        // There are no pairs, so the spots need not be listed.
        return Night::build(alloc, number, Vec::new(alloc), settings);
    }
    Night::build(alloc, number, log.night(number)?, settings)
}

/// Renews the nights of the exposures that the log took. Where memory is wanting, the log lets all of
/// these go again, and the nights stay as they are.
pub fn renew_all_or_remove(
    nights: &mut Vec<Night>,
    log: &mut ExposureLog,
    alloc: Global,
    settings: &Settings,
    outcomes: Vec<Outcome>,
) -> Result<Vec<Outcome>, NoMemory>
    requires rising { RiseByNumber nights.old.items }
    requires shift { log.old.night_shift ≡ settings.now.night_shift }
    requires there { All (IsThere log.old.exposures) outcomes.items }
    ensures log { IfOk result (λ given.
        (given.items ≡ outcomes.items) × (log.new ≡ log.old)) }
    ensures nights { OnOk result (NightsFollow settings.now outcomes.items log.old
        nights.old.items nights.new.items) }
    ensures orderly { IsOrderly log.old }
    ensures removed { OnErr result (log.new ≡
        record log.old { exposures = without_taken outcomes.items log.old.exposures }) }
    ensures err { OnErr result (nights.new.items ≡ nights.old.items) }
{
    let _ = log.window();
    if let Err(error) = renew_all(nights, alloc, log, outcomes.as_slice(), settings) {
        take_out_all(log, outcomes.as_slice());
        return Err(error);
    }
    Ok(outcomes)
}

/// Builds the nights of the exposures that were taken, and keeps them in place of those that were
/// kept. Where memory is wanting the nights stay as they are.
fn renew_all(
    nights: &mut Vec<Night>,
    alloc: Global,
    log: &ExposureLog,
    outcomes: &[Outcome],
    settings: &Settings,
) -> Result<(), NoMemory>
    requires rising { RiseByNumber nights.old.items }
    requires orderly { IsOrderly log.now }
    requires shift { log.now.night_shift ≡ settings.now.night_shift }
    requires there { All (IsThere log.now.exposures) outcomes.now }
    ensures ok { OnOk result (NightsFollow settings.now outcomes.now log.now
        nights.old.items nights.new.items) }
    ensures err { OnErr result (nights.new.items ≡ nights.old.items) }
{
    let changed = changed_nights(alloc, log, outcomes, settings)?;
    nights.reserve(changed.len())?;
    put_all(nights, changed);
    Ok(())
}

/// The nights of the exposures that were taken, each once, built from what the log holds of them.
pub fn changed_nights(
    alloc: Global,
    log: &ExposureLog,
    outcomes: &[Outcome],
    settings: &Settings,
) -> Result<Vec<Night>, NoMemory>
    requires orderly { IsOrderly log.now }
    requires shift { log.now.night_shift ≡ settings.now.night_shift }
    requires there { All (IsThere log.now.exposures) outcomes.now }
    ensures { IfOk result (λ changed. AreRenewed
        (record { settings = settings.now; log = log.now }) outcomes.now changed.items) }
{
    let mut changed = Vec::new(alloc);
    for outcome in outcomes {
        add_night(&mut changed, alloc, log, outcome, settings)?;
    }
    Ok(changed)
}

/// Builds the night of an exposure that was taken, unless it is built already.
fn add_night(
    changed: &mut Vec<Night>,
    alloc: Global,
    log: &ExposureLog,
    outcome: &Outcome,
    settings: &Settings,
) -> Result<(), NoMemory>
    requires orderly { IsOrderly log.now }
    requires shift { log.now.night_shift ≡ settings.now.night_shift }
    requires there { IsThere log.now.exposures outcome.now }
    ensures { OnOk result ((before : List OutcomeData) →
        AreRenewed (record { settings = settings.now; log = log.now }) before changed.old.items →
        AreRenewed (record { settings = settings.now; log = log.now })
        (before ++ outcome.now ∷ []) changed.new.items) }
{
    match outcome {
        Outcome::Taken(epoch, _, _) => {
            let number = night_of(*epoch, settings.night_shift);
            if is_built(changed.as_slice(), number) {
                return Ok(());
            }
            changed.push(built(alloc, log, number, settings)?)?;
            Ok(())
        }
        Outcome::Refused(_, _) => Ok(()),
    }
}

/// Whether there is a night of this number.
fn is_built(nights: &[Night], number: i64) -> bool
    ensures { MatchBool result
        ((night : NightData) × Contains nights.now night × (night.number ≡ number))
        ((night : NightData) → Contains nights.now night → ¬ (night.number ≡ number)) }
{
    match night_of_number(nights, number) {
        Some(_) => true,
        None => false,
    }
}

/// Keeps nights, each in place of the one of its number. There is room for them.
pub fn put_all(nights: &mut Vec<Night>, more: Vec<Night>)
    requires rising { RiseByNumber nights.old.items }
    requires room { vec_len nights.old + vec_len more ≤ vec_capacity nights.old }
    ensures { nights.new.items ≡ with_nights more.items nights.old.items }
{
    let mut rest = more;
    while let Some(night) = rest.pop() {
        put(nights, night);
    }
}

/// Keeps a night in place of the one of its number. There is room for one more.
#[tactic(auto, using(crate::proofs::WithNight::inserted, crate::proofs::WithNight::replaced))]
pub fn put(nights: &mut Vec<Night>, night: Night)
    requires rising { RiseByNumber nights.old.items }
    requires room { vec_len nights.old < vec_capacity nights.old }
    ensures put { nights.new.items ≡ with_night night nights.old.items }
    ensures len { vec_len nights.new ≤ vec_len nights.old + 1 }
    ensures capacity { vec_capacity nights.old ≤ vec_capacity nights.new }
{
    match place_for(nights.as_slice(), &night) {
        Ok(place) => nights[place] = night,
        Err(place) => {
            let _ = nights.insert(place, night);
        }
    }
}

/// The place of the kept night of the same number, or the place where the night would stand.
fn place_for(nights: &[Night], night: &Night) -> Result<usize, usize>
    requires { RiseByNumber nights.now }
    ensures found { IfOk result (λ i. (i < length nights.now) × ((d : NightData) →
        (slice_index_or nights.now i d).number ≡ night.now.number)) }
    ensures missing { IfErr result (λ i. (i ≤ length nights.now) ×
        IsPartitionPoint (λ kept. kept.number <ℤ night.now.number)
        (λ kept. night.now.number <ℤ kept.number) nights.now i) }
{
    nights.binary_search_by(|kept| kept.number().cmp(&night.number()))
}

/// Drops the night of a number.
pub fn let_go(nights: &mut Vec<Night>, number: i64)
    ensures { nights.new.items ≡ without_night number nights.old.items }
{
    nights.retain(|night| night.number() != number);
}

/// Drops the nights before this one.
pub fn forget_before(nights: &mut Vec<Night>, number: i64)
    ensures { nights.new.items ≡ filter (λ night. not (lt_z night.number number)) nights.old.items }
{
    nights.retain(|night| night.number() >= number);
}
