//! Exposures that are handed over together: they are held one after another, or none of them is.
ghost use Rattle.std.specs.Prelude.{◌≡◌, IfOk, OnErr};
ghost use Rattle.sky_units.specs.Ranges.{IsEpoch};
ghost use Rattle.exposure_log.specs.Orderly.{IsOrderly};
ghost use Rattle.exposure_log.specs.Outcomes.{CameBy, HoldsAll, HoldsOne, without_one, without_taken};

use crate::errors::{AddError, NotHeld};
use crate::exposures::Exposure;
use crate::log::ExposureLog;
use sky_units::{NoMemory, Word};
use std::alloc::{AllocError, Global};

/// What came of an exposure that was handed over.
#[derive(Drop)]
pub enum Outcome {
    /// It is held: its epoch (in ticks), its site, and the number of its detections.
    Taken(i64, Word, u32),
    /// The log doesn't take it, for this cause, which is never want of memory: it comes back as it was.
    Refused(AddError, Exposure),
}

/// Holds exposures one after another, as `ExposureLog::hold` does, and says what came of each (the
/// definition `HoldsAll`). Where memory is wanting, those that were taken are taken out again.
pub fn hold_all(
    alloc: Global,
    log: &mut ExposureLog,
    exposures: Vec<Exposure>,
) -> Result<Vec<Outcome>, NoMemory>
    ensures ok { IfOk result (λ outcomes.
        HoldsAll log.old exposures.items outcomes.items log.new) }
    ensures came { IfOk result (λ outcomes. CameBy log.old outcomes.items log.new) }
    ensures err { OnErr result (log.new ≡ log.old) }
{
    let mut outcomes = Vec::with_capacity(alloc, exposures.len())?;
    for exposure in exposures {
        match hold_one(alloc, log, exposure) {
            Ok(outcome) => {
                let _ = outcomes.push(outcome);
            }
            Err(error) => {
                take_out_all(log, outcomes.as_slice());
                return Err(error);
            }
        }
    }
    Ok(outcomes)
}

/// Takes out the exposures that were taken. This takes no memory.
pub fn take_out_all(log: &mut ExposureLog, outcomes: &[Outcome])
    ensures { log.new ≡ record log.old
        { exposures = without_taken outcomes.now log.old.exposures } }
{
    for outcome in outcomes {
        take_out(log, outcome);
    }
}

/// Takes out the exposure of an outcome, if it was taken.
fn take_out(log: &mut ExposureLog, outcome: &Outcome)
    ensures { log.new ≡ record log.old
        { exposures = without_one outcome.now log.old.exposures } }
{
    match outcome {
        Outcome::Taken(epoch, site, _) => {
            log.remove(*epoch, site.bytes());
        }
        Outcome::Refused(_, _) => {}
    }
}

/// Holds an exposure, and says what came of it. Where memory is wanting, nothing changes.
fn hold_one(alloc: Global, log: &mut ExposureLog, exposure: Exposure) -> Result<Outcome, NoMemory>
    ensures ok { IfOk result (λ outcome. HoldsOne log.old exposure outcome log.new) }
    ensures err { OnErr result (log.new ≡ log.old) }
    ensures epoch { IsEpoch exposure.epoch }
    ensures orderly { IsOrderly log.old }
{
    let _ = log.window();
    let epoch = exposure.epoch();
    let site = Word::new(alloc, exposure.site())?;
    match log.hold(exposure) {
        Ok(count) => Ok(Outcome::Taken(epoch, site, count)),
        Err(NotHeld::Refused(cause, back)) => Ok(Outcome::Refused(cause, back)),
        Err(NotHeld::NoMemory) => Err(AllocError),
    }
}
