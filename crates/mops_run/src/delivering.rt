//! Delivering the detections that wait: they are gathered into exposures, which are added in order.
ghost use Rattle.std.specs.Prelude.{◌≡◌, ◌<◌, ◌^◌, [], IfOk, length, map, slice_get};
ghost use Rattle.std.specs.Option.{option_map_or};
ghost use Rattle.mops_run.specs.Deliveries.{DeliversAll, Delivers, named_id as named_id_of, reply_of};
ghost use Rattle.mops_run.specs.Work.{IsWorkToDeliver, IsWorkToHold};

use exposure_log::{AddError, Exposure, Outcome, gather};
use miti_text::Detection;
use sky_units::{NoMemory, Tally, Word};
use std::alloc::Global;
use track_report::Reply;
use window_incr::Linker;

/// Delivers the detections that wait to the linker, and gives the replies: one for each exposure, in
/// order of epoch and site.
pub fn deliver(
    alloc: Global,
    linker: &mut Linker,
    waiting: Vec<Detection>,
    tally: &mut Tally,
) -> Result<Vec<Reply>, NoMemory>
    requires { length waiting.items < 2 ^ 32 }
    ensures replies { IfOk result (λ replies.
        Delivers linker.old.state waiting.items replies.items linker.new.state) }
    ensures work { IsWorkToDeliver linker.old.state waiting.items tally.old tally.new }
{
    let exposures = gather(alloc, waiting)?;
    add_all(alloc, linker, exposures, tally)
}

/// Adds exposures one after another, and gives the reply to each.
fn add_all(
    alloc: Global,
    linker: &mut Linker,
    exposures: Vec<Exposure>,
    tally: &mut Tally,
) -> Result<Vec<Reply>, NoMemory>
    ensures replies { IfOk result (λ replies.
        DeliversAll linker.old.state exposures.items replies.items linker.new.state) }
    ensures work { IsWorkToHold linker.old.state exposures.items tally.old tally.new }
{
    let _ = linker.nights();
    let outcomes = linker.hold_all(exposures, tally)?;
    replies_to(alloc, outcomes)
}

/// The replies that tell what came of exposures.
fn replies_to(alloc: Global, outcomes: Vec<Outcome>) -> Result<Vec<Reply>, NoMemory>
    ensures { IfOk result (λ replies. replies.items ≡ map reply_of outcomes.items) }
{
    let mut replies = Vec::with_capacity(alloc, outcomes.len())?;
    for outcome in outcomes {
        replies.push(reply_to(alloc, outcome)?)?;
    }
    Ok(replies)
}

/// The reply that tells what came of an exposure.
fn reply_to(alloc: Global, outcome: Outcome) -> Result<Reply, NoMemory>
    ensures { IfOk result (λ reply. reply ≡ reply_of outcome) }
{
    match outcome {
        Outcome::Taken(epoch, site, count) => Ok(Reply::Added(epoch, site, count)),
        Outcome::Refused(error, exposure) => {
            let site = Word::new(alloc, exposure.site())?;
            let id = named_id(alloc, error, &exposure)?;
            Ok(Reply::Refused(exposure.epoch(), site, error, id))
        }
    }
}

/// The id that a refusal names, which is empty where it names none.
fn named_id(alloc: Global, error: AddError, exposure: &Exposure) -> Result<Word, NoMemory>
    ensures { IfOk result (λ id. id ≡ named_id_of error exposure.now) }
{
    match error {
        AddError::Id(place) => id_at(alloc, exposure.detections(), place),
        _ => Word::new(alloc, b""),
    }
}

/// The id of the detection at a place, which is empty where there is none.
fn id_at(alloc: Global, detections: &[Detection], place: u32) -> Result<Word, NoMemory>
    ensures { IfOk result (λ id. id ≡
        option_map_or (λ d. d.id) (slice_get detections.now place) []) }
{
    match detections.get(place as usize) {
        Some(detection) => detection.id.clone(),
        None => Word::new(alloc, b""),
    }
}
