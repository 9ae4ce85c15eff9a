//! `summary`: the statistics of a made sky that is linked.
ghost use Rattle.std.specs.Prelude.{◌≡◌, IfOk};
ghost use Rattle.sky_units.specs.declared.statistics.Stats.{Stats as StatsData};
ghost use Rattle.made_sky.specs.MadeSky.{made_detections};
ghost use Rattle.mops_run.specs.Forms.{IsPlan, sky_of};
ghost use Rattle.mops_run.specs.Runs.{Summarizes};
ghost use Rattle.mops_run.specs.State.{start};
ghost use Rattle.mops_run.specs.Summing.{IsSummary, summary_text};
ghost use Rattle.mops_run.specs.Work.{IsWorkToLink};

use crate::forms::SkyPlan;
use crate::linking::link_all;
use crate::output::put;
use crate::top::Status;
use made_sky::{Sighting, Sky};
use miti_text::Detection;
use outer_io::Sink;
use sky_units::{NoMemory, Settings, Stats, Tally};
use std::alloc::Global;
use track_report::{Reply, write_reply};
use window_incr::Linker;

/// Links the detections of a made sky as `link` does, and writes the statistics on the sink.
pub fn summarize<O: Sink>(alloc: Global, plan: SkyPlan, sink: &mut O, tally: &mut Tally) -> Status
    requires { IsPlan plan }
    ensures summary { Summarizes plan result (O.receipt sink.old) (O.receipt sink.new) }
    ensures work { IsWorkToLink start.linker (made_detections (sky_of plan)) tally.old tally.new }
{
    let Ok(text) = write_summary(alloc, plan, tally) else {
        return Status::NoMemory;
    };
    match put(sink, text.as_slice()) {
        Ok(()) => Status::Done,
        Err(_) => Status::WriteFault,
    }
}

/// The text of the summary of a made sky.
fn write_summary(alloc: Global, plan: SkyPlan, tally: &mut Tally) -> Result<Vec<u8>, NoMemory>
    requires { IsPlan plan }
    ensures text { IfOk result (λ text. (stats : StatsData) × IsSummary (sky_of plan) stats ×
        (text.items ≡ summary_text plan stats)) }
    ensures work { IsWorkToLink start.linker (made_detections (sky_of plan)) tally.old tally.new }
{
    let stats = stats_of(alloc, plan, tally)?;
    let reply = Reply::Summary(plan.number, plan.nights, plan.objects, stats);
    write_reply(alloc, &reply)
}

/// The statistics of a made sky whose detections are linked at once.
fn stats_of(alloc: Global, plan: SkyPlan, tally: &mut Tally) -> Result<Stats, NoMemory>
    requires { IsPlan plan }
    ensures summary { IfOk result (IsSummary (sky_of plan)) }
    ensures work { IsWorkToLink start.linker (made_detections (sky_of plan)) tally.old tally.new }
{
    let sky = Sky::new(alloc, plan.number, plan.nights, plan.objects)?;
    let detections = detections_of(alloc, &sky)?;
    let mut linker = Linker::new(alloc, Settings::standard())?;
    link_all(alloc, &mut linker, detections, tally)?;
    linker.stats()
}

/// The detections of a sky.
fn detections_of(alloc: Global, sky: &Sky) -> Result<Vec<Detection>, NoMemory>
    ensures { IfOk result (λ detections. detections.items ≡ made_detections sky.now) }
{
    let mut detections = Vec::new(alloc);
    let mut sightings = sky.sightings();
    while let Some(sighting) = sightings.next() {
        let Sighting {
            night,
            exposure,
            object,
        } = sighting;
        detections.push(sky.detection(alloc, night, exposure, object)?)?;
    }
    Ok(detections)
}
