//! `generate`: the detection lines of a made sky.
ghost use Rattle.std.specs.Prelude.{◌≡◌, OnOk, Err};
ghost use Rattle.made_sky.specs.MadeSky.{detection_line, made_detection, made_text};
ghost use Rattle.made_sky.specs.Sightings.{IsSighting};
ghost use Rattle.mops_run.specs.Forms.{IsPlan, sky_of};
ghost use Rattle.mops_run.specs.Output.{WritesText, FailsIn};
ghost use Rattle.mops_run.specs.Promise.{Writes};

use crate::forms::SkyPlan;
use crate::output::{Stop, put};
use crate::top::Status;
use made_sky::{Sighting, Sky};
use outer_io::Sink;
use std::alloc::Global;

/// Writes the detection lines of a made sky on the sink, one after another. It takes the memory of
/// the objects' motions and of one line.
pub fn generate<O: Sink>(alloc: Global, plan: SkyPlan, sink: &mut O) -> Status
    requires { IsPlan plan }
    ensures { Writes result (O.receipt sink.old) (O.receipt sink.new) (made_text (sky_of plan)) }
{
    let Ok(sky) = Sky::new(alloc, plan.number, plan.nights, plan.objects) else {
        return Status::NoMemory;
    };
    write_lines(alloc, &sky, sink)
}

/// Writes the lines of a sky.
fn write_lines<O: Sink>(alloc: Global, sky: &Sky, sink: &mut O) -> Status
    ensures { Writes result (O.receipt sink.old) (O.receipt sink.new) (made_text sky.now) }
{
    let mut sightings = sky.sightings();
    while let Some(sighting) = sightings.next() {
        match write_sighting(alloc, sky, sighting, sink) {
            Ok(()) => {}
            Err(Stop::WriteFault) => return Status::WriteFault,
            Err(Stop::NoMemory) => return Status::NoMemory,
        }
    }
    Status::Done
}

/// Writes the line of one detection.
fn write_sighting<O: Sink>(
    alloc: Global,
    sky: &Sky,
    sighting: Sighting,
    sink: &mut O,
) -> Result<(), Stop>
    requires { IsSighting sky.now.nights sky.now.objects sighting }
    ensures ok { OnOk result (WritesText (O.receipt sink.old) (O.receipt sink.new) (detection_line
        (made_detection sky.now sighting.night sighting.exposure sighting.object))) }
    ensures memory { result ≡ Err Stop.NoMemory → sink.new ≡ sink.old }
    ensures fault { result ≡ Err Stop.WriteFault →
        FailsIn (O.receipt sink.old) (O.receipt sink.new) (detection_line
        (made_detection sky.now sighting.night sighting.exposure sighting.object)) }
{
    let Sighting {
        night,
        exposure,
        object,
    } = sighting;
    let mut line = Vec::new(alloc);
    sky.append_line(&mut line, night, exposure, object)?;
    put(sink, line.as_slice())?;
    Ok(())
}
