//! The lines of made skies, and how many there are.
ghost use Rattle.std.specs.Prelude.{◌≡◌, IfOk};
ghost use Rattle.made_sky.specs.MadeSky.{made_text};

use super::*;
use sky_units::NoMemory;
use std::alloc::Global;

/// The text of a sky.
fn text_of(alloc: Global, sky: &Sky) -> Result<Vec<u8>, NoMemory>
    ensures { IfOk result (λ text. text.items ≡ made_text sky.now) }
{
    let mut text = Vec::new(alloc);
    let mut sightings = sky.sightings();
    while let Some(sighting) = sightings.next() {
        let Sighting {
            night,
            exposure,
            object,
        } = sighting;
        sky.append_line(&mut text, night, exposure, object)?;
    }
    Ok(text)
}

/// How many detections a sky has.
fn count(sky: &Sky) -> u32 {
    let mut sightings = sky.sightings();
    let mut count = 0u32;
    while sightings.next().is_some() {
        count = count.wrapping_add(1);
    }
    count
}

#[test]
fn made_sky_of_one_object(rt: HostRuntime) -> Result<(), NoMemory> {
    let sky = Sky::new(rt.alloc(), 1, 1, 1)?;
    let text = text_of(rt.alloc(), &sky)?;
    assert_eq!(rt;
        text.as_slice(),
        b"g0n0e0 59000.250000 0.138700 -3.242587 20.000 500 obj0
g0n0e1 59000.270000 0.136404 -3.242451 20.000 500 obj0
"
            .as_slice()
    );
    let detection = sky.detection(rt.alloc(), 0, 1, 0)?;
    assert_eq!(rt;
        [detection.epoch, detection.ra, detection.dec],
        [59_000_270_000, 136_404, -3_242_451]
    );
    Ok(())
}

#[test]
fn made_skies_of_many_nights(rt: HostRuntime) -> Result<(), NoMemory> {
    let sky = Sky::new(rt.alloc(), 7, 14, 300)?;
    assert_eq!(rt; count(&sky), 8400);
    let last = sky.detection(rt.alloc(), 13, 1, 299)?;
    assert_eq!(rt;
        [last.epoch, last.ra, last.dec],
        [59_013_270_000, 697_735, -2_874_031]
    );
    let sky = Sky::new(rt.alloc(), 3, 30, 20)?;
    assert_eq!(rt; count(&sky), 1200);
    let last = sky.detection(rt.alloc(), 29, 1, 19)?;
    assert_eq!(rt;
        [last.epoch, last.ra, last.dec],
        [59_029_270_000, 6_941_023, 3_105_687]
    );
    Ok(())
}
