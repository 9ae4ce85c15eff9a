//! A made sky: only the motions of its objects are held.
ghost use Rattle.std.specs.Prelude.{◌≡◌, ◌++◌, ◌<◌, ◌≤◌, IfOk, OnOk};
ghost use Rattle.made_sky.specs.MadeSky.{detection_line, made_detection};
ghost use Rattle.made_sky.specs.Sightings.{sightings};

use crate::draws::Draws;
use crate::motions::Motion;
use crate::sightings::Sightings;
use miti_text::{Detection, write_line};
use sky_units::NoMemory;
use std::alloc::Global;
use std::marker::Model;

/// A sky that is made from one number: some objects, over some nights of two exposures each.
#[derive(Debug, Drop)]
pub struct Sky {
    number: u32,
    nights: u32,
    objects: u32,
    motions: Vec<Motion>,
}

impl Model for Sky {
    ghost use Rattle.std.specs.Prelude.{◌≡◌, ◌≤◌, ◌<◌, map};
    ghost use Rattle.std.specs.List.{range_with_len};
    ghost use Rattle.made_sky.specs.MadeSky.{MadeSky};
    ghost use Rattle.made_sky.specs.Motions.{motion_of};

    ghost Value = { MadeSky };

    ghost view = { λ s. record {
      number = s.number;
      nights = s.nights;
      objects = s.objects;
    } };

    ghost invariant = { λ s. (s.motions.items ≡ map (motion_of s.number) (range_with_len 0 s.objects))
        × (0 < s.nights) × (s.nights ≤ 30) × (0 < s.objects) };
}

impl Sky {
    /// The sky of a number: `objects` objects over `nights` nights, at least one of each and at most
    /// thirty nights. It takes the memory of the objects' motions.
    pub fn new(alloc: Global, number: u32, nights: u32, objects: u32) -> Result<Sky, NoMemory>
        requires some_nights { 0 < nights }
        requires few_nights { nights ≤ 30 }
        requires objects { 0 < objects }
        ensures { IfOk result (λ sky. sky ≡
            record { number = number; nights = nights; objects = objects }) }
    {
        let mut draws = Draws::new(number);
        let mut motions = Vec::new(alloc);
        for _ in 0..objects {
            motions.push(Motion::drawn(&mut draws))?;
        }
        Ok(Sky {
            number,
            nights,
            objects,
            motions,
        })
    }

    /// The sightings of the sky, in the order of its detections.
    pub fn sightings(&self) -> Sightings
        ensures nights { result.nights ≡ self.now.nights }
        ensures objects { result.objects ≡ self.now.objects }
        ensures left { result.left ≡ sightings self.now.nights self.now.objects }
    {
        Sightings::new(self.nights, self.objects)
    }

    /// The detection of an object in an exposure, 0 or 1, of a night; all count from 0.
    pub fn detection(
        &self,
        alloc: Global,
        night: u32,
        exposure: u32,
        object: u32,
    ) -> Result<Detection, NoMemory>
        requires night { night < self.now.nights }
        requires exposure { exposure < 2 }
        requires object { object < self.now.objects }
        ensures { IfOk result (λ detection. detection ≡
            made_detection self.now night exposure object) }
    {
        self.motions[object as usize].sighted(alloc, night, exposure, object)
    }

    /// Adds the line of a detection, with its line feed. Where memory is wanting a front of it may
    /// have been added.
    pub fn append_line(
        &self,
        text: &mut Vec<u8>,
        night: u32,
        exposure: u32,
        object: u32,
    ) -> Result<(), NoMemory>
        requires night { night < self.now.nights }
        requires exposure { exposure < 2 }
        requires object { object < self.now.objects }
        ensures { OnOk result (text.new.items ≡ text.old.items
            ++ detection_line (made_detection self.now night exposure object)) }
    {
        let alloc = *text.allocator();
        let detection = self.detection(alloc, night, exposure, object)?;
        text.extend_from_slice(write_line(alloc, &detection)?.as_slice())?;
        text.push(b'\n')?;
        Ok(())
    }
}
