//! The order of a made sky's detections: by night, then by exposure, then by object.
ghost use Rattle.std.specs.Prelude.{◌≡◌, ◌∷◌, ◌<◌, [], MatchOption, IfSome};
ghost use Rattle.made_sky.specs.Sightings.{sighting, sightings, sightings_from, sightings_left, IsSighting};

use std::marker::Model;

/// An object, by its number, in an exposure, 0 or 1, of a night; all count from 0.
#[derive(Clone, Copy, Debug)]
pub struct Sighting {
    pub night: u32,
    pub exposure: u32,
    pub object: u32,
}

/// A walk through the sightings of a sky, in their order.
#[derive(Debug, Drop)]
pub struct Sightings {
    nights: u32,
    objects: u32,
    next: Option<Sighting>,
}

impl Model for Sightings {
    ghost use Rattle.std.specs.Prelude.{IfSome};
    ghost use Rattle.made_sky.specs.Sightings.{sightings_left, IsSighting, Walk};

    ghost Value = { Walk };

    ghost view = { λ w. record {
      nights = w.nights;
      objects = w.objects;
      left = sightings_left w.nights w.objects w.next;
    } };

    ghost invariant = { λ w. IfSome w.next (IsSighting w.nights w.objects) };
}

impl Sightings {
    /// The walk through a sky of so many nights and objects, at least one of each.
    pub(crate) fn new(nights: u32, objects: u32) -> Sightings
        requires nights { 0 < nights }
        requires objects { 0 < objects }
        ensures nights { result.nights ≡ nights }
        ensures objects { result.objects ≡ objects }
        ensures left { result.left ≡ sightings nights objects }
    {
        Sightings {
            nights,
            objects,
            next: Some(at(0, 0, 0)),
        }
    }

    /// The next sighting; None after the last one.
    pub fn next(&mut self) -> Option<Sighting>
        ensures left { MatchOption result (self.old.left ≡ []) (λ s. self.old.left ≡
            s ∷ self.new.left) }
        ensures inside { IfSome result (IsSighting self.old.nights self.old.objects) }
        ensures nights { self.new.nights ≡ self.old.nights }
        ensures objects { self.new.objects ≡ self.old.objects }
    {
        let sighting = self.next?;
        self.next = following(self.nights, self.objects, sighting);
        Some(sighting)
    }
}

/// The sighting behind one of a sky of so many nights and objects; None behind the last one.
fn following(nights: u32, objects: u32, sighting: Sighting) -> Option<Sighting>
    requires { IsSighting nights objects sighting }
    ensures rest { sightings_from nights objects sighting ≡
        sighting ∷ sightings_left nights objects result }
    ensures inside { IfSome result (IsSighting nights objects) }
{
    let Sighting {
        night,
        exposure,
        object,
    } = sighting;
    if object + 1 < objects {
        return Some(at(night, exposure, object + 1));
    }
    if exposure == 0 {
        return Some(at(night, 1, 0));
    }
    if night + 1 < nights {
        return Some(at(night + 1, 0, 0));
    }
    None
}

/// The sighting of an object in an exposure of a night.
fn at(night: u32, exposure: u32, object: u32) -> Sighting
    ensures { result ≡ sighting night exposure object }
{
    Sighting {
        night,
        exposure,
        object,
    }
}
