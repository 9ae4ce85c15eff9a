//! A detection, as a line of seven words tells it.
use sky_units::Word;
use std::marker::Model;

/// A detection of a moving object on the sky.
#[derive(Debug, Drop)]
pub struct Detection {
    /// The id: 1 to 64 visible bytes that begin with neither `!` nor `#`.
    pub id: Word,
    /// The time, in ticks of 10^-6 day of the modified Julian date: 0 to 200,000,000,000.
    pub epoch: i64,
    /// The right ascension, in 10^-6 degree: 0 to 359,999,999.
    pub ra: i64,
    /// The declination, in 10^-6 degree: -90,000,000 to 90,000,000.
    pub dec: i64,
    /// The magnitude, in 10^-3: -1,000,000 to 1,000,000.
    pub mag: i64,
    /// The observing site: 1 to 8 visible bytes.
    pub site: Word,
    /// The name of the object: 1 to 64 visible bytes; `NS` or `-` where there is none.
    pub name: Word,
}

impl Model for Detection {
    ghost use Rattle.miti_text.specs.Observation.{Observation, IsDetection};

    ghost Value = { Observation };

    ghost view = { λ d. record {
      id = d.id;
      epoch = d.epoch;
      ra = d.ra;
      dec = d.dec;
      mag = d.mag;
      site = d.site;
      name = d.name;
    } };

    ghost invariant = { λ d. IsDetection
        (record {
          id = d.id;
          epoch = d.epoch;
          ra = d.ra;
          dec = d.dec;
          mag = d.mag;
          site = d.site;
          name = d.name;
        }) };
}
