//! Spots: detections in time and on the sky.
use std::marker::Model;

/// Where a detection stands in time and on the sky, with a label of its user's.
#[derive(Clone, Copy, Debug, PartialEq, Eq)]
pub struct Spot {
    /// A label, as the detection's number.
    pub num: u32,
    /// The time, in ticks: 0 to 200,000,000,000.
    pub epoch: i64,
    /// The right ascension, in 10^-6 degree: 0 to 359,999,999.
    pub ra: i64,
    /// The declination, in 10^-6 degree: -90,000,000 to 90,000,000.
    pub dec: i64,
}

impl Model for Spot {
    ghost use Rattle.sky_units.specs.SpotData.{SpotData};
    ghost use Rattle.sky_units.specs.Ranges.{IsSpot};

    ghost Value = { SpotData };

    ghost view = { λ s. record { num = s.num; epoch = s.epoch; ra = s.ra; dec = s.dec } };

    ghost invariant = { λ s. IsSpot s.epoch s.ra s.dec };

    ghost inverse = { λ s. record { num = s.num; epoch = s.epoch; ra = s.ra; dec = s.dec } };
}
