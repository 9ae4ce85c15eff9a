//! How an object of a made sky moves, and how it is detected.
ghost use Rattle.std.specs.Prelude.{◌≡◌, ◌<◌, pos, neg_ℤ, IfOk, IsTrue};
ghost use Rattle.sky_units.specs.Ranges.{IsBetween, IsRightAscension, IsDeclination};
ghost use Rattle.miti_text.specs.Observation.{is_id, is_name};
ghost use Rattle.made_sky.specs.Draws.{after_draws};
ghost use Rattle.made_sky.specs.Motions.{dec_at, id_of, motion_from, moved, name_of, ra_at, sighted, since, AreTicks, IsAcceleration, IsMotion, IsRate};

use crate::draws::Draws;
use miti_text::Detection;
use sky_units::{NoMemory, Word};
use std::alloc::Global;

/// One turn, in 10^-6 degree.
const FULL_TURN: u32 = 360_000_000;

/// The epoch of a sky's first exposure, in ticks.
const FIRST_EPOCH: i64 = 59_000_250_000;

/// A day, in ticks.
const TICKS_PER_DAY: i64 = 1_000_000;

/// Twice the square of a day, in square ticks.
const TWICE_A_DAY_SQUARED: i64 = 2_000_000_000_000;

/// The ticks from the first exposure of a night to its second.
const TICKS_BETWEEN: i64 = 20_000;

/// The magnitude of all detections, in 10^-3.
const MAGNITUDE: i64 = 20_000;

/// The site of all detections.
const SITE: &[u8] = b"500";

/// Where an object is at the first exposure, in 10^-6 degree, its rates in that a day, and its
/// accelerations in that a day and day.
#[derive(Clone, Copy, Debug)]
pub struct Motion {
    pub ra: i64,
    pub dec: i64,
    pub ra_rate: i64,
    pub dec_rate: i64,
    pub ra_acceleration: i64,
    pub dec_acceleration: i64,
}

impl Motion {
    /// The motion that the next six draws make.
    pub fn drawn(draws: &mut Draws) -> Motion
        ensures draws { draws.new ≡ after_draws 6 draws.old }
        ensures motion { result ≡ motion_from draws.old }
    {
        Motion {
            ra: ((355_000_000 + draws.draw(10_000_000)) % FULL_TURN) as i64,
            dec: draws.draw(10_000_000) as i64 - 5_000_000,
            ra_rate: draws.draw(600_001) as i64 - 300_000,
            dec_rate: draws.draw(200_001) as i64 - 100_000,
            ra_acceleration: draws.draw(20_001) as i64 - 10_000,
            dec_acceleration: draws.draw(20_001) as i64 - 10_000,
        }
    }

    /// The detection of the object of this number and motion in an exposure, 0 or 1, of a night.
    #[tactic(auto, unfolding(crate::specs::Motions::sighted))]
    pub fn sighted(
        &self,
        alloc: Global,
        night: u32,
        exposure: u32,
        object: u32,
    ) -> Result<Detection, NoMemory>
        requires motion { IsMotion self.now }
        requires night { night < 30 }
        requires exposure { exposure < 2 }
        ensures { IfOk result (λ detection. detection ≡ sighted self.now night exposure object) }
    {
        let ticks = ticks_since(night, exposure);
        Ok(Detection {
            id: detection_id(alloc, night, exposure, object)?,
            epoch: FIRST_EPOCH + ticks,
            ra: self.ra_at(ticks),
            dec: self.dec_at(ticks),
            mag: MAGNITUDE,
            site: Word::new(alloc, SITE)?,
            name: object_name(alloc, object)?,
        })
    }

    /// The right ascension after some ticks, in 10^-6 degree.
    fn ra_at(&self, ticks: i64) -> i64
        requires motion { IsMotion self.now }
        requires ticks { AreTicks ticks }
        ensures value { result ≡ ra_at self.now ticks }
        ensures range { IsRightAscension result }
    {
        let moved = moved(self.ra_rate, self.ra_acceleration, ticks);
        (self.ra + moved).rem_euclid(FULL_TURN as i64)
    }

    /// The declination after some ticks, in 10^-6 degree.
    fn dec_at(&self, ticks: i64) -> i64
        requires motion { IsMotion self.now }
        requires ticks { AreTicks ticks }
        ensures value { result ≡ dec_at self.now ticks }
        ensures range { IsDeclination result }
    {
        self.dec + moved(self.dec_rate, self.dec_acceleration, ticks)
    }
}

/// How far a rate and an acceleration lead in some ticks, in 10^-6 degree.
fn moved(rate: i64, acceleration: i64, ticks: i64) -> i64
    requires rate { IsRate rate }
    requires acceleration { IsAcceleration acceleration }
    requires ticks { AreTicks ticks }
    ensures value { result ≡ moved rate acceleration ticks }
    ensures range { IsBetween (neg_ℤ (pos 13000000)) (pos 13000000) result }
{
    let by_rate = (rate * ticks).div_euclid(TICKS_PER_DAY);
    let by_acceleration = (acceleration * (ticks * ticks)).div_euclid(TWICE_A_DAY_SQUARED);
    by_rate + by_acceleration
}

/// The ticks from the first exposure of the sky to an exposure of a night.
fn ticks_since(night: u32, exposure: u32) -> i64
    requires night { night < 30 }
    requires exposure { exposure < 2 }
    ensures value { result ≡ pos (since night exposure) }
    ensures range { AreTicks result }
{
    night as i64 * TICKS_PER_DAY + exposure as i64 * TICKS_BETWEEN
}

/// The id of a detection.
fn detection_id(alloc: Global, night: u32, exposure: u32, object: u32) -> Result<Word, NoMemory>
    ensures value { IfOk result (λ id. id ≡ id_of night exposure object) }
    ensures rule { IfOk result (λ id. IsTrue (is_id id)) }
{
    let text = format!(in alloc; "g{object}n{night}e{exposure}")?;
    Word::new(alloc, text.as_bytes())
}

/// The name of an object.
fn object_name(alloc: Global, object: u32) -> Result<Word, NoMemory>
    ensures value { IfOk result (λ name. name ≡ name_of object) }
    ensures rule { IfOk result (λ name. IsTrue (is_name name)) }
{
    let text = format!(in alloc; "obj{object}")?;
    Word::new(alloc, text.as_bytes())
}
