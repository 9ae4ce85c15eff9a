//! How far rates lead over some time, and what is within reach.

ghost use Rattle.std.specs.Prelude.{◌↔◌, ◌⊎◌, pos, negsuc, IsTrue};
ghost use Rattle.sky_units.specs.Ranges.{IsBetween};
ghost use Rattle.bound_prune.specs.Bounds.{Reaches};
ghost use Rattle.bound_prune.specs.EndsData.{AreUsual};
ghost use Rattle.bound_prune.specs.Times.{AreInOrder, IsTravel};

use crate::rates::Rates;
use crate::times::Times;
use crate::ways::{WAY_SCALE, farthest, gained};
use sky_units::{Axis, Settings};

/// The farthest ways on an axis from one tracklet to a later one, in 1 / 2,000,000 of 10^-6 degree.
#[derive(Clone, Copy)]
pub struct Travel {
    /// Ahead, with rising positions.
    pub ahead: i128,
    /// Back, with falling ones.
    pub back: i128,
}

/// The farthest ways on an axis, by the rates of two tracklets and what the acceleration adds to them while they last.
pub fn farthest_ways(axis: Axis, a: Rates, b: Rates, settings: &Settings, times: &Times) -> Travel
    requires a { AreUsual a }
    requires b { AreUsual b }
    requires order { AreInOrder times.now }
    requires lasts { IsBetween (pos 0) (pos 59999998) times.now.lasting }
    ensures { IsTravel axis settings.now a b times.now result }
{
    let gained = gained(axis, settings, times);
    Travel {
        ahead: farthest(a.greatest + b.greatest + gained, times),
        back: farthest(gained - (a.least + b.least), times),
    }
}

/// Whether a way leads from within the tolerance of one place to within that of another.
pub fn is_reached(tol: i64, distance: i64, way: i128) -> bool
    requires tol { IsBetween (pos 0) (pos 100000) tol }
    requires distance { IsBetween (negsuc 1079999999) (pos 1080000000) distance }
    ensures { IsTrue result ↔ Reaches tol distance way }
{
    let wanted = WAY_SCALE * (distance - (tol + tol));
    wanted as i128 <= way
}

/// Whether a way leads as far as one distance ahead, or as far as another one back.
pub fn is_either_reached(tol: i64, ahead: i64, back: i64, ways: &Travel) -> bool
    requires tol { IsBetween (pos 0) (pos 100000) tol }
    requires ahead { IsBetween (negsuc 1079999999) (pos 1080000000) ahead }
    requires back { IsBetween (negsuc 1079999999) (pos 1080000000) back }
    ensures { IsTrue result ↔ (Reaches tol ahead ways.now.ahead ⊎ Reaches tol back ways.now.back) }
{
    if is_reached(tol, ahead, ways.ahead) {
        return true;
    }
    is_reached(tol, back, ways.back)
}
