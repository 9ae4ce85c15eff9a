//! The test of two spots.

ghost use Rattle.std.specs.Prelude.{◌≡◌, pos, negsuc};
ghost use Rattle.sky_units.specs.Ranges.{IsBetween};
ghost use Rattle.sky_units.specs.Pairs.{keeps_rate as keeps_rate_of, are_pair as are_pair_of};

use sky_units::{Settings, Spot, wrap};

/// The ticks of a day, over which rates are counted.
pub const TICKS_PER_DAY: i64 = 1_000_000;

/// Whether two spots of one night are a pair, the first one earlier.
pub fn are_pair(first: &Spot, second: &Spot, settings: &Settings) -> bool
    ensures { result ≡ are_pair_of settings.now first.now second.now }
{
    if second.epoch <= first.epoch {
        return false;
    }
    let ticks = second.epoch - first.epoch;
    if ticks > settings.pair_gap {
        return false;
    }
    if !keeps_rate(wrap(second.ra - first.ra), settings.rate_ra, ticks) {
        return false;
    }
    keeps_rate(second.dec - first.dec, settings.rate_dec, ticks)
}

/// Whether a difference of positions over so many ticks keeps the rate.
fn keeps_rate(difference: i64, rate: i64, ticks: i64) -> bool
    requires difference { IsBetween (negsuc 179999999) (pos 180000000) difference }
    requires rate { IsBetween (pos 0) (pos 10000000) rate }
    requires ticks { IsBetween (pos 0) (pos 1000000) ticks }
    ensures { result ≡ keeps_rate_of rate ticks difference }
{
    let reach = rate * ticks;
    let moved = difference * TICKS_PER_DAY;
    -reach <= moved && moved <= reach
}
