//! The night of an epoch.
ghost use Rattle.std.specs.Prelude.{◌≡◌};
ghost use Rattle.sky_math.specs.Night.{night_at};
ghost use Rattle.sky_units.specs.Ranges.{IsEpoch};
ghost use Rattle.sky_units.specs.SettingRanges.{IsNightShift};

/// A day, in ticks.
const TICKS_PER_DAY: i64 = 1_000_000;

/// The night of an epoch under a night shift, both in ticks: the whole days of their sum
/// (the definition `night_at`).
pub fn night_of(epoch: i64, shift: i64) -> i64
    requires epoch { IsEpoch epoch }
    requires shift { IsNightShift shift }
    ensures { result ≡ night_at shift epoch }
{
    (epoch + shift) / TICKS_PER_DAY
}
