//! The settings of the linker.
ghost use Rattle.std.specs.Prelude.{◌≡◌};
ghost use Rattle.sky_units.specs.SettingsData.{standard_settings};

use std::marker::Model;

/// The settings of the linker, each in its range.
#[derive(Clone, Copy, Debug, PartialEq, Eq)]
pub struct Settings {
    /// How far a detection may lie off a track in right ascension, in 10^-6 degree: 0 to 100,000.
    pub tol_ra: i64,
    /// The same in declination.
    pub tol_dec: i64,
    /// The greatest acceleration in right ascension, in 10^-6 degree per day squared: 0 to 1,000,000.
    pub acc_ra: i64,
    /// The same in declination.
    pub acc_dec: i64,
    /// The greatest rate in right ascension, in 10^-6 degree per day: 0 to 10,000,000.
    pub rate_ra: i64,
    /// The same in declination.
    pub rate_dec: i64,
    /// How far a detection may lie off the line of its group, in 10^-6 degree: 0 to 100,000.
    pub line_tol: i64,
    /// How far a detection may lie off the line of its tracklet, in 10^-6 degree: 0 to 100,000.
    pub purge_tol: i64,
    /// The longest time between the two detections of a pair, in ticks: 1 to 1,000,000.
    pub pair_gap: i64,
    /// What is added to an epoch before its night is counted, in ticks: 0 to 999,999.
    pub night_shift: i64,
    /// Which steps make tracklets: 1 pairs alone, 2 pairs collapsed into groups, 3 groups purged too.
    pub stages: i64,
}

impl Model for Settings {
    ghost use Rattle.sky_units.specs.SettingsData.{SettingsData, AreSettings, settings_data};

    ghost Value = { SettingsData };

    ghost view = { λ s. settings_data s.tol_ra s.tol_dec s.acc_ra s.acc_dec s.rate_ra s.rate_dec
        s.line_tol s.purge_tol s.pair_gap s.night_shift s.stages };

    ghost invariant = { λ s. AreSettings
        (settings_data s.tol_ra s.tol_dec s.acc_ra s.acc_dec s.rate_ra s.rate_dec s.line_tol
        s.purge_tol s.pair_gap s.night_shift s.stages) };

    ghost inverse = { λ s. record {
      tol_ra = s.tol_ra;
      tol_dec = s.tol_dec;
      acc_ra = s.acc_ra;
      acc_dec = s.acc_dec;
      rate_ra = s.rate_ra;
      rate_dec = s.rate_dec;
      line_tol = s.line_tol;
      purge_tol = s.purge_tol;
      pair_gap = s.pair_gap;
      night_shift = s.night_shift;
      stages = s.stages;
    } };
}

impl Settings {
    /// The default settings.
    pub fn standard() -> Settings
        ensures { result ≡ standard_settings }
    {
        Settings {
            tol_ra: 300,
            tol_dec: 300,
            acc_ra: 20_000,
            acc_dec: 20_000,
            rate_ra: 500_000,
            rate_dec: 500_000,
            line_tol: 300,
            purge_tol: 200,
            pair_gap: 62_500,
            night_shift: 0,
            stages: 3,
        }
    }
}
