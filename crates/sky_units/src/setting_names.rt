//! Settings by their names, and how one is changed.
ghost use Rattle.std.specs.Prelude.{◌≡◌, ◌≤ℤ◌, MatchResult, IsOk};
ghost use Rattle.sky_units.specs.SettingNames.{setting_named, with_value, set_named};
ghost use Rattle.sky_units.specs.SettingRanges.{lowest, highest};

use crate::Settings;
use thiserror::Error;

/// Why a setting isn't changed. The reasons are tested in this order.
#[derive(Clone, Copy, Debug, PartialEq, Eq, Error)]
pub enum SetError {
    /// No setting has this name.
    #[error("no such setting")]
    Name,
    /// The value lies outside the setting's range.
    #[error("value out of range")]
    Range,
    /// A window was set; `Settings::set` never answers it.
    #[error("settings can't be changed once a window was set")]
    Late,
}

/// One of the settings.
#[derive(Clone, Copy)]
enum Setting {
    TolRa,
    TolDec,
    AccRa,
    AccDec,
    RateRa,
    RateDec,
    LineTol,
    PurgeTol,
    PairGap,
    NightShift,
    Stages,
}

impl Settings {
    /// Changes the setting of this name. `Name` comes where there is none of this name, and
    /// otherwise `Range` where the value lies outside its range; nothing is changed then.
    pub fn set(&mut self, name: &[u8], value: i64) -> Result<(), SetError>
        ensures { MatchResult (set_named name.now value self.old) (λ settings. IsOk result ×
            (self.new ≡ settings)) (λ error. (result ≡ Err error) × (self.new ≡ self.old)) }
    {
        let Some(setting) = named(name) else {
            return Err(SetError::Name);
        };
        let (low, high) = range(setting);
        if value < low || value > high {
            return Err(SetError::Range);
        }
        change(self, setting, value);
        Ok(())
    }
}

/// The setting of a name.
fn named(name: &[u8]) -> Option<Setting>
    ensures { result ≡ setting_named name.now }
{
    if name == b"tol_ra".as_slice() {
        Some(Setting::TolRa)
    } else if name == b"tol_dec".as_slice() {
        Some(Setting::TolDec)
    } else if name == b"acc_ra".as_slice() {
        Some(Setting::AccRa)
    } else if name == b"acc_dec".as_slice() {
        Some(Setting::AccDec)
    } else if name == b"rate_ra".as_slice() {
        Some(Setting::RateRa)
    } else if name == b"rate_dec".as_slice() {
        Some(Setting::RateDec)
    } else if name == b"line_tol".as_slice() {
        Some(Setting::LineTol)
    } else if name == b"purge_tol".as_slice() {
        Some(Setting::PurgeTol)
    } else if name == b"pair_gap".as_slice() {
        Some(Setting::PairGap)
    } else if name == b"night_shift".as_slice() {
        Some(Setting::NightShift)
    } else if name == b"stages".as_slice() {
        Some(Setting::Stages)
    } else {
        None
    }
}

/// The least and the greatest value of a setting.
fn range(setting: Setting) -> (i64, i64)
    ensures low { result.0 ≡ lowest setting }
    ensures high { result.1 ≡ highest setting }
{
    match setting {
        Setting::TolRa | Setting::TolDec | Setting::LineTol | Setting::PurgeTol => (0, 100_000),
        Setting::AccRa | Setting::AccDec => (0, 1_000_000),
        Setting::RateRa | Setting::RateDec => (0, 10_000_000),
        Setting::PairGap => (1, 1_000_000),
        Setting::NightShift => (0, 999_999),
        Setting::Stages => (1, 3),
    }
}

/// Changes one setting to a value in its range.
fn change(settings: &mut Settings, setting: Setting, value: i64)
    requires low { lowest setting ≤ℤ value }
    requires high { value ≤ℤ highest setting }
    ensures { settings.new ≡ with_value setting value settings.old }
{
    match setting {
        Setting::TolRa => settings.tol_ra = value,
        Setting::TolDec => settings.tol_dec = value,
        Setting::AccRa => settings.acc_ra = value,
        Setting::AccDec => settings.acc_dec = value,
        Setting::RateRa => settings.rate_ra = value,
        Setting::RateDec => settings.rate_dec = value,
        Setting::LineTol => settings.line_tol = value,
        Setting::PurgeTol => settings.purge_tol = value,
        Setting::PairGap => settings.pair_gap = value,
        Setting::NightShift => settings.night_shift = value,
        Setting::Stages => settings.stages = value,
    }
}
