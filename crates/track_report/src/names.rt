//! The names of refusals.
ghost use Rattle.std.specs.Prelude.{◌≡◌};
ghost use Rattle.track_report.specs.Names.{line_error_name as name_of_line_error, script_error_name as name_of_script_error, set_error_name as name_of_set_error, add_error_name as name_of_add_error, window_error_name as name_of_window_error};

use exposure_log::{AddError, WindowError};
use miti_text::LineError;
use script_text::ScriptError;
use sky_units::SetError;

/// The name of why a line is no detection line.
pub fn line_error_name(error: LineError) -> &'static [u8]
    ensures { result.now ≡ name_of_line_error error }
{
    match error {
        LineError::Fields => b"fields",
        LineError::Id => b"id",
        LineError::Epoch => b"epoch",
        LineError::Ra => b"ra",
        LineError::Dec => b"dec",
        LineError::Mag => b"mag",
        LineError::Site => b"site",
        LineError::Name => b"name",
        LineError::Long => b"long",
        LineError::Byte => b"byte",
        LineError::NoMemory => b"",
    }
}

/// The name of why a command line is malformed.
pub fn script_error_name(error: ScriptError) -> &'static [u8]
    ensures { result.now ≡ name_of_script_error error }
{
    match error {
        ScriptError::Command => b"command",
        ScriptError::Words => b"words",
        ScriptError::Number => b"number",
        ScriptError::NoMemory => b"",
    }
}

/// The name of why a setting isn't changed.
pub fn set_error_name(error: SetError) -> &'static [u8]
    ensures { result.now ≡ name_of_set_error error }
{
    match error {
        SetError::Name => b"name",
        SetError::Range => b"range",
        SetError::Late => b"late",
    }
}

/// The name of why an exposure isn't taken.
pub fn add_error_name(error: AddError) -> &'static [u8]
    ensures { result.now ≡ name_of_add_error error }
{
    match error {
        AddError::NoWindow => b"nowindow",
        AddError::Old => b"old",
        AddError::New => b"new",
        AddError::Held => b"held",
        AddError::Id(_) => b"id",
        AddError::NightFull => b"nightfull",
        AddError::Full => b"full",
        AddError::NoMemory => b"",
    }
}

/// The name of why the window can't be moved.
pub fn window_error_name(error: WindowError) -> &'static [u8]
    ensures { result.now ≡ name_of_window_error error }
{
    match error {
        WindowError::Order => b"order",
        WindowError::Wide => b"wide",
        WindowError::Back => b"back",
        WindowError::NoMemory => b"",
    }
}
