//! Writing a detection line.
ghost use Rattle.std.specs.Prelude.{◌≡◌, ◌≤◌, ◌++◌, ◌∷◌, Ok, IfOk, OnOk};
ghost use Rattle.miti_text.specs.Lines.{detection_of};
ghost use Rattle.miti_text.specs.Written.{decimal_text, last_digits, line_of};

use crate::Detection;
use crate::quantities::power_of_ten;
use itoa::Buffer;
use sky_units::NoMemory;
use std::alloc::Global;

/// The decimal places of epochs and angles.
const FINE_PLACES: usize = 6;

/// The decimal places of magnitudes.
const MAG_PLACES: usize = 3;

/// The line of a detection, without a line feed: the seven fields with one space between each two,
/// times and angles with six decimal places, the magnitude with three. It reads as the detection.
pub fn write_line(alloc: Global, detection: &Detection) -> Result<Vec<u8>, NoMemory>
    ensures text { IfOk result (λ text. text.items ≡ line_of detection.now) }
    ensures reads { IfOk result (λ text. detection_of text.items ≡ Ok detection.now) }
{
    let mut text = Vec::from_slice(alloc, detection.id.bytes())?;
    add_decimal(&mut text, detection.epoch, FINE_PLACES)?;
    add_decimal(&mut text, detection.ra, FINE_PLACES)?;
    add_decimal(&mut text, detection.dec, FINE_PLACES)?;
    add_decimal(&mut text, detection.mag, MAG_PLACES)?;
    add_word(&mut text, detection.site.bytes())?;
    add_word(&mut text, detection.name.bytes())?;
    Ok(text)
}

/// Adds a space and a word.
fn add_word(text: &mut Vec<u8>, word: &[u8]) -> Result<(), NoMemory>
    ensures { OnOk result (text.new.items ≡ text.old.items ++ 32 ∷ word.now) }
{
    text.push(b' ')?;
    text.extend_from_slice(word)?;
    Ok(())
}

/// Adds a space and a number of units of 10^-places, written as a decimal.
fn add_decimal(text: &mut Vec<u8>, units: i64, places: usize) -> Result<(), NoMemory>
    requires { places ≤ 6 }
    ensures { OnOk result (text.new.items ≡ text.old.items ++ 32 ∷ decimal_text places units) }
{
    let size = units.unsigned_abs();
    text.push(b' ')?;
    if units < 0 {
        text.push(b'-')?;
    }
    let mut buffer = Buffer::new();
    text.extend_from_slice(buffer.format(size / power_of_ten(places)).as_bytes())?;
    text.push(b'.')?;
    add_digits(text, size, places)
}

/// Adds the digits of a number at its last places.
fn add_digits(text: &mut Vec<u8>, number: u64, places: usize) -> Result<(), NoMemory>
    requires { places ≤ 6 }
    ensures { OnOk result (text.new.items ≡ text.old.items ++ last_digits places number) }
{
    let mut left = places;
    while left > 0 {
        left -= 1;
        text.push(b'0' + (number / power_of_ten(left) % 10) as u8)?;
    }
    Ok(())
}
