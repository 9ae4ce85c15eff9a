//! Decimals as whole numbers of units, each in its range.
ghost use Rattle.std.specs.Prelude.{◌≡◌, ◌+◌, ◌*◌, ◌^◌, ◌<◌, ◌≤◌, ◌==◌, true, length, nat_lt, nat_le, Some, None, IfSome, if◌then◌else◌};
ghost use Rattle.std.specs.List.{list_all};
ghost use Rattle.std.specs.Char.{is_ascii_digit};
ghost use Rattle.std.specs.Str.Parse.{digits_value};
ghost use Rattle.miti_text.specs.Numerals.{nearest, denominator, units_of};
ghost use Rattle.miti_text.specs.Quantities.{places, limit, kept, quantity_of, IsKept};

use crate::numerals::{read_digits, signed, split_dot, split_sign};

/// A number of a detection line, with its unit and its range.
#[derive(Clone, Copy, Debug)]
pub enum Quantity {
    /// Modified Julian date, kept in 10^-6 day.
    Epoch,
    /// Degrees, kept in 10^-6 degree below a whole turn.
    RightAscension,
    /// Degrees, kept in 10^-6 degree.
    Declination,
    /// Magnitudes, kept in 10^-3.
    Magnitude,
}

/// A whole turn of right ascension, in 10^-6 degree.
const FULL_TURN: i64 = 360_000_000;

/// The powers of ten up to the greatest that is wanted.
const POWERS: [u64; 13] = [
    1,
    10,
    100,
    1_000,
    10_000,
    100_000,
    1_000_000,
    10_000_000,
    100_000_000,
    1_000_000_000,
    10_000_000_000,
    100_000_000_000,
    1_000_000_000_000,
];

impl Quantity {
    /// How many decimal places are kept.
    pub fn places(self) -> usize
        ensures value { result ≡ places self }
        ensures range { result ≤ 6 }
    {
        match self {
            Quantity::Epoch | Quantity::RightAscension | Quantity::Declination => 6,
            Quantity::Magnitude => 3,
        }
    }

    /// How far from zero a written value may lie, on its side of zero.
    pub fn limit(self, negative: bool) -> u64
        ensures value { result ≡ limit self negative }
        ensures range { result ≤ 200000 }
    {
        match self {
            Quantity::Epoch if negative => 0,
            Quantity::Epoch => 200_000,
            Quantity::RightAscension if negative => 0,
            Quantity::RightAscension => 360,
            Quantity::Declination => 90,
            Quantity::Magnitude => 1_000,
        }
    }

    /// The number as it is kept: a whole turn of right ascension is 0.
    pub fn keep(self, units: i64) -> i64
        ensures { result ≡ kept self units }
    {
        match self {
            Quantity::RightAscension if units == FULL_TURN => 0,
            _ => units,
        }
    }
}

/// The quantity that a word writes: a decimal in its range, rounded to the nearest unit, a tie
/// away from zero; None for any other word.
pub fn read_quantity(quantity: Quantity, text: &[u8]) -> Option<i64>
    ensures value { result ≡ quantity_of quantity text.now }
    ensures range { IfSome result (IsKept quantity) }
{
    let (negative, unsigned) = split_sign(text);
    let (whole, fraction) = split_dot(unsigned);
    let units = read_units(whole, fraction, quantity.limit(negative), quantity.places())?;
    Some(quantity.keep(signed(negative, units)))
}

/// The value of `whole.fraction` in units of 10^-places, to the nearest, where it is at most `limit`.
fn read_units(whole: &[u8], fraction: &[u8], limit: u64, places: usize) -> Option<u64>
    requires places { places ≤ 6 }
    requires limit { limit ≤ 200000 }
    ensures value { result ≡ units_of limit places whole.now fraction.now }
    ensures range { IfSome result (λ units. units ≤ limit * 10 ^ places) }
{
    if !have_digits(whole, fraction) {
        return None;
    }
    let count = read_digits(whole)?;
    let part = read_fraction(fraction, places)?;
    if !is_within(count, fraction, limit) {
        return None;
    }
    Some(count * power_of_ten(places) + part)
}

/// Whether a byte stands before or after the dot.
fn have_digits(whole: &[u8], fraction: &[u8]) -> bool
    ensures { result ≡ nat_lt 0 (length whole.now + length fraction.now) }
{
    !whole.is_empty() || !fraction.is_empty()
}

/// Whether so many whole units and the digits of a fraction are together at most `limit`.
fn is_within(count: u64, fraction: &[u8], limit: u64) -> bool
    requires { list_all is_ascii_digit fraction.now ≡ true }
    ensures { result ≡ nat_le (count * denominator fraction.now + digits_value 10 fraction.now)
        (limit * denominator fraction.now) }
{
    if count == limit {
        are_zeros(fraction)
    } else {
        count < limit
    }
}

/// Whether each byte is the digit 0.
fn are_zeros(digits: &[u8]) -> bool
    ensures { result ≡ list_all (λ digit. digit == 48) digits.now }
{
    digits.iter().all(|digit| *digit == b'0')
}

/// The digits of a fraction in units of the last of some places, rounded to the nearest, a tie
/// upward; None where some byte is no digit.
fn read_fraction(fraction: &[u8], places: usize) -> Option<u64>
    requires { places ≤ 6 }
    ensures value { result ≡ (if list_all is_ascii_digit fraction.now
        then Some (nearest (digits_value 10 fraction.now * 10 ^ places) (denominator fraction.now))
        else None) }
    ensures range { IfSome result (λ units. units ≤ 10 ^ places) }
{
    let kept = places.min(fraction.len());
    let (front, rest) = fraction.split_at(kept);
    let units = read_digits(front)?;
    if !are_digits(rest) {
        return None;
    }
    Some(units * power_of_ten(places - kept) + rounding(rest))
}

/// A power of ten, up to the greatest that is wanted.
pub fn power_of_ten(places: usize) -> u64
    requires { places ≤ 12 }
    ensures value { result ≡ 10 ^ places }
    ensures positive { 0 < result }
{
    POWERS[places]
}

/// Whether each byte is a digit.
fn are_digits(text: &[u8]) -> bool
    ensures { result ≡ list_all is_ascii_digit text.now }
{
    text.iter().all(|byte| byte.is_ascii_digit())
}

/// One where the digits, as a fraction, are a half or more, and zero where they are less.
fn rounding(digits: &[u8]) -> u64
    requires { list_all is_ascii_digit digits.now ≡ true }
    ensures { result ≡ nearest (digits_value 10 digits.now) (denominator digits.now) }
{
    match digits {
        [] => 0,
        [first, ..] => u64::from(*first >= b'5'),
    }
}
