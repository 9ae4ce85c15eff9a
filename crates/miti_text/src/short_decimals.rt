//! Short decimals, read in the pass that looks for the end of their word.
ghost use Rattle.std.specs.Prelude.{◌≡◌, ◌∷◌, ◌+◌, ◌*◌, ◌^◌, ◌<◌, ◌≤◌, [], ℕ, List, true, length, take, nat_le, Some, None, MatchOption, IfSome, if◌then◌else◌};
ghost use Rattle.std.specs.List.{list_all};
ghost use Rattle.std.specs.Char.{is_ascii_digit};
ghost use Rattle.std.specs.Str.Parse.{digits_value};
ghost use Rattle.miti_text.specs.Words.{words};
ghost use Rattle.miti_text.specs.Numerals.{nearest};
ghost use Rattle.miti_text.specs.Quantities.{quantity_of, IsKept};
ghost use Rattle.miti_text.specs.Parts.{BeginsWith};

use crate::next_word;
use crate::numerals::{signed, split_sign};
use crate::pieces::{ends_word, without_blanks};
use crate::quantities::{Quantity, power_of_ten, read_quantity};

// Nearly all numbers have few digits. Such a one is read while the end of its word is looked for, so
// that each byte is looked at once. Any other word is cut off first and read then.

/// The most digits before the dot of a short decimal; a greater number is in no range.
const MOST_WHOLE: usize = 6;

/// The most digits behind the dot of a short decimal.
const MOST_PLACES: usize = 12;

/// A decimal of few digits in front of a text.
#[derive(Clone, Copy)]
struct ShortDecimal<'a> {
    /// The number that its digits write, the dot left out.
    value: u64,
    /// How many digits it has.
    digits: usize,
    /// How many of them stand behind the dot.
    places: usize,
    /// What follows it in the text.
    rest: &'a [u8],
}

/// The quantity that the first word of a text writes, or None where it writes none, and what follows
/// the word; None where the text has no word.
#[inline(always)]
pub fn next_quantity(quantity: Quantity, text: &[u8]) -> Option<(Option<i64>, &[u8])>
    ensures value { MatchOption result (words text.now ≡ []) (λ found. (word : List ℕ) ×
        (words text.now ≡ word ∷ words found.1.now) × (found.0 ≡ quantity_of quantity word)) }
    ensures range { IfSome result (λ found. IfSome found.0 (IsKept quantity)) }
{
    let text = without_blanks(text);
    if let Some((units, rest)) = short_quantity(quantity, text) {
        return Some((Some(units), rest));
    }
    let (word, rest) = next_word(text)?;
    Some((read_quantity(quantity, word), rest))
}

/// The quantity that the first word of a text writes, and what follows the word, where the word is a
/// short decimal in its range and nothing stands before it.
#[inline(always)]
fn short_quantity(quantity: Quantity, text: &[u8]) -> Option<(i64, &[u8])>
    ensures value { IfSome result (λ found. (word : List ℕ) ×
        (words text.now ≡ word ∷ words found.1.now) × (quantity_of quantity word ≡ Some found.0)) }
    ensures range { IfSome result (λ found. IsKept quantity found.0) }
{
    let (negative, unsigned) = split_sign(text);
    let decimal = decimal_in_front(unsigned);
    if decimal.digits == 0 || !ends_word(decimal.rest) {
        return None;
    }
    let limit = quantity.limit(negative);
    let units = units_within(decimal.value, decimal.places, limit, quantity.places())?;
    Some((quantity.keep(signed(negative, units)), decimal.rest))
}

/// The short decimal in front of a text: digits, and behind a dot more digits.
#[inline(always)]
fn decimal_in_front(text: &[u8]) -> ShortDecimal<'_>
    ensures { BeginsWith text.now result }
{
    let (whole, count) = leading_digits(0, text, MOST_WHOLE);
    let (_, rest) = text.split_at(count);
    match rest {
        [b'.', fraction @ ..] => {
            let (value, places) = leading_digits(whole, fraction, MOST_PLACES);
            let (_, rest) = fraction.split_at(places);
            ShortDecimal {
                value,
                digits: count + places,
                places,
                rest,
            }
        }
        _ => ShortDecimal {
            value: whole,
            digits: count,
            places: 0,
            rest,
        },
    }
}

/// Reads at most `most` digits in front of a text, as further digits of `number`: the number that
/// all of them write, and how many were read.
#[inline(always)]
fn leading_digits(number: u64, text: &[u8], most: usize) -> (u64, usize)
    requires number { number < 10 ^ 6 }
    requires most { most ≤ 12 }
    ensures within { result.1 ≤ length text.now }
    ensures most { result.1 ≤ most }
    ensures digits { list_all is_ascii_digit (take result.1 text.now) ≡ true }
    ensures value { result.0 ≡ number * 10 ^ result.1 + digits_value 10 (take result.1 text.now) }
{
    let mut value = number;
    let end = most.min(text.len());
    for i in 0..end {
        // A byte below the digits wraps to a great number.
        let digit = u64::from(text[i]).wrapping_sub(u64::from(b'0'));
        if digit > 9 {
            return (value, i);
        }
        value = value * 10 + digit;
    }
    (value, end)
}

/// A number of units of 10^-written in units of 10^-places, rounded to the nearest, a tie upward;
/// None where its value is above `limit`.
#[inline(always)]
fn units_within(value: u64, written: usize, limit: u64, places: usize) -> Option<u64>
    requires value { value < 10 ^ 18 }
    requires written { written ≤ 12 }
    requires limit { limit ≤ 200000 }
    requires places { places ≤ 6 }
    ensures value { result ≡ (if nat_le value (limit * 10 ^ written)
        then Some (nearest (value * 10 ^ places) (10 ^ written)) else None) }
    ensures range { IfSome result (λ units. units ≤ limit * 10 ^ places) }
{
    if value > limit * power_of_ten(written) {
        return None;
    }
    if written <= places {
        return Some(value * power_of_ten(places - written));
    }
    let surplus = power_of_ten(written - places);
    Some((2 * value + surplus) / (2 * surplus))
}
