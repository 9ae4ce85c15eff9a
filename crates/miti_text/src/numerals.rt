//! Whole numbers of digits, with and without a sign.
ghost use Rattle.std.specs.Prelude.{◌≡◌, ◌^◌, ◌≤◌, min, length, Some, None, IfSome, if◌then◌else◌};
ghost use Rattle.std.specs.List.{list_all, before_first, after_first, position_or_len};
ghost use Rattle.std.specs.Char.{is_ascii_digit};
ghost use Rattle.std.specs.Str.Parse.{digits_value, starts_with_minus, without_leading_sign};
ghost use Rattle.miti_text.specs.Numerals.{number_of, signed, size_of, without_minus, is_dot};

/// Digits are counted up to here: more than any limit, and ten times as much still fits.
const MOST: u64 = 1_000_000_000_000_000_000;

/// The longest whole number, in digits.
const MOST_DIGITS: usize = 18;

/// The whole number that a text writes: an optional minus and one to eighteen digits; None for
/// any other text. Leading zeros are allowed, and `-0` is 0.
pub fn read_number(text: &[u8]) -> Option<i64>
    ensures { result ≡ number_of text.now }
{
    let (negative, digits) = split_minus(text);
    Some(signed(negative, read_size(digits)?))
}

/// A number of this size, with its sign.
pub fn signed(negative: bool, size: u64) -> i64
    requires { size ≤ 10 ^ 18 }
    ensures { result ≡ signed negative size }
{
    let size = size as i64;
    if negative { -size } else { size }
}

/// Whether a text begins with a minus, and what follows its sign.
pub fn split_sign(text: &[u8]) -> (bool, &[u8])
    ensures minus { result.0 ≡ starts_with_minus text.now }
    ensures rest { result.1.now ≡ without_leading_sign text.now }
{
    match text {
        [b'-', rest @ ..] => (true, rest),
        [b'+', rest @ ..] => (false, rest),
        _ => (false, text),
    }
}

/// What stands before the first dot of a text, and what stands after it.
pub fn split_dot(text: &[u8]) -> (&[u8], &[u8])
    ensures before { result.0.now ≡ before_first is_dot text.now }
    ensures after { result.1.now ≡ after_first is_dot text.now }
{
    let dot = dot_place(text);
    if dot == text.len() {
        return (text, &[]);
    }
    let (whole, rest) = text.split_at(dot);
    let (_, fraction) = rest.split_at(1);
    (whole, fraction)
}

/// Whether a text begins with a minus, and what follows it.
fn split_minus(text: &[u8]) -> (bool, &[u8])
    ensures minus { result.0 ≡ starts_with_minus text.now }
    ensures rest { result.1.now ≡ without_minus text.now }
{
    match text {
        [b'-', rest @ ..] => (true, rest),
        _ => (false, text),
    }
}

/// The number that one to eighteen digits write; None for any other text.
fn read_size(digits: &[u8]) -> Option<u64>
    ensures value { result ≡ size_of digits.now }
    ensures range { IfSome result (λ size. size ≤ 10 ^ 18) }
{
    if digits.is_empty() || digits.len() > MOST_DIGITS {
        return None;
    }
    read_digits(digits)
}

/// The number that digits write, or `MOST` where it is greater; None where some byte is no digit.
pub fn read_digits(text: &[u8]) -> Option<u64>
    ensures { result ≡ (if list_all is_ascii_digit text.now
        then Some (min (digits_value 10 text.now) (10 ^ 18)) else None) }
{
    let mut value = 0;
    for byte in text {
        if !byte.is_ascii_digit() {
            return None;
        }
        value = MOST.min(value * 10 + u64::from(*byte - b'0'));
    }
    Some(value)
}

/// Where the first dot of a text stands, or the text's length where it has none.
fn dot_place(text: &[u8]) -> usize
    ensures place { result ≡ position_or_len is_dot text.now }
    ensures within { result ≤ length text.now }
{
    text.iter().take_while(|byte| **byte != b'.').count()
}
