//! Common divisors.
ghost use Rattle.std.specs.Prelude.{◌≡◌, pos, ◌*ℤ◌, ◌<ℤ◌};
ghost use Rattle.std.specs.Int.{IsGcd, ◌∣◌};
ghost use Rattle.std.specs.Int.RustNames.{unsigned_abs};

/// The greatest common divisor of two numbers, by Euclid's algorithm.
pub fn common_divisor(a: u128, b: u128) -> u128
    ensures { IsGcd a b result }
{
    let mut number = a;
    let mut divisor = b;
    while divisor != 0 {
        (number, divisor) = (divisor, number % divisor);
    }
    number
}

/// The number that is `number` when it is multiplied by `divisor`, which divides it.
pub fn quotient(number: i128, divisor: i128) -> i128
    requires positive { pos 0 <ℤ divisor }
    requires divides { unsigned_abs divisor ∣ unsigned_abs number }
    ensures { result *ℤ divisor ≡ number }
{
    number / divisor
}
