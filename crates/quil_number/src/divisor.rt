//! The greatest common divisor.

ghost use Rattle.std.specs.Prelude.{◌≡◌};
ghost use Rattle.std.specs.Int.{IsGcd};
ghost use Rattle.quil_number.specs.Divisor.{common_divisor};

/// The greatest common divisor of two numbers; 0 for two zeros.
pub fn gcd(a: u128, b: u128) -> u128
    ensures value { result ≡ common_divisor a b }
    ensures greatest { IsGcd a b result }
{
    let mut x = a;
    let mut y = b;
    while y != 0 {
        let rest = x % y;
        x = y;
        y = rest;
    }
    x
}
