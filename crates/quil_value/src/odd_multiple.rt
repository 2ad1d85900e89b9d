//! Multiples of a ring number that are odd, but for a power of √2.

ghost use Rattle.std.specs.Prelude.{◌≡◌, ◌^◌, ◌≤◌, ℕ, true, false};
ghost use Rattle.qvm_ring.specs.Ring.{unit, times, is_divisible, is_zero};
ghost use Rattle.qvm_ring.specs.Views.{wide_element};
ghost use Rattle.qvm_ring.specs.Multiply.{IsWithin};
ghost use Rattle.quil_value.specs.Exact.{root_power};
ghost use Rattle.quil_value.specs.Division.{product_with};
ghost use Rattle.quil_value.specs.Views.{digits_of, is_odd};

use crate::low_end::{Digits, all, digit_product, split_all};
use crate::ring_number::{halved, lowered};
use qvm_ring::Wide;

/// A number times both factors is (1 + 2·half)·√2^power.
#[derive(Clone, Copy)]
pub struct OddMultiple {
    pub first: Digits,
    pub second: Digits,
    pub half: Wide,
    pub power: u32,
}

// A number times the factor is odd·√2^power.
#[derive(Clone, Copy)]
struct Level {
    factor: Digits,
    odd: Wide,
    power: u32,
}

/// z over √2 as often as it can be, and how often. Coefficients of at most 2^66 can't be 134 times, but for 0.
pub(crate) fn stripped(z: Wide) -> (Wide, u32)
    requires some { is_zero (wide_element z) ≡ false }
    requires bound { IsWithin (2 ^ 66) (wide_element z) }
    ensures value { wide_element z ≡ times (wide_element result.0) (root_power result.1) }
    ensures least { is_divisible (wide_element result.0) ≡ false }
    ensures bound { (n : ℕ) → IsWithin n (wide_element z) → IsWithin n (wide_element result.0) }
    ensures power { result.1 ≤ 134 }
{
    let (number, left) = lowered(z, 134);
    (number, 134 - left)
}

// Whether the sum of the coefficients is odd.
fn is_odd(z: Wide) -> bool
    requires { IsWithin (2 ^ 62) (wide_element z) }
    ensures { result ≡ is_odd (wide_element z) }
{
    all(z.a, z.b, z.c, z.d).unsigned_abs() % 2 == 1
}

// Where the sum of the coefficients is even, y·(1 + ω)/√2 has an odd one.
fn leveled(y: Wide) -> Level
    requires least { is_divisible (wide_element y) ≡ false }
    requires bound { IsWithin (2 ^ 62) (wide_element y) }
    ensures value { times (wide_element y) (digits_of result.factor) ≡ times (wide_element result.odd) (root_power result.power) }
    ensures odd { is_odd (wide_element result.odd) ≡ true }
    ensures bound { IsWithin (2 ^ 64) (wide_element result.odd) }
    ensures power { result.power ≤ 1 }
{
    if is_odd(y) {
        let factor = Digits {
            a: true,
            b: false,
            c: false,
            d: false,
        };
        Level {
            factor,
            odd: y,
            power: 0,
        }
    } else {
        let factor = Digits {
            a: true,
            b: true,
            c: false,
            d: false,
        };
        let odd = halved(digit_product(factor, y));
        Level {
            factor,
            odd,
            power: 1,
        }
    }
}

// The digits whose product with y is 1 + 2w, and w: the conjugate's, since |y|² is 1 and twice some number.
fn inverted(y: Wide) -> (Digits, Wide)
    requires odd { is_odd (wide_element y) ≡ true }
    requires bound { IsWithin (2 ^ 64) (wide_element y) }
    ensures value { times (wide_element y) (digits_of result.0) ≡ product_with unit (wide_element result.1) }
    ensures bound { IsWithin (2 ^ 65) (wide_element result.1) }
{
    let (digits, _) = split_all(y);
    let conjugate = Digits {
        a: digits.a,
        b: digits.d,
        c: digits.c,
        d: digits.b,
    };
    let (_, half) = split_all(digit_product(conjugate, y));
    (conjugate, half)
}

/// A multiple of y, which isn't 0, that is odd but for a power of √2.
pub(crate) fn odd_multiple(y: Wide) -> OddMultiple
    requires some { is_zero (wide_element y) ≡ false }
    requires bound { IsWithin (2 ^ 62) (wide_element y) }
    ensures value { times (times (wide_element y) (digits_of result.first)) (digits_of result.second) ≡ product_with (root_power result.power) (wide_element result.half) }
    ensures bound { IsWithin (2 ^ 65) (wide_element result.half) }
    ensures power { result.power ≤ 135 }
{
    let (plain, stripped) = stripped(y);
    let level = leveled(plain);
    let (second, half) = inverted(level.odd);
    OddMultiple {
        first: level.factor,
        second,
        half,
        power: stripped + level.power,
    }
}

/// z times both factors.
pub(crate) fn multiplied(z: Wide, first: Digits, second: Digits) -> Wide
    requires { IsWithin (2 ^ 62) (wide_element z) }
    ensures value { wide_element result ≡ times (digits_of second) (times (digits_of first) (wide_element z)) }
    ensures bound { IsWithin (2 ^ 66) (wide_element result) }
{
    digit_product(second, digit_product(first, z))
}
