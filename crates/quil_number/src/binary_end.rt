//! Whether the last places of a literal are a whole number over a power of two.

ghost use Rattle.std.specs.Prelude.{◌≡◌, ◌-◌, ◌^◌, ◌++◌, reverse, slice_index_or};
ghost use Rattle.quil_number.specs.Decimal.{number, without_zeros, has_binary_end};
ghost use Rattle.quil_number.specs.Divisor.{divides};

use crate::digits::{digits, fraction_digits};

// The digits without the zeros at the end.
fn without_zeros(digits: &[u8]) -> &[u8]
    ensures { result.now ≡ without_zeros digits.now }
{
    for i in (0..digits.len()).rev() {
        if digits[i] != b'0' {
            return &digits[..i + 1];
        }
    }
    &[]
}

// The digit at a place that is counted from the end, from 0 on; 0 in front of all digits.
fn digit_from_end(whole: &[u8], places: &[u8], place: usize) -> u8
    ensures { result ≡ slice_index_or (reverse (whole.now ++ places.now)) place 48 - 48 }
{
    if place < places.len() {
        return places[places.len() - 1 - place].saturating_sub(b'0');
    }
    let place = place - places.len();
    if place < whole.len() {
        return whole[whole.len() - 1 - place].saturating_sub(b'0');
    }
    0
}

// Whether the number that all digits write is a multiple of 5^63. The last k digits, where they are a multiple of 5^k, are
// 5^k times a number of about k bits, so 128 bits are enough.
fn has_fives(whole: &[u8], places: &[u8]) -> bool
    ensures { result ≡ divides (5 ^ 63) (number (whole.now ++ places.now)) }
{
    let mut rest: u128 = 0;
    let mut power: u128 = 1;
    for place in 0..63 {
        let digit = u128::from(digit_from_end(whole, places, place));
        let sum = digit * power + rest;
        if sum % 5 != 0 {
            return false;
        }
        rest = sum / 5;
        power *= 2;
    }
    true
}

/// Whether the number that all digits of a literal write, without the zeros at its end, is a multiple of 5^63. The digits
/// may be any number.
pub fn has_binary_end(text: &[u8]) -> bool
    ensures { result ≡ has_binary_end text.now }
{
    let (whole, rest) = digits(text);
    let (places, _behind) = fraction_digits(rest);
    match without_zeros(places) {
        [] => has_fives(without_zeros(whole), &[]),
        last => has_fives(whole, last),
    }
}
