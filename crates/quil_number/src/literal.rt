//! The value of a decimal literal of any length.

ghost use Rattle.std.specs.Prelude.{◌≡◌, ◌≤◌, ◌<◌, ◌+◌, ◌^◌, ◌++◌, List, ℕ, ℤ, pos, neg_ℤ, ◌-ℤ◌, true, length, min, replicate};
ghost use Rattle.std.specs.List.{list_all};
ghost use Rattle.std.specs.Char.{is_ascii_digit};
ghost use Rattle.quil_number.specs.Fraction.{lowest, within};
ghost use Rattle.quil_number.specs.Decimal.{number, scaled, decimal_value};
ghost use Rattle.quil_number.specs.Places.{Are, AreTenths};

use crate::digits::{digits, exponent, fraction_digits, number_behind};
use crate::fraction::{BOUND, Fraction, TooWide};
use crate::part::Part;
use crate::places::Places;

// With more zeros than these a number that isn't 0 is too wide.
const ZEROS: [u8; 18] = [b'0'; 18];

#[tactic(auto, using(crate::proofs::Numerals::zeros_taken, crate::proofs::Numerals::zeros_pass))]
fn zeros(count: usize) -> &'static [u8]
    requires { count ≤ 18 }
    ensures value { result.now ≡ replicate count 48 }
    ensures all { list_all is_ascii_digit result.now ≡ true }
{
    &ZEROS[..count]
}

// The whole part and a fraction behind the point, as one fraction.
fn with_whole(whole: u128, part: Part) -> Result<Fraction, TooWide>
    ensures { (ls rs : List ℕ) → whole ≡ min (number ls) (2 ^ 65) → AreTenths rs part → result ≡ within (lowest (pos (number (ls ++ rs))) (10 ^ length rs)) }
{
    if whole > BOUND {
        return Err(TooWide::Numerator(part.q));
    }
    let p = whole * part.q + part.p;
    if p > BOUND {
        return Err(TooWide::Numerator(part.q));
    }
    Ok(Fraction {
        p: p as i128,
        q: part.q,
    })
}

// The whole part and what stands behind the point, as one fraction. 2^65 is any whole part from there on.
fn joined(whole: u128, places: Places) -> Result<Fraction, TooWide>
    ensures { (ls rs : List ℕ) → whole ≡ min (number ls) (2 ^ 65) → Are rs places → result ≡ within (lowest (pos (number (ls ++ rs))) (10 ^ length rs)) }
{
    match places {
        Places::Exact(part) => with_whole(whole, part),
        Places::TooFine => Err(TooWide::Denominator),
    }
}

// The point moved to the right, by 2^65 places for any number from there on.
fn raised(whole: &[u8], places: &[u8], by: u128) -> Result<Fraction, TooWide>
    requires places { list_all is_ascii_digit places.now ≡ true }
    requires some { 0 < number (whole.now ++ places.now) }
    ensures { (n : ℕ) → by ≡ min n (2 ^ 65) → result ≡ within (scaled (number (whole.now ++ places.now)) (pos n -ℤ pos (length places.now))) }
{
    let start = number_behind(0, whole);
    let len = places.len() as u128;
    if by <= len {
        let (left, right) = places.split_at(by as usize);
        let number = number_behind(start, left);
        let tail = Places::none().behind(right);
        return joined(number, tail);
    }
    let more = by - len;
    if more > 18 {
        return Err(TooWide::Numerator(1));
    }
    let digits = number_behind(start, places);
    let number = number_behind(digits, zeros(more as usize));
    joined(number, Places::none())
}

// The point moved to the left, by 2^65 places for any number from there on.
fn lowered(whole: &[u8], places: &[u8], by: u128) -> Result<Fraction, TooWide>
    requires whole { list_all is_ascii_digit whole.now ≡ true }
    requires places { list_all is_ascii_digit places.now ≡ true }
    requires some { 0 < number (whole.now ++ places.now) }
    ensures { (n : ℕ) → by ≡ min n (2 ^ 65) → result ≡ within (scaled (number (whole.now ++ places.now)) (neg_ℤ (pos n) -ℤ pos (length places.now))) }
{
    let tail = Places::none().behind(places);
    let len = whole.len() as u128;
    if by <= len {
        let (left, right) = whole.split_at((len - by) as usize);
        let number = number_behind(0, left);
        let longer = tail.behind(right);
        return joined(number, longer);
    }
    let more = by - len;
    if more > 18 {
        return Err(TooWide::Denominator);
    }
    let longer = tail.behind(whole);
    let longest = longer.behind(zeros(more as usize));
    joined(0, longest)
}

/// The value of the decimal literal that a text begins with: digits, perhaps a point and digits, perhaps an exponent, each
/// of any length. What stands behind these, as the `i` of an imaginary literal, doesn't count. Refused where the value in
/// lowest terms has a number above 2^62.
pub fn decimal(text: &[u8]) -> Result<Fraction, TooWide>
    ensures { result ≡ within (decimal_value text.now) }
{
    let (whole, rest) = digits(text);
    let (places, rest) = fraction_digits(rest);
    let exponent = exponent(rest);
    let start = number_behind(0, whole);
    let number = number_behind(start, places);
    if number == 0 {
        return Ok(Fraction { p: 0, q: 1 });
    }
    if exponent >= 0 {
        raised(whole, places, exponent.unsigned_abs())
    } else {
        lowered(whole, places, exponent.unsigned_abs())
    }
}
