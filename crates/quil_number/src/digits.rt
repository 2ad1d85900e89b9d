//! Digits in a text, and the numbers that they write.

ghost use Rattle.std.specs.Prelude.{◌≡◌, ◌≤◌, ◌^◌, List, ℤ, ℕ, pos, neg_ℤ, true, min, length, ◌+◌};
ghost use Rattle.std.specs.List.{prefix_len, list_all};
ghost use Rattle.std.specs.Char.{is_ascii_digit};
ghost use Rattle.quil_number.specs.Decimal.{digits, behind_digits, fraction_digits, behind_fraction, number_behind, number, signed_number, exponent};
ghost use Rattle.quil_number.specs.Capped.{clamped};

// No exponent and no whole part from here on makes a difference: the value is too wide, or 0.
const CAP: u128 = 1 << 65;

// How many digits stand at the front.
fn digits_len(text: &[u8]) -> usize
    ensures bound { result ≤ length text.now }
    ensures value { result ≡ prefix_len is_ascii_digit text.now }
{
    for (i, b) in text.iter().enumerate() {
        if !b.is_ascii_digit() {
            return i;
        }
    }
    text.len()
}

/// The digits at the front of a text, and what stands behind them.
#[tactic(auto, using(crate::proofs::Numerals::all_digits))]
pub(crate) fn digits(text: &[u8]) -> (&[u8], &[u8])
    ensures front { result.0.now ≡ digits text.now }
    ensures behind { result.1.now ≡ behind_digits text.now }
    ensures all { list_all is_ascii_digit result.0.now ≡ true }
{
    text.split_at(digits_len(text))
}

/// The digits behind a point, if one comes first, and what stands behind them.
pub(crate) fn fraction_digits(text: &[u8]) -> (&[u8], &[u8])
    ensures front { result.0.now ≡ fraction_digits text.now }
    ensures behind { result.1.now ≡ behind_fraction text.now }
    ensures all { list_all is_ascii_digit result.0.now ≡ true }
{
    match text {
        [b'.', rest @ ..] => digits(rest),
        _ => (&[], text),
    }
}

/// The number that the digits write behind those of another number, or 2^65 where it is above that.
pub(crate) fn number_behind(start: u128, digits: &[u8]) -> u128
    requires { start ≤ 2 ^ 65 }
    ensures value { result ≡ min (number_behind start digits.now) (2 ^ 65) }
    ensures bound { result ≤ 2 ^ 65 }
{
    let mut number = start;
    for digit in digits {
        let longer = number * 10 + u128::from(digit.saturating_sub(b'0'));
        number = longer.min(CAP);
    }
    number
}

// The number at the front of a text, or 2^65 where it is above that.
fn magnitude(text: &[u8]) -> i128
    ensures { result ≡ pos (min (number (digits text.now)) (2 ^ 65)) }
{
    let (front, _behind) = digits(text);
    number_behind(0, front) as i128
}

fn signed_number(text: &[u8]) -> i128
    ensures { result ≡ clamped (2 ^ 65) (signed_number text.now) }
{
    match text {
        [b'-', rest @ ..] => -magnitude(rest),
        [b'+', rest @ ..] => magnitude(rest),
        _ => magnitude(text),
    }
}

/// The exponent at the front of a text, or 0; 2^65 or -2^65 where it is beyond that.
pub(crate) fn exponent(text: &[u8]) -> i128
    ensures { result ≡ clamped (2 ^ 65) (exponent text.now) }
{
    match text {
        [b'e' | b'E', rest @ ..] => signed_number(rest),
        _ => 0,
    }
}
