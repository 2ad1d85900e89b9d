//! The values of literals.

ghost use Rattle.std.specs.Prelude.{◌≡◌, if◌then◌else◌};
ghost use Rattle.quil_value.specs.declared.lack.Lack.TheVariants.{NotExact, NumberTooWide};
ghost use Rattle.quil_value.specs.Literals.{number_literal, imaginary_literal};

use crate::lack::Lack;
use crate::real_numbers::{imaginary_number, real_number};
use crate::settle::{exponent_of_two, settled};
use crate::value::Value;
use quil_number::{TooWide, decimal, has_binary_end};

/// The number that a decimal literal begins with, exactly.
pub fn number(text: &[u8]) -> Result<Value, Lack>
    ensures { result ≡ number_literal text.now }
{
    match decimal(text) {
        Ok(x) => settled(real_number(x.p), x.q, 0),
        Err(_) => Err(Lack::NumberTooWide),
    }
}

// Why a number with a part that is too wide has no value: it is of the four kinds of numbers, or of none.
fn lack(has_kind: bool) -> Lack
    ensures { result ≡ (if has_kind then NumberTooWide else NotExact) }
{
    if has_kind {
        Lack::NumberTooWide
    } else {
        Lack::NotExact
    }
}

/// The number that a decimal literal begins with, times i, exactly.
pub fn imaginary(text: &[u8]) -> Result<Value, Lack>
    ensures { result ≡ imaginary_literal text.now }
{
    match decimal(text) {
        Ok(x) => settled(imaginary_number(x.p), x.q, 0),
        Err(TooWide::Numerator(q)) => Err(lack(exponent_of_two(q).is_some())),
        Err(TooWide::Denominator) => Err(lack(has_binary_end(text))),
    }
}
