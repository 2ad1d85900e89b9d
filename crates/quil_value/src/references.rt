//! Operations on two parts of which one has memory references.

ghost use Rattle.std.specs.Prelude.{◌≡◌, ◌<◌, Ok, IfOk, IfErr, nat_abs};
ghost use Rattle.quil_value.specs.Results.{and_then};
ghost use Rattle.quil_value.specs.declared.worked.Worked.TheVariants.{Plain};
ghost use Rattle.quil_value.specs.SumForms.{IsRatio};
ghost use Rattle.quil_value.specs.Sums.{sum_of_sums, opposite_sum};
ghost use Rattle.quil_value.specs.Worked.{as_sum, as_factor, as_divisor, product_with_sum, quotient_of_sum, applied_to_sums, IsLackOf};
ghost use Rattle.quil_value.specs.Runs.{IsDivisor, sum_of_parts, difference_of_parts};

use crate::lack::Lack;
use crate::ratio_arithmetic::inverse;
use crate::sum_fault::SumFault;
use crate::sums::CellSum;
use crate::value::{Kind, Value, is_zero};
use crate::value_ratio::ratio;
use crate::worked::Worked;
use quil_number::Fraction;
use quil_tree::Operator;
use std::alloc::Global;

fn plain_sum(alloc: Global, value: &Value) -> Result<CellSum, Lack>
    ensures { result ≡ as_sum (Plain value.now) }
{
    match value.kind() {
        Kind::Pi(factor) => Ok(CellSum::of_pi(alloc, factor)),
        Kind::Ring(x) if is_zero(x.num) => Ok(CellSum::zero(alloc)),
        _ => Err(Lack::NotExact),
    }
}

// What is added to a sum. Takes no memory.
fn as_sum(alloc: Global, x: Worked) -> Result<CellSum, Lack>
    ensures { result ≡ as_sum x }
{
    match x {
        Worked::Plain(value) => plain_sum(alloc, &value),
        Worked::Summed(sum) => Ok(sum),
    }
}

fn plain_factor(value: &Value) -> Result<Fraction, Lack>
    ensures value { result ≡ as_factor (Plain value.now) }
    ensures form { IfOk result IsRatio }
{
    ratio(value).ok_or(Lack::NotExact)
}

// What a sum is multiplied with.
fn as_factor(x: &Worked) -> Result<Fraction, Lack>
    ensures value { result ≡ as_factor x.now }
    ensures form { IfOk result IsRatio }
{
    match x {
        Worked::Plain(value) => plain_factor(value),
        Worked::Summed(_sum) => Err(Lack::NotExact),
    }
}

// What a sum is divided by.
fn as_divisor(x: &Worked) -> Result<Fraction, Lack>
    ensures value { result ≡ as_divisor x.now }
    ensures form { IfOk result IsDivisor }
{
    let factor = as_factor(x)?;
    if factor.p == 0 {
        Err(Lack::ZeroDivisor)
    } else {
        Ok(factor)
    }
}

fn product_with_sum(alloc: Global, x: Worked, y: Worked) -> Result<CellSum, Lack>
    ensures { result ≡ product_with_sum x y }
{
    match x {
        Worked::Plain(value) => {
            let factor = plain_factor(&value)?;
            let sum = as_sum(alloc, y)?;
            sum.times(factor)
        }
        Worked::Summed(sum) => {
            let factor = as_factor(&y)?;
            sum.times(factor)
        }
    }
}

fn quotient_of_sum(x: Worked, y: &Worked) -> Result<CellSum, Lack>
    ensures { result ≡ quotient_of_sum x y.now }
{
    match x {
        Worked::Plain(_value) => Err(Lack::NotExact),
        Worked::Summed(sum) => {
            let divisor = as_divisor(y)?;
            sum.times(inverse(divisor))
        }
    }
}

fn sum_of_parts(alloc: Global, x: Worked, y: Worked) -> Result<CellSum, SumFault>
    ensures ok { IfOk result (λ s. sum_of_parts x y ≡ Ok s) }
    ensures err { IfErr result (λ f. IsLackOf f (sum_of_parts x y)) }
{
    let sum = as_sum(alloc, x)?;
    let other = as_sum(alloc, y)?;
    sum.plus(&other)
}

fn difference_of_parts(alloc: Global, x: Worked, y: Worked) -> Result<CellSum, SumFault>
    ensures ok { IfOk result (λ s. difference_of_parts x y ≡ Ok s) }
    ensures err { IfErr result (λ f. IsLackOf f (difference_of_parts x y)) }
{
    let sum = as_sum(alloc, x)?;
    let other = as_sum(alloc, y)?;
    sum.plus(&other.opposite())
}

/// An operation on two parts, of which one has references.
pub(crate) fn applied(
    alloc: Global,
    operator: Operator,
    x: Worked,
    y: Worked,
) -> Result<CellSum, SumFault>
    ensures ok { IfOk result (λ s. applied_to_sums operator x y ≡ Ok s) }
    ensures err { IfErr result (λ f. IsLackOf f (applied_to_sums operator x y)) }
{
    match operator {
        Operator::Add => sum_of_parts(alloc, x, y),
        Operator::Subtract => difference_of_parts(alloc, x, y),
        Operator::Multiply => Ok(product_with_sum(alloc, x, y)?),
        Operator::Divide => Ok(quotient_of_sum(x, &y)?),
        Operator::Power => Err(SumFault::Lack(Lack::NotExact)),
    }
}
