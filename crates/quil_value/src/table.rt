//! Each sign, operation and function of values.

ghost use Rattle.std.specs.Prelude.{◌≡◌};
ghost use Rattle.quil_value.specs.Table.{signed, applied, called};

use crate::angle::{cis, cos, exp, sin};
use crate::lack::Lack;
use crate::value::Value;
use crate::value_opposite::opposite;
use crate::value_product::product;
use crate::value_quotient::quotient;
use crate::value_root::square_root;
use crate::value_sum::{difference, sum};
use crate::whole_power::power;
use quil_tree::{Function, Operator, Sign};

/// The value with a sign before it.
pub(crate) fn signed(sign: Sign, x: Value) -> Value
    ensures { result ≡ signed sign x }
{
    match sign {
        Sign::Plus => x,
        Sign::Minus => opposite(&x),
    }
}

/// An operation on two values.
pub(crate) fn applied(operator: Operator, x: &Value, y: &Value) -> Result<Value, Lack>
    ensures { result ≡ applied operator x.now y.now }
{
    match operator {
        Operator::Add => sum(x, y),
        Operator::Subtract => difference(x, y),
        Operator::Multiply => product(x, y),
        Operator::Divide => quotient(x, y),
        Operator::Power => power(x, y),
    }
}

/// The value of a function.
pub(crate) fn called(function: Function, x: &Value) -> Result<Value, Lack>
    ensures { result ≡ called function x.now }
{
    match function {
        Function::Sqrt => square_root(x),
        Function::Sin => sin(x),
        Function::Cos => cos(x),
        Function::Cis => cis(x),
        Function::Exp => exp(x),
    }
}
