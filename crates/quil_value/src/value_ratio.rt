//! Values that are rational.

ghost use Rattle.std.specs.Prelude.{◌≡◌, IfSome};
ghost use Rattle.qvm_ring.specs.Views.{wide_element};
ghost use Rattle.quil_value.specs.Exact.{Ring};
ghost use Rattle.quil_value.specs.Value.{IsValue};
ghost use Rattle.quil_value.specs.SumForms.{IsRatio};
ghost use Rattle.quil_value.specs.Table.{ratio_of};

use crate::settle::is_rational;
use crate::value::{Kind, RingNumber, Value};
use quil_number::Fraction;

// A ring number as p/q, if it is rational.
fn ring_ratio(x: RingNumber) -> Option<Fraction>
    requires { IsValue (Ring (wide_element x.num) x.m) }
    ensures value { result ≡ ratio_of (Ring (wide_element x.num) x.m) }
    ensures form { IfSome result IsRatio }
{
    if is_rational(x.num) && x.m % 2 == 0 {
        Some(Fraction {
            p: x.num.a,
            q: 1 << (x.m / 2),
        })
    } else {
        None
    }
}

/// The fraction p/q in lowest terms that a value is, if it is rational.
pub(crate) fn ratio(x: &Value) -> Option<Fraction>
    ensures value { result ≡ ratio_of x.now }
    ensures form { IfSome result IsRatio }
{
    match x.kind() {
        Kind::Ring(x) => ring_ratio(x),
        Kind::Rational(x) => Some(x),
        Kind::Pi(_) | Kind::ImagPi(_) => None,
    }
}
