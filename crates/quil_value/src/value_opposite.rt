//! Opposites of values.

ghost use Rattle.std.specs.Prelude.{◌≡◌, ◌≤◌, ◌^◌, nat_abs, neg_ℤ};
ghost use Rattle.qvm_ring.specs.Ring.{negated};
ghost use Rattle.qvm_ring.specs.Views.{wide_element};
ghost use Rattle.qvm_ring.specs.Multiply.{IsWithin};
ghost use Rattle.quil_value.specs.Exact.{opposite_of};
ghost use Rattle.quil_value.specs.Value.{exact_of, IsValue};

use crate::ring_number::minus;
use crate::value::{Kind, RingNumber, Value};
use quil_number::Fraction;
use qvm_ring::Wide;

fn negated(z: Wide) -> Wide
    requires { IsWithin (2 ^ 62) (wide_element z) }
    ensures { wide_element result ≡ negated (wide_element z) }
{
    let a = minus(z.a);
    let b = minus(z.b);
    let c = minus(z.c);
    let d = minus(z.d);
    Wide { a, b, c, d }
}

fn opposite_ring(x: RingNumber) -> RingNumber
    requires { IsWithin (2 ^ 62) (wide_element x.num) }
    ensures number { wide_element result.num ≡ negated (wide_element x.num) }
    ensures power { result.m ≡ x.m }
{
    let num = negated(x.num);
    RingNumber { num, m: x.m }
}

fn opposite_fraction(x: Fraction) -> Fraction
    requires { nat_abs x.p ≤ 2 ^ 62 }
    ensures { result ≡ record { p = neg_ℤ x.p; q = x.q } }
{
    let p = minus(x.p);
    Fraction { p, q: x.q }
}

fn opposite_kind(x: Kind) -> Kind
    requires { IsValue (exact_of x) }
    ensures { exact_of result ≡ opposite_of (exact_of x) }
{
    match x {
        Kind::Ring(x) => Kind::Ring(opposite_ring(x)),
        Kind::Rational(x) => Kind::Rational(opposite_fraction(x)),
        Kind::Pi(x) => Kind::Pi(opposite_fraction(x)),
        Kind::ImagPi(x) => Kind::ImagPi(opposite_fraction(x)),
    }
}

/// -x
#[tactic(auto, using(crate::proofs::Opposites::opposite_value))]
pub fn opposite(x: &Value) -> Value
    ensures { result ≡ opposite_of x.now }
{
    let kind = opposite_kind(x.kind());
    Value::new(kind)
}
