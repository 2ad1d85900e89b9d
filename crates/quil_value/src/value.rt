//! Values of expressions.

ghost use Rattle.std.specs.Prelude.{◌≡◌, ◌<◌, ◌≤◌, ◌^◌, nat_abs};
ghost use Rattle.qvm_ring.specs.Ring.{is_zero};
ghost use Rattle.qvm_ring.specs.Views.{wide_element};
ghost use Rattle.quil_value.specs.Exact.{is_rational};
ghost use Rattle.quil_value.specs.Angles.{whole_of, whole_fourfold, eighths_of, imaginary_eighths_of, in_64_bits, eighths_in_64_bits};
ghost use Rattle.quil_value.specs.Value.{exact_of, IsValue};

use quil_number::Fraction;
use qvm_ring::Wide;
use std::marker::Model;

/// The ring number num/√2^m.
#[derive(Clone, Copy, Debug, PartialEq, Eq)]
pub struct RingNumber {
    pub num: Wide,
    pub m: u32,
}

/// Which of the four kinds a value is, and its numbers.
#[derive(Clone, Copy, Debug, PartialEq, Eq)]
pub enum Kind {
    Ring(RingNumber),
    /// A rational whose denominator is no power of two.
    Rational(Fraction),
    /// A rational times π.
    Pi(Fraction),
    /// A rational times iπ.
    ImagPi(Fraction),
}

/// An exact value, in its one form and within the bounds.
#[derive(Clone, Copy, Debug, PartialEq, Eq)]
pub struct Value {
    kind: Kind,
}

impl Model for Value {
    ghost use Rattle.std.proofs.Common.{ap};
    ghost use Rattle.quil_value.specs.Exact.{Exact};
    ghost use Rattle.quil_value.specs.Value.{exact_of, IsValue};
    ghost use Rattle.quil_value.specs.Kinds.{kind_of, kind_back};

    ghost Value = { Exact };

    ghost view = { λ v. exact_of v.kind };

    ghost invariant = { λ v. IsValue (exact_of v.kind) };

    ghost inverse = { λ x. record { kind = kind_of x } };

    ghost inverse_ok = { λ v h. ap (λ k. record { kind = k }) (kind_back v.kind) };
}

// 4p/q, if it is whole.
fn whole_fourfold(x: Fraction) -> Option<i128>
    requires numerator { nat_abs x.p ≤ 2 ^ 62 }
    requires some { 0 < x.q }
    requires bound { x.q ≤ 2 ^ 62 }
    ensures { result ≡ whole_fourfold x }
{
    let fourfold = x.p * 4;
    if fourfold.unsigned_abs() % x.q == 0 {
        Some(fourfold / x.q as i128)
    } else {
        None
    }
}

pub(crate) fn is_zero(z: Wide) -> bool
    ensures { result ≡ is_zero (wide_element z) }
{
    z.a == 0 && z.b == 0 && z.c == 0 && z.d == 0
}

// Whether it is a rational times 1.
pub(crate) fn is_real(z: Wide) -> bool
    ensures { result ≡ is_rational (wide_element z) }
{
    z.b == 0 && z.c == 0 && z.d == 0
}

fn in_64_bits(k: i128) -> Option<i64>
    ensures { result ≡ in_64_bits k }
{
    if i64::MIN as i128 <= k && k <= i64::MAX as i128 {
        Some(k as i64)
    } else {
        None
    }
}

impl Value {
    /// Which kind it is, with its numbers.
    pub fn kind(&self) -> Kind
        ensures value { exact_of result ≡ self.now }
        ensures form { IsValue (exact_of result) }
    {
        self.kind
    }

    /// The value of this kind and these numbers.
    pub fn new(kind: Kind) -> Value
        requires { IsValue (exact_of kind) }
        ensures { result ≡ exact_of kind }
    {
        Value { kind }
    }

    /// The whole number that it is, if it is one.
    pub fn whole(&self) -> Option<i128>
        ensures { result ≡ whole_of self.now }
    {
        match self.kind() {
            Kind::Ring(x) if x.m == 0 && is_real(x.num) => Some(x.num.a),
            _ => None,
        }
    }

    /// The k whose k·π/4 it is, if there is one.
    pub fn whole_eighths(&self) -> Option<i128>
        ensures { result ≡ eighths_of self.now }
    {
        match self.kind() {
            Kind::Ring(x) if is_zero(x.num) => Some(0),
            Kind::Pi(x) => whole_fourfold(x),
            _ => None,
        }
    }

    /// The k whose k·iπ/4 it is, if there is one.
    pub fn imaginary_eighths(&self) -> Option<i128>
        ensures { result ≡ imaginary_eighths_of self.now }
    {
        match self.kind() {
            Kind::Ring(x) if is_zero(x.num) => Some(0),
            Kind::ImagPi(x) => whole_fourfold(x),
            _ => None,
        }
    }

    /// The k whose k·π/4 it is, if there is one and it has 64 bits.
    pub fn eighths(&self) -> Option<i64>
        ensures { result ≡ eighths_in_64_bits self.now }
    {
        match self.whole_eighths() {
            Some(k) => in_64_bits(k),
            None => None,
        }
    }
}
