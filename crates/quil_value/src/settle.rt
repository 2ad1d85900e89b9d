//! Fractions of ring numbers and whole numbers, times a power of π, each in its one form.

ghost use Rattle.std.specs.Prelude.{◌≡◌, ◌<◌, ◌≤◌, ◌/◌, ◌^◌, ◌&&◌, nat_abs, pos, int_div, Ok, IfSome};
ghost use Rattle.qvm_ring.specs.Ring.{nought};
ghost use Rattle.qvm_ring.specs.Views.{wide_element};
ghost use Rattle.qvm_ring.specs.Multiply.{IsWithin};
ghost use Rattle.quil_number.specs.Divisor.{common_divisor};
ghost use Rattle.quil_value.specs.Exact.{Ring, is_near, is_within, bounded, content, divided_by, exponent_of_two, is_rational, is_imaginary, settled_number, settled_angle, settled};
ghost use Rattle.quil_value.specs.Forms.{IsForm};
ghost use Rattle.quil_value.specs.Value.{exact_of};
ghost use Rattle.quil_value.specs.Views.{value_of_kind};

use crate::lack::Lack;
use crate::ring_number::lowered;
use crate::value::{Kind, RingNumber, Value, is_zero};
use quil_number::{gcd, lowest};
use qvm_ring::Wide;

fn is_near(x: i128) -> bool
    ensures { result ≡ is_near x }
{
    x.unsigned_abs() <= 1 << 62
}

fn is_all_near(z: Wide) -> bool
    ensures { result ≡ (is_near z.a && is_near z.b && is_near z.c && is_near z.d) }
{
    is_near(z.a) && is_near(z.b) && is_near(z.c) && is_near(z.d)
}

fn is_ring_within(z: Wide, m: u32) -> bool
    ensures { result ≡ is_within (Ring (wide_element z) m) }
{
    is_all_near(z) && m <= 124
}

fn is_within(kind: Kind) -> bool
    ensures { result ≡ is_within (exact_of kind) }
{
    match kind {
        Kind::Ring(x) => is_ring_within(x.num, x.m),
        Kind::Rational(x) | Kind::Pi(x) | Kind::ImagPi(x) => is_near(x.p) && x.q <= 1 << 62,
    }
}

/// The value of this kind and these numbers, or that it is too wide.
pub(crate) fn bounded(kind: Kind) -> Result<Value, Lack>
    requires { IsForm (exact_of kind) }
    ensures { result ≡ bounded (Ok (exact_of kind)) }
{
    if is_within(kind) {
        Ok(Value::new(kind))
    } else {
        Err(Lack::NumberTooWide)
    }
}

/// A rational number.
pub(crate) fn is_rational(z: Wide) -> bool
    ensures { result ≡ is_rational (wide_element z) }
{
    z.b == 0 && z.c == 0 && z.d == 0
}

/// A rational number times i.
pub(crate) fn is_imaginary(z: Wide) -> bool
    ensures { result ≡ is_imaginary (wide_element z) }
{
    z.a == 0 && z.b == 0 && z.d == 0
}

/// The k with 2^k = n, if there is one.
#[tactic(auto, using(crate::proofs::Twos::exponent_at, crate::proofs::Twos::exponent_none))]
pub(crate) fn exponent_of_two(n: u128) -> Option<u32>
    requires { 0 < n }
    ensures value { result ≡ exponent_of_two n }
    ensures bound { IfSome result (λ k. k < 128) }
{
    let below = n.ilog2();
    if 1 << below == n { Some(below) } else { None }
}

// The greatest number that divides both.
#[tactic(auto, using(quil_number::proofs::Divisors::divisor_bounds))]
fn common(x: i128, n: u128) -> u128
    requires { 0 < n }
    ensures value { result ≡ common_divisor (nat_abs x) n }
    ensures some { 0 < result }
    ensures bound { result ≤ n }
{
    gcd(x.unsigned_abs(), n)
}

// The greatest number that divides n and all coordinates of z.
fn content(z: Wide, n: u128) -> u128
    requires { 0 < n }
    ensures value { result ≡ content (wide_element z) n }
    ensures some { 0 < result }
    ensures bound { result ≤ n }
{
    common(z.a, common(z.b, common(z.c, common(z.d, n))))
}

fn over(x: i128, n: u128) -> i128
    requires number { nat_abs x ≤ 2 ^ 126 }
    requires some { 0 < n }
    requires bound { n ≤ 2 ^ 125 }
    ensures value { result ≡ int_div x (pos n) }
    ensures bound { nat_abs result ≤ 2 ^ 126 }
{
    x / n as i128
}

// z over a number that divides its coordinates.
fn divided(z: Wide, n: u128) -> Wide
    requires number { IsWithin (2 ^ 126) (wide_element z) }
    requires some { 0 < n }
    requires bound { n ≤ 2 ^ 125 }
    ensures value { wide_element result ≡ divided_by n (wide_element z) }
    ensures bound { IsWithin (2 ^ 126) (wide_element result) }
{
    let a = over(z.a, n);
    let b = over(z.b, n);
    let c = over(z.c, n);
    let d = over(z.d, n);
    Wide { a, b, c, d }
}

// n over the greatest number that divides it and all coordinates of z.
#[tactic(auto, using(crate::proofs::Contents::rest_positive))]
fn rest(z: Wide, n: u128) -> u128
    requires { 0 < n }
    ensures value { result ≡ n / content (wide_element z) n }
    ensures some { 0 < result }
{
    n / content(z, n)
}

// z/n
fn number(z: Wide, n: u128) -> Result<Kind, Lack>
    requires number { IsWithin (2 ^ 126) (wide_element z) }
    requires some { 0 < n }
    requires bound { n ≤ 2 ^ 125 }
    ensures { value_of_kind result ≡ settled_number (wide_element z) n }
{
    match exponent_of_two(rest(z, n)) {
        Some(k) => {
            let (num, m) = lowered(divided(z, content(z, n)), 2 * k);
            Ok(Kind::Ring(RingNumber { num, m }))
        }
        None if is_rational(z) => Ok(Kind::Rational(lowest(z.a, n))),
        None => Err(Lack::NotExact),
    }
}

// z/n times π
fn angle(z: Wide, n: u128) -> Result<Kind, Lack>
    requires number { IsWithin (2 ^ 126) (wide_element z) }
    requires some { 0 < n }
    requires bound { n ≤ 2 ^ 125 }
    ensures { value_of_kind result ≡ settled_angle (wide_element z) n }
{
    if is_rational(z) {
        Ok(Kind::Pi(lowest(z.a, n)))
    } else if is_imaginary(z) {
        Ok(Kind::ImagPi(lowest(z.c, n)))
    } else {
        Err(Lack::NotExact)
    }
}

fn zero() -> Kind
    ensures { exact_of result ≡ Ring nought 0 }
{
    let num = Wide {
        a: 0,
        b: 0,
        c: 0,
        d: 0,
    };
    Kind::Ring(RingNumber { num, m: 0 })
}

// z/n · π^k, before its bounds are tried.
fn kind(z: Wide, n: u128, k: i32) -> Result<Kind, Lack>
    requires number { IsWithin (2 ^ 126) (wide_element z) }
    requires some { 0 < n }
    requires bound { n ≤ 2 ^ 125 }
    ensures { value_of_kind result ≡ settled (wide_element z) n k }
{
    if is_zero(z) {
        return Ok(zero());
    }
    match k {
        0 => number(z, n),
        1 => angle(z, n),
        _ => Err(Lack::NotExact),
    }
}

/// z/n · π^k in its one form, or why it has none: it is of none of the four kinds, or too wide.
///
/// The coefficients of z are at most 2^126 in absolute value, and n is from 1 to 2^125.
pub(crate) fn settled(z: Wide, n: u128, k: i32) -> Result<Value, Lack>
    requires number { IsWithin (2 ^ 126) (wide_element z) }
    requires some { 0 < n }
    requires bound { n ≤ 2 ^ 125 }
    ensures { result ≡ bounded (settled (wide_element z) n k) }
{
    let kind = kind(z, n, k)?;
    bounded(kind)
}
