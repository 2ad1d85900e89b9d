//! Values as fractions of numbers that are small enough to multiply.

ghost use Rattle.std.specs.Prelude.{◌≡◌, ◌<◌, ◌≤◌, ◌+◌, ◌*◌, ◌^◌, nat_abs, pos, ◌+ℤ◌, ◌*ℤ◌, neg_ℤ, true};
ghost use Rattle.qvm_ring.specs.Ring.{times};
ghost use Rattle.qvm_ring.specs.Views.{wide_element};
ghost use Rattle.qvm_ring.specs.Multiply.{IsWithin};
ghost use Rattle.quil_value.specs.Exact.{Ring, Rational, Pi, ImagPi, bounded, settled};
ghost use Rattle.quil_value.specs.RealNumbers.{real_number, imaginary_number};
ghost use Rattle.quil_value.specs.Value.{IsValue};
ghost use Rattle.quil_value.specs.Views.{AreParts, AreSmall, is_lone};

use crate::lack::Lack;
use crate::ring_number::{minus, rooted};
use crate::settle::{is_imaginary, is_rational, settled};
use crate::value::{Kind, RingNumber, Value};
use qvm_ring::Wide;

/// The number num/den · π^power.
#[derive(Clone, Copy)]
pub struct Parts {
    pub num: Wide,
    pub den: u128,
    pub power: i32,
}

pub(crate) fn real(a: i128) -> Wide
    ensures { wide_element result ≡ real_number a }
{
    Wide {
        a,
        b: 0,
        c: 0,
        d: 0,
    }
}

pub(crate) fn imaginary(c: i128) -> Wide
    ensures { wide_element result ≡ imaginary_number c }
{
    Wide {
        a: 0,
        b: 0,
        c,
        d: 0,
    }
}

fn power_of_two(k: u32) -> u128
    requires { k ≤ 62 }
    ensures value { result ≡ 2 ^ k }
    ensures some { 0 < result }
    ensures bound { result ≤ 2 ^ 62 }
{
    1 << k
}

// z/√2^m: over 2^(m/2), or for an odd m z√2 over 2^((m + 1)/2).
fn ring_parts(x: RingNumber) -> Parts
    requires { IsValue (Ring (wide_element x.num) x.m) }
    ensures parts { AreParts (Ring (wide_element x.num) x.m) (wide_element result.num) result.den result.power }
    ensures small { AreSmall (wide_element result.num) result.den result.power }
{
    let half = x.m / 2;
    if x.m % 2 == 0 {
        Parts {
            num: x.num,
            den: power_of_two(half),
            power: 0,
        }
    } else {
        Parts {
            num: rooted(x.num),
            den: power_of_two(half + 1),
            power: 0,
        }
    }
}

/// The parts of a value: coordinates of at most 2^63 over at most 2^62.
#[tactic(auto, using(crate::proofs::SmallParts::rational_parts, crate::proofs::SmallParts::pi_parts, crate::proofs::SmallParts::imag_pi_parts))]
pub(crate) fn parts_of(x: &Value) -> Parts
    ensures parts { AreParts x.now (wide_element result.num) result.den result.power }
    ensures small { AreSmall (wide_element result.num) result.den result.power }
{
    match x.kind() {
        Kind::Ring(x) => ring_parts(x),
        Kind::Rational(x) => Parts {
            num: real(x.p),
            den: x.q,
            power: 0,
        },
        Kind::Pi(x) => Parts {
            num: real(x.p),
            den: x.q,
            power: 1,
        },
        Kind::ImagPi(x) => Parts {
            num: imaginary(x.p),
            den: x.q,
            power: 1,
        },
    }
}

/// Whether it is a rational, or a rational times i.
pub(crate) fn is_lone(z: Wide) -> bool
    ensures { result ≡ is_lone (wide_element z) }
{
    is_rational(z) || is_imaginary(z)
}

fn product(x: i128, y: i128) -> i128
    requires left { nat_abs x ≤ 2 ^ 63 }
    requires right { nat_abs y ≤ 2 ^ 63 }
    ensures value { result ≡ x *ℤ y }
    ensures bound { nat_abs result ≤ 2 ^ 63 * nat_abs x }
{
    x * y
}

/// n · z
pub(crate) fn scaled(n: i128, z: Wide) -> Wide
    requires factor { nat_abs n ≤ 2 ^ 63 }
    requires number { IsWithin (2 ^ 63) (wide_element z) }
    ensures value { wide_element result ≡ times (real_number n) (wide_element z) }
    ensures bound { IsWithin (2 ^ 63 * nat_abs n) (wide_element result) }
{
    let a = product(n, z.a);
    let b = product(n, z.b);
    let c = product(n, z.c);
    let d = product(n, z.d);
    Wide { a, b, c, d }
}

// n · i · z
fn turned(n: i128, z: Wide) -> Wide
    requires factor { nat_abs n ≤ 2 ^ 63 }
    requires number { IsWithin (2 ^ 63) (wide_element z) }
    ensures value { wide_element result ≡ times (imaginary_number n) (wide_element z) }
    ensures bound { IsWithin (2 ^ 126) (wide_element result) }
{
    let w = scaled(n, z);
    let a = minus(w.c);
    let b = minus(w.d);
    Wide {
        a,
        b,
        c: w.a,
        d: w.b,
    }
}

// z · w, where w is a rational, or a rational times i.
fn lone_times(w: Wide, z: Wide) -> Wide
    requires left { IsWithin (2 ^ 63) (wide_element w) }
    requires right { IsWithin (2 ^ 63) (wide_element z) }
    requires lone { is_lone (wide_element w) ≡ true }
    ensures value { wide_element result ≡ times (wide_element w) (wide_element z) }
    ensures bound { IsWithin (2 ^ 126) (wide_element result) }
{
    if is_rational(w) {
        scaled(w.a, z)
    } else {
        turned(w.c, z)
    }
}

/// The product of parts, of which the left ones are a rational or a rational times i, but for the power of π.
pub(crate) fn lone_product(x: Parts, y: Parts) -> Result<Value, Lack>
    requires lone { is_lone (wide_element x.num) ≡ true }
    requires left { IsWithin (2 ^ 63) (wide_element x.num) }
    requires left_some { 0 < x.den }
    requires left_bound { x.den ≤ 2 ^ 63 }
    requires left_power { nat_abs x.power ≤ 1 }
    requires right { AreSmall (wide_element y.num) y.den y.power }
    ensures { result ≡ bounded (settled (times (wide_element x.num) (wide_element y.num)) (x.den * y.den) (x.power +ℤ y.power)) }
{
    let num = lone_times(x.num, y.num);
    settled(num, x.den * y.den, x.power + y.power)
}
