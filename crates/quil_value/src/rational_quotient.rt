//! Rational quotients of ring numbers, in 128 bits.

ghost use Rattle.std.specs.Prelude.{◌≡◌, ◌*◌, ◌%◌, ◌^◌, ◌<◌, ◌≤◌, ◌*ℤ◌, ℤ, pos, nat_abs, Ok, false};
ghost use Rattle.qvm_ring.specs.Ring.{times, whole_number, is_zero};
ghost use Rattle.qvm_ring.specs.Views.{wide_element};
ghost use Rattle.qvm_ring.specs.Multiply.{IsWithin};
ghost use Rattle.quil_value.specs.Exact.{Ring, Rational, root_power, bounded, quotient_of};
ghost use Rattle.quil_number.specs.Fraction.{lowest};
ghost use Rattle.quil_value.specs.Forms.{IsRational};
ghost use Rattle.quil_value.specs.Value.{IsValue};
ghost use Rattle.quil_value.specs.Views.{stretched, HasNone};

use crate::lack::Lack;
use crate::ring_number::rooted;
use crate::value::{Kind, RingNumber, Value};
use quil_number::{Fraction, lowest};
use qvm_ring::Wide;

/// Two powers of two, the factor up/down.
#[derive(Clone, Copy)]
struct Factor {
    up: u128,
    down: u128,
}

fn product(x: i128, y: i128) -> i128
    requires left { nat_abs x ≤ 2 ^ 63 }
    requires right { nat_abs y ≤ 2 ^ 63 }
    ensures { result ≡ x *ℤ y }
{
    x * y
}

// p/q for a q of either sign.
fn ratio(p: i128, q: i128) -> Fraction
    requires numerator { nat_abs p ≤ 2 ^ 63 }
    requires denominator { nat_abs q ≤ 2 ^ 62 }
    ensures value { (r s : ℤ) → p *ℤ s ≡ q *ℤ r → result.p *ℤ s ≡ pos result.q *ℤ r }
    ensures numerator { nat_abs result.p ≡ nat_abs p }
    ensures denominator { result.q ≡ nat_abs q }
{
    if q < 0 {
        Fraction {
            p: -p,
            q: q.unsigned_abs(),
        }
    } else {
        Fraction {
            p,
            q: q.unsigned_abs(),
        }
    }
}

// The only fraction that x can be y times, by a coefficient of y that isn't 0.
fn pivot(x: Wide, y: Wide) -> Fraction
    requires left { IsWithin (2 ^ 63) (wide_element x) }
    requires right { IsWithin (2 ^ 62) (wide_element y) }
    requires some { is_zero (wide_element y) ≡ false }
    ensures only { (r s : ℤ) → stretched (wide_element x) s ≡ stretched (wide_element y) r → result.p *ℤ s ≡ pos result.q *ℤ r }
    ensures numerator { nat_abs result.p ≤ 2 ^ 63 }
    ensures denominator { result.q ≤ 2 ^ 62 }
    ensures some { 0 < result.q }
{
    if y.a != 0 {
        ratio(x.a, y.a)
    } else if y.b != 0 {
        ratio(x.b, y.b)
    } else if y.c != 0 {
        ratio(x.c, y.c)
    } else {
        ratio(x.d, y.d)
    }
}

// z · p
fn stretched(z: Wide, p: i128) -> Wide
    requires number { IsWithin (2 ^ 63) (wide_element z) }
    requires factor { nat_abs p ≤ 2 ^ 63 }
    ensures { wide_element result ≡ stretched (wide_element z) p }
{
    let a = product(z.a, p);
    let b = product(z.b, p);
    let c = product(z.c, p);
    let d = product(z.d, p);
    Wide { a, b, c, d }
}

// √2^n/√2^m is up/down, for n and m of one parity.
fn root_factor(n: u32, m: u32) -> Factor
    requires parity { n % 2 ≡ m % 2 }
    requires numerator { n ≤ 124 }
    requires denominator { m ≤ 125 }
    ensures value { times (whole_number result.down) (root_power n) ≡ times (whole_number result.up) (root_power m) }
    ensures up { result.up ≤ 2 ^ 62 }
    ensures down { result.down ≤ 2 ^ 62 }
    ensures up_some { 0 < result.up }
    ensures down_some { 0 < result.down }
{
    if n >= m {
        Factor {
            up: 1 << ((n - m) / 2),
            down: 1,
        }
    } else {
        Factor {
            up: 1,
            down: 1 << ((m - n) / 2),
        }
    }
}

// z/√2^m over a power of √2 that is even or odd as n is.
fn leveled(z: Wide, m: u32, n: u32) -> RingNumber
    requires number { IsWithin (2 ^ 62) (wide_element z) }
    requires power { m ≤ 124 }
    requires other { n ≤ 124 }
    ensures value { times (wide_element z) (root_power result.m) ≡ times (wide_element result.num) (root_power m) }
    ensures parity { n % 2 ≡ result.m % 2 }
    ensures number { IsWithin (2 ^ 63) (wide_element result.num) }
    ensures power { result.m ≤ 125 }
{
    if m % 2 == n % 2 {
        RingNumber { num: z, m }
    } else {
        RingNumber {
            num: rooted(z),
            m: m + 1,
        }
    }
}

// The fraction times up/down, in lowest terms.
fn scaled(x: Fraction, by: Factor) -> Fraction
    requires numerator { nat_abs x.p ≤ 2 ^ 63 }
    requires denominator { x.q ≤ 2 ^ 62 }
    requires some { 0 < x.q }
    requires up { by.up ≤ 2 ^ 62 }
    requires down { by.down ≤ 2 ^ 62 }
    requires down_some { 0 < by.down }
    ensures { result ≡ lowest (x.p *ℤ pos by.up) (x.q * by.down) }
{
    lowest(product(x.p, by.up as i128), x.q * by.down)
}

// The fraction, where it is within the bounds of a value.
fn judged(x: Fraction) -> Result<Value, Lack>
    requires { IsRational x }
    ensures { result ≡ bounded (Ok (Rational x)) }
{
    if x.p.unsigned_abs() <= 1 << 62 && x.q <= 1 << 62 {
        Ok(Value::new(Kind::Rational(x)))
    } else {
        Err(Lack::NumberTooWide)
    }
}

/// The quotient of two ring numbers that aren't 0, where no ring number is the quotient.
pub(crate) fn rational_quotient(x: RingNumber, y: RingNumber) -> Result<Value, Lack>
    requires left { IsValue (Ring (wide_element x.num) x.m) }
    requires left_some { is_zero (wide_element x.num) ≡ false }
    requires right { IsValue (Ring (wide_element y.num) y.m) }
    requires right_some { is_zero (wide_element y.num) ≡ false }
    requires none { HasNone (wide_element x.num) x.m (wide_element y.num) y.m }
    ensures { result ≡ quotient_of (Ring (wide_element x.num) x.m) (Ring (wide_element y.num) y.m) }
{
    let dividend = leveled(x.num, x.m, y.m);
    let factor = pivot(dividend.num, y.num);
    let left = stretched(dividend.num, factor.q as i128);
    let right = stretched(y.num, factor.p);
    if left == right {
        judged(scaled(factor, root_factor(y.m, dividend.m)))
    } else {
        Err(Lack::NotExact)
    }
}
