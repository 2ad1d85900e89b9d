//! Powers with whole exponents.

ghost use Rattle.std.specs.Prelude.{◌≡◌, ◌≤◌, ◌<◌, ◌^◌, nat_abs, pos, IfSome};
ghost use Rattle.std.specs.Ordering.{int_eq};
ghost use Rattle.qvm_ring.specs.Ring.{times, conjugate, root_two};
ghost use Rattle.quil_value.specs.Angles.{power_of_omega};
ghost use Rattle.qvm_ring.specs.Views.{wide_element};
ghost use Rattle.qvm_ring.specs.Multiply.{IsWithin};
ghost use Rattle.quil_value.specs.Table as table;
ghost use Rattle.quil_value.specs.Exact.{power_of_pi, quotient_of};
ghost use Rattle.quil_value.specs.RealNumbers.{real_number};

use crate::lack::Lack;
use crate::ring_number::{add, subtract};
use crate::value::{Kind, RingNumber, Value, is_real};
use crate::value_product::product;
use crate::value_quotient::quotient;
use qvm_ring::Wide;

fn one() -> Value
    ensures { result ≡ table.one }
{
    let num = Wide {
        a: 1,
        b: 0,
        c: 0,
        d: 0,
    };
    Value::new(Kind::Ring(RingNumber { num, m: 0 }))
}

// x^n, each power the one before it, times x.

fn repeated(x: &Value, n: u32) -> Result<Value, Lack>
    ensures { result ≡ table.power x.now n }
{
    let mut power = one();
    for _turn in 0..n {
        power = product(&power, x)?;
    }
    Ok(power)
}

fn real(a: i128) -> Wide
    ensures { wide_element result ≡ real_number a }
{
    Wide {
        a,
        b: 0,
        c: 0,
        d: 0,
    }
}

// z·√2
fn rooted(z: Wide) -> Wide
    requires { IsWithin (2 ^ 63) (wide_element z) }
    ensures value { wide_element result ≡ times root_two (wide_element z) }
    ensures bound { IsWithin (2 ^ 64) (wide_element result) }
{
    let a = subtract(z.b, z.d);
    let b = add(z.a, z.c);
    let c = add(z.b, z.d);
    let d = subtract(z.c, z.a);
    Wide { a, b, c, d }
}

// A ring number times a power of 2.
#[tactic(auto, using(crate::proofs::Directions::rooted_within, crate::proofs::Directions::value_within))]
fn direction(x: &Value) -> Wide
    ensures value { wide_element result ≡ table.direction x.now }
    ensures bound { IsWithin (2 ^ 63) (wide_element result) }
{
    match x.kind() {
        Kind::Ring(x) if x.m % 2 == 0 => x.num,
        Kind::Ring(x) => rooted(x.num),
        Kind::Rational(x) | Kind::Pi(x) | Kind::ImagPi(x) => real(x.p),
    }
}

// z·ω^-k
fn turned_back(k: u32, z: Wide) -> Wide
    requires turn { k < 4 }
    requires number { IsWithin (2 ^ 64) (wide_element z) }
    ensures { wide_element result ≡ times (wide_element z) (conjugate (power_of_omega k)) }
{
    match k {
        0 => z,
        1 => Wide {
            a: z.b,
            b: z.c,
            c: z.d,
            d: -z.a,
        },
        2 => Wide {
            a: z.c,
            b: z.d,
            c: -z.a,
            d: -z.b,
        },
        _ => Wide {
            a: z.d,
            b: -z.a,
            c: -z.b,
            d: -z.c,
        },
    }
}

// A whole number times ω^k.
fn is_turned(k: u32, z: Wide) -> bool
    requires turn { k < 4 }
    requires number { IsWithin (2 ^ 64) (wide_element z) }
    ensures { result ≡ table.is_turned k (wide_element z) }
{
    is_real(turned_back(k, z))
}

// z^n is a rational, for z a whole number times ω^k, or √2 times one.
fn is_rational_turned(z: Wide, n: u32, k: u32) -> bool
    requires number { IsWithin (2 ^ 63) (wide_element z) }
    requires exponent { n ≤ 64 }
    requires turn { k < 4 }
    ensures { result ≡ table.is_rational_turned (wide_element z) n k }
{
    n * k % 4 == 0 && (is_turned(k, z) || (n % 2 == 0 && is_turned(k, rooted(z))))
}

fn has_rational_power(z: Wide, n: u32) -> bool
    requires number { IsWithin (2 ^ 63) (wide_element z) }
    requires exponent { n ≤ 64 }
    ensures { result ≡ table.has_rational_power (wide_element z) n }
{
    is_rational_turned(z, n, 0)
        || is_rational_turned(z, n, 1)
        || is_rational_turned(z, n, 2)
        || is_rational_turned(z, n, 3)
}

// 1/x^n, where 1/x is none of the four kinds.
fn over_power(x: &Value, n: u32) -> Result<Value, Lack>
    requires { n ≤ 64 }
    ensures { result ≡ table.over_power x.now n (table.power x.now n) }
{
    match repeated(x, n) {
        Ok(power) => quotient(&one(), &power),
        Err(_) if has_rational_power(direction(x), n) => Err(Lack::NumberTooWide),
        Err(_) => Err(Lack::NotExact),
    }
}

// x^-n
fn inverse_power(x: &Value, n: u32) -> Result<Value, Lack>
    requires { n ≤ 64 }
    ensures { result ≡ table.inverse_power x.now n (quotient_of table.one x.now) }
{
    match quotient(&one(), x) {
        Ok(inverse) => repeated(&inverse, n),
        Err(Lack::NotExact) => over_power(x, n),
        Err(lack) => Err(lack),
    }
}

#[tactic(auto, using(crate::proofs::Repeated::positive_power, crate::proofs::Repeated::negative_power))]
fn raised_to(x: &Value, n: i32) -> Result<Value, Lack>
    requires { nat_abs n ≤ 64 }
    ensures { result ≡ table.whole_power x.now n }
{
    if n >= 0 {
        repeated(x, n.unsigned_abs())
    } else {
        inverse_power(x, n.unsigned_abs())
    }
}

// The exponent, if it is a whole number from -64 to 64.
fn exponent(x: &Value) -> Option<i32>
    ensures value { result ≡ table.exponent_of x.now }
    ensures bound { IfSome result (λ n. nat_abs n ≤ 64) }
{
    let n = x.whole()?;
    if n.unsigned_abs() <= 64 {
        Some(n as i32)
    } else {
        None
    }
}

// A ring number or a rational.
fn is_number(x: &Value) -> bool
    ensures { result ≡ int_eq (power_of_pi x.now) (pos 0) }
{
    matches!(x.kind(), Kind::Ring(_) | Kind::Rational(_))
}

/// x^y, for a ring number or a rational x and a whole number y from -64 to 64.
///
/// Each power is the one before it, times x. One with a negative exponent is a power of 1/x where that is of the four kinds;
/// else it is 1 divided by the power.
pub fn power(x: &Value, y: &Value) -> Result<Value, Lack>
    ensures { result ≡ table.power_of x.now y.now }
{
    let Some(n) = exponent(y) else {
        return Err(Lack::NotExact);
    };
    if !is_number(x) {
        return Err(Lack::NotExact);
    }
    raised_to(x, n)
}
