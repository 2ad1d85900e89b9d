//! Quotients of ring numbers, exactly, in 128 bits.
//!
//! Both numbers are multiplied until the divisor is odd, but for powers of √2, and then divided from the low end. Where no
//! ring number is the quotient, a rational may be.

ghost use Rattle.std.specs.Prelude.{◌≡◌, ◌-◌, ◌^◌, ◌≤◌, nat_abs, IfSome, None, Ok, false};
ghost use Rattle.qvm_ring.specs.Ring.{times, is_divisible, is_zero};
ghost use Rattle.qvm_ring.specs.Views.{wide_element};
ghost use Rattle.qvm_ring.specs.Multiply.{IsWithin};
ghost use Rattle.quil_value.specs.Exact.{Ring, Rational, least, root_power, bounded, quotient_of};
ghost use Rattle.quil_value.specs.Forms.{IsLeast, IsRational};
ghost use Rattle.quil_value.specs.Value.{IsValue};

use crate::lack::Lack;
use crate::low_end::{Division, divided, is_all_near};
use crate::odd_multiple::{multiplied, odd_multiple, stripped};
use crate::rational_quotient::rational_quotient;
use crate::ring_number::rooted;
use crate::value::{Kind, RingNumber, Value};
use qvm_ring::Wide;

fn is_zero(z: Wide) -> bool
    ensures { result ≡ is_zero (wide_element z) }
{
    z.a == 0 && z.b == 0 && z.c == 0 && z.d == 0
}

// z/√2^m, where it is within the bounds of a value.
fn judged(num: Wide, m: u32) -> Result<Value, Lack>
    requires { IsLeast (wide_element num) m }
    ensures { result ≡ bounded (Ok (Ring (wide_element num) m)) }
{
    if is_all_near(num) && m <= 124 {
        Ok(Value::new(Kind::Ring(RingNumber { num, m })))
    } else {
        Err(Lack::NumberTooWide)
    }
}

// z·√2^k, where its coefficients are at most 2^62.
fn raised(z: Wide, k: u32) -> Option<Wide>
    requires { IsWithin (2 ^ 62) (wide_element z) }
    ensures value { IfSome result (λ w. wide_element w ≡ times (wide_element z) (root_power k)) }
    ensures bound { IfSome result (λ w. IsWithin (2 ^ 62) (wide_element w)) }
    ensures none { result ≡ None → IsWithin (2 ^ 62) (times (wide_element z) (root_power k)) → ⊥ }
{
    let mut number = z;
    for _turn in 0..k {
        number = rooted(number);
        if !is_all_near(number) {
            return None;
        }
    }
    Some(number)
}

// z·√2^up/√2^down, where it is within the bounds of a value.
fn placed(z: Wide, up: u32, down: u32) -> Result<Value, Lack>
    requires least { is_divisible (wide_element z) ≡ false }
    requires bound { IsWithin (2 ^ 62) (wide_element z) }
    ensures { result ≡ bounded (Ok (least (times (wide_element z) (root_power up)) down)) }
{
    if up <= down {
        return judged(z, down - up);
    }
    match raised(z, up - down) {
        Some(num) => Ok(Value::new(Kind::Ring(RingNumber { num, m: 0 }))),
        None => Err(Lack::NumberTooWide),
    }
}

// The quotient of two ring numbers that aren't 0.
fn quotient_of_some(x: RingNumber, y: RingNumber) -> Result<Value, Lack>
    requires left { IsValue (Ring (wide_element x.num) x.m) }
    requires left_some { is_zero (wide_element x.num) ≡ false }
    requires right { IsValue (Ring (wide_element y.num) y.m) }
    requires right_some { is_zero (wide_element y.num) ≡ false }
    ensures { result ≡ quotient_of (Ring (wide_element x.num) x.m) (Ring (wide_element y.num) y.m) }
{
    let divisor = odd_multiple(y.num);
    let multiple = multiplied(x.num, divisor.first, divisor.second);
    let (dividend, power) = stripped(multiple);
    match divided(dividend, divisor.half) {
        Division::Exact(z) => placed(z, power + y.m, divisor.power + x.m),
        Division::TooWide => Err(Lack::NumberTooWide),
        Division::Nothing => rational_quotient(x, y),
    }
}

/// The quotient of two ring numbers.
pub(crate) fn ring_quotient(x: RingNumber, y: RingNumber) -> Result<Value, Lack>
    requires left { IsValue (Ring (wide_element x.num) x.m) }
    requires right { IsValue (Ring (wide_element y.num) y.m) }
    ensures { result ≡ quotient_of (Ring (wide_element x.num) x.m) (Ring (wide_element y.num) y.m) }
{
    if is_zero(y.num) {
        return Err(Lack::ZeroDivisor);
    }
    if is_zero(x.num) {
        return Ok(Value::new(Kind::Ring(RingNumber { num: x.num, m: 0 })));
    }
    quotient_of_some(x, y)
}
