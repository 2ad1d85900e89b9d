//! Quotients of values.

ghost use Rattle.std.specs.Prelude.{◌≡◌, ◌<◌, ◌≤◌, ◌*◌, ◌^◌, ◌&&◌, nat_abs, pos, ◌*ℤ◌, neg_ℤ, true, false};
ghost use Rattle.qvm_ring.specs.Ring.{times, whole_number, is_zero};
ghost use Rattle.qvm_ring.specs.Views.{wide_element};
ghost use Rattle.qvm_ring.specs.Multiply.{IsWithin};
ghost use Rattle.quil_value.specs.Exact.{Exact, quotient_of};
ghost use Rattle.quil_value.specs.Views.{AreParts, AreSmall, is_lone, is_ring};

use crate::lack::Lack;
use crate::parts::{Parts, imaginary, is_lone, lone_product, parts_of, real};
use crate::ring_number::minus;
use crate::ring_quotient::ring_quotient;
use crate::settle::is_rational;
use crate::value::{Kind, Value, is_zero};

// n with the sign of p.
#[tactic(auto, using(crate::proofs::LoneProducts::sign_positive, crate::proofs::LoneProducts::sign_negative))]
fn signed(n: u128, p: i128) -> i128
    requires { n ≤ 2 ^ 62 }
    ensures value { result *ℤ p ≡ pos (nat_abs p * n) }
    ensures bound { nat_abs result ≤ 2 ^ 62 }
{
    let n = n as i128;
    if p < 0 { -n } else { n }
}

// -k
fn opposite_power(k: i32) -> i32
    requires { nat_abs k ≤ 1 }
    ensures value { result ≡ neg_ℤ k }
    ensures bound { nat_abs result ≤ 1 }
{
    -k
}

// 1 over n/m · π^k, where n is a rational other than 0, or one times i.
fn inverse(x: Parts) -> Parts
    requires small { AreSmall (wide_element x.num) x.den x.power }
    requires lone { is_lone (wide_element x.num) ≡ true }
    requires some { is_zero (wide_element x.num) ≡ false }
    ensures product { times (wide_element result.num) (wide_element x.num) ≡ whole_number (result.den * x.den) }
    ensures lone { is_lone (wide_element result.num) ≡ true }
    ensures number { IsWithin (2 ^ 63) (wide_element result.num) }
    ensures positive { 0 < result.den }
    ensures bound { result.den ≤ 2 ^ 63 }
    ensures power { result.power ≡ neg_ℤ x.power }
    ensures least_power { nat_abs result.power ≤ 1 }
{
    let power = opposite_power(x.power);
    if is_rational(x.num) {
        let p = x.num.a;
        Parts {
            num: real(signed(x.den, p)),
            den: p.unsigned_abs(),
            power,
        }
    } else {
        let p = x.num.c;
        Parts {
            num: imaginary(minus(signed(x.den, p))),
            den: p.unsigned_abs(),
            power,
        }
    }
}

// The quotient by the parts of two values, which aren't both ring numbers.
fn parts_quotient(x: Parts, y: Parts) -> Result<Value, Lack>
    requires left { AreSmall (wide_element x.num) x.den x.power }
    requires right { AreSmall (wide_element y.num) y.den y.power }
    ensures { (v w : Exact) → AreParts v (wide_element x.num) x.den x.power → AreParts w (wide_element y.num) y.den y.power → (is_ring v && is_ring w) ≡ false → result ≡ quotient_of v w }
{
    if is_zero(y.num) {
        Err(Lack::ZeroDivisor)
    } else if is_lone(y.num) {
        lone_product(inverse(y), x)
    } else {
        Err(Lack::NotExact)
    }
}

/// x / y. A value that is no ring number has no quotient by a ring number but by a rational, or a rational times i.
pub fn quotient(x: &Value, y: &Value) -> Result<Value, Lack>
    ensures { result ≡ quotient_of x.now y.now }
{
    match (x.kind(), y.kind()) {
        (Kind::Ring(x), Kind::Ring(y)) => ring_quotient(x, y),
        _ => parts_quotient(parts_of(x), parts_of(y)),
    }
}
