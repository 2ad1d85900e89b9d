//! Arithmetic of rationals in lowest terms and within the bounds of a value.

ghost use Rattle.std.specs.Prelude.{◌≡◌, ◌<◌, ◌≤◌, ◌^◌, ◌*◌, nat_abs, pos, ◌+ℤ◌, ◌*ℤ◌, neg_ℤ, IfOk};
ghost use Rattle.quil_value.specs.Sums.{ratio, ratio_sum, ratio_product, inverse};
ghost use Rattle.quil_value.specs.SumForms.{IsRatio};

use crate::lack::Lack;
use crate::ring_product::part;
use quil_number::{Fraction, lowest};

const BOUND: u128 = 1 << 62;

// p/q in lowest terms, where it is within the bounds.
fn ratio(p: i128, q: u128) -> Result<Fraction, Lack>
    requires numerator { nat_abs p ≤ 2 ^ 126 }
    requires some { 0 < q }
    requires bound { q ≤ 2 ^ 126 }
    ensures value { result ≡ ratio p q }
    ensures form { IfOk result IsRatio }
{
    let x = lowest(p, q);
    if x.p.unsigned_abs() <= BOUND && x.q <= BOUND {
        Ok(x)
    } else {
        Err(Lack::NumberTooWide)
    }
}

fn scaled(x: i128, n: u128) -> i128
    requires left { nat_abs x ≤ 2 ^ 62 }
    requires right { n ≤ 2 ^ 62 }
    ensures value { result ≡ x *ℤ pos n }
    ensures bound { nat_abs result ≤ 2 ^ 124 }
{
    part(x, n as i128)
}

fn add(x: i128, y: i128) -> i128
    requires left { nat_abs x ≤ 2 ^ 124 }
    requires right { nat_abs y ≤ 2 ^ 124 }
    ensures value { result ≡ x +ℤ y }
    ensures bound { nat_abs result ≤ 2 ^ 125 }
{
    x + y
}

fn denominator(q: u128, r: u128) -> u128
    requires left { 0 < q }
    requires right { 0 < r }
    requires left_bound { q ≤ 2 ^ 62 }
    requires right_bound { r ≤ 2 ^ 62 }
    ensures value { result ≡ q * r }
    ensures some { 0 < result }
    ensures bound { result ≤ 2 ^ 124 }
{
    q * r
}

/// x + y
pub(crate) fn ratio_sum(x: Fraction, y: Fraction) -> Result<Fraction, Lack>
    requires left { IsRatio x }
    requires right { IsRatio y }
    ensures value { result ≡ ratio_sum x y }
    ensures form { IfOk result IsRatio }
{
    let left = scaled(x.p, y.q);
    let right = scaled(y.p, x.q);
    ratio(add(left, right), denominator(x.q, y.q))
}

/// x · y
pub(crate) fn ratio_product(x: Fraction, y: Fraction) -> Result<Fraction, Lack>
    requires left { IsRatio x }
    requires right { IsRatio y }
    ensures value { result ≡ ratio_product x y }
    ensures form { IfOk result IsRatio }
{
    ratio(part(x.p, y.p), denominator(x.q, y.q))
}

/// 1/x
pub(crate) fn inverse(x: Fraction) -> Fraction
    requires form { IsRatio x }
    requires some { 0 < nat_abs x.p }
    ensures value { result ≡ inverse x }
    ensures form { IsRatio result }
{
    let p = x.q as i128;
    let q = x.p.unsigned_abs();
    if x.p < 0 {
        Fraction { p: -p, q }
    } else {
        Fraction { p, q }
    }
}

/// -x
pub(crate) fn opposite(x: Fraction) -> Fraction
    requires { IsRatio x }
    ensures value { result ≡ record { p = neg_ℤ x.p; q = x.q } }
    ensures form { IsRatio result }
{
    Fraction { p: -x.p, q: x.q }
}
