//! Products of ring numbers z/√2^m in 128 bits, each in its one form.

ghost use Rattle.std.specs.Prelude.{◌≡◌, ◌+◌, ◌^◌, ◌≤◌, nat_abs, ◌+ℤ◌, ◌-ℤ◌, ◌*ℤ◌};
ghost use Rattle.qvm_ring.specs.Ring.{times};
ghost use Rattle.qvm_ring.specs.Views.{wide_element};
ghost use Rattle.qvm_ring.specs.Multiply.{IsWithin};
ghost use Rattle.quil_value.specs.Exact.{Ring, product_of};
ghost use Rattle.quil_value.specs.Value.{IsValue};

use crate::lack::Lack;
use crate::ring_number::lowered;
use crate::settle::bounded;
use crate::value::{Kind, RingNumber, Value};
use qvm_ring::Wide;

fn narrow(x: i128) -> i64
    requires { nat_abs x ≤ 2 ^ 62 }
    ensures { result ≡ x }
{
    x as i64
}

fn narrow_product(x: i64, y: i64) -> i128
    requires left { nat_abs x ≤ 2 ^ 62 }
    requires right { nat_abs y ≤ 2 ^ 62 }
    ensures value { result ≡ x *ℤ y }
    ensures bound { nat_abs result ≤ 2 ^ 124 }
{
    i128::from(x) * i128::from(y)
}

/// x · y, both at most 2^62 in absolute value.
pub(crate) fn part(x: i128, y: i128) -> i128
    requires left { nat_abs x ≤ 2 ^ 62 }
    requires right { nat_abs y ≤ 2 ^ 62 }
    ensures value { result ≡ x *ℤ y }
    ensures bound { nat_abs result ≤ 2 ^ 124 }
{
    let left = narrow(x);
    let right = narrow(y);
    narrow_product(left, right)
}

fn add(x: i128, y: i128) -> i128
    requires left { nat_abs x ≤ 2 ^ 126 }
    requires right { nat_abs y ≤ 2 ^ 124 }
    ensures value { result ≡ x +ℤ y }
    ensures bound { nat_abs result ≤ nat_abs x + nat_abs y }
{
    x + y
}

fn subtract(x: i128, y: i128) -> i128
    requires left { nat_abs x ≤ 2 ^ 126 }
    requires right { nat_abs y ≤ 2 ^ 124 }
    ensures value { result ≡ x -ℤ y }
    ensures bound { nat_abs result ≤ nat_abs x + nat_abs y }
{
    x - y
}

// p - q - r - s
fn three_less(p: i128, q: i128, r: i128, s: i128) -> i128
    requires p { nat_abs p ≤ 2 ^ 124 }
    requires q { nat_abs q ≤ 2 ^ 124 }
    requires r { nat_abs r ≤ 2 ^ 124 }
    requires s { nat_abs s ≤ 2 ^ 124 }
    ensures value { result ≡ p -ℤ q -ℤ r -ℤ s }
    ensures bound { nat_abs result ≤ 2 ^ 126 }
{
    subtract(subtract(subtract(p, q), r), s)
}

// p + q - r - s
fn two_less(p: i128, q: i128, r: i128, s: i128) -> i128
    requires p { nat_abs p ≤ 2 ^ 124 }
    requires q { nat_abs q ≤ 2 ^ 124 }
    requires r { nat_abs r ≤ 2 ^ 124 }
    requires s { nat_abs s ≤ 2 ^ 124 }
    ensures value { result ≡ p +ℤ q -ℤ r -ℤ s }
    ensures bound { nat_abs result ≤ 2 ^ 126 }
{
    subtract(subtract(add(p, q), r), s)
}

// p + q + r - s
fn one_less(p: i128, q: i128, r: i128, s: i128) -> i128
    requires p { nat_abs p ≤ 2 ^ 124 }
    requires q { nat_abs q ≤ 2 ^ 124 }
    requires r { nat_abs r ≤ 2 ^ 124 }
    requires s { nat_abs s ≤ 2 ^ 124 }
    ensures value { result ≡ p +ℤ q +ℤ r -ℤ s }
    ensures bound { nat_abs result ≤ 2 ^ 126 }
{
    subtract(add(add(p, q), r), s)
}

// p + q + r + s
fn all(p: i128, q: i128, r: i128, s: i128) -> i128
    requires p { nat_abs p ≤ 2 ^ 124 }
    requires q { nat_abs q ≤ 2 ^ 124 }
    requires r { nat_abs r ≤ 2 ^ 124 }
    requires s { nat_abs s ≤ 2 ^ 124 }
    ensures value { result ≡ p +ℤ q +ℤ r +ℤ s }
    ensures bound { nat_abs result ≤ 2 ^ 126 }
{
    add(add(add(p, q), r), s)
}

// The coefficient of 1.
fn real(x: Wide, y: Wide) -> i128
    requires left { IsWithin (2 ^ 62) (wide_element x) }
    requires right { IsWithin (2 ^ 62) (wide_element y) }
    ensures value { result ≡ x.a *ℤ y.a -ℤ x.b *ℤ y.d -ℤ x.c *ℤ y.c -ℤ x.d *ℤ y.b }
    ensures bound { nat_abs result ≤ 2 ^ 126 }
{
    let first = part(x.a, y.a);
    let second = part(x.b, y.d);
    let third = part(x.c, y.c);
    let fourth = part(x.d, y.b);
    three_less(first, second, third, fourth)
}

// The coefficient of ω.
fn of_omega(x: Wide, y: Wide) -> i128
    requires left { IsWithin (2 ^ 62) (wide_element x) }
    requires right { IsWithin (2 ^ 62) (wide_element y) }
    ensures value { result ≡ x.a *ℤ y.b +ℤ x.b *ℤ y.a -ℤ x.c *ℤ y.d -ℤ x.d *ℤ y.c }
    ensures bound { nat_abs result ≤ 2 ^ 126 }
{
    let first = part(x.a, y.b);
    let second = part(x.b, y.a);
    let third = part(x.c, y.d);
    let fourth = part(x.d, y.c);
    two_less(first, second, third, fourth)
}

// The coefficient of ω².
fn of_square(x: Wide, y: Wide) -> i128
    requires left { IsWithin (2 ^ 62) (wide_element x) }
    requires right { IsWithin (2 ^ 62) (wide_element y) }
    ensures value { result ≡ x.a *ℤ y.c +ℤ x.b *ℤ y.b +ℤ x.c *ℤ y.a -ℤ x.d *ℤ y.d }
    ensures bound { nat_abs result ≤ 2 ^ 126 }
{
    let first = part(x.a, y.c);
    let second = part(x.b, y.b);
    let third = part(x.c, y.a);
    let fourth = part(x.d, y.d);
    one_less(first, second, third, fourth)
}

// The coefficient of ω³.
fn of_cube(x: Wide, y: Wide) -> i128
    requires left { IsWithin (2 ^ 62) (wide_element x) }
    requires right { IsWithin (2 ^ 62) (wide_element y) }
    ensures value { result ≡ x.a *ℤ y.d +ℤ x.b *ℤ y.c +ℤ x.c *ℤ y.b +ℤ x.d *ℤ y.a }
    ensures bound { nat_abs result ≤ 2 ^ 126 }
{
    let first = part(x.a, y.d);
    let second = part(x.b, y.c);
    let third = part(x.c, y.b);
    let fourth = part(x.d, y.a);
    all(first, second, third, fourth)
}

// x · y
fn times(x: Wide, y: Wide) -> Wide
    requires left { IsWithin (2 ^ 62) (wide_element x) }
    requires right { IsWithin (2 ^ 62) (wide_element y) }
    ensures value { wide_element result ≡ times (wide_element x) (wide_element y) }
    ensures bound { IsWithin (2 ^ 126) (wide_element result) }
{
    let a = real(x, y);
    let b = of_omega(x, y);
    let c = of_square(x, y);
    let d = of_cube(x, y);
    Wide { a, b, c, d }
}

/// The product of two ring numbers, or that it is too wide.
pub(crate) fn ring_product(x: RingNumber, y: RingNumber) -> Result<Value, Lack>
    requires left { IsValue (Ring (wide_element x.num) x.m) }
    requires right { IsValue (Ring (wide_element y.num) y.m) }
    ensures { result ≡ product_of (Ring (wide_element x.num) x.m) (Ring (wide_element y.num) y.m) }
{
    let (num, m) = lowered(times(x.num, y.num), x.m + y.m);
    bounded(Kind::Ring(RingNumber { num, m }))
}
