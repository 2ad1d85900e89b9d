//! The product of two amplitudes, with coefficients of 128 bits.

ghost use Rattle.std.specs.Prelude.{◌≡◌, ◌+◌, ◌*◌, ◌^◌, ◌≤◌, nat_abs, ◌+ℤ◌, ◌-ℤ◌, ◌*ℤ◌};
ghost use Rattle.qvm_ring.specs.Ring.{times};
ghost use Rattle.qvm_ring.specs.Views.{element_of, wide_element};
ghost use Rattle.qvm_ring.specs.Multiply.{IsWithin};

use crate::amp::Amp;
use crate::wide::Wide;

fn part(x: i64, y: i64) -> i128
    requires left { nat_abs x ≤ 2 ^ 60 }
    requires right { nat_abs y ≤ 2 ^ 60 }
    ensures value { result ≡ x *ℤ y }
    ensures bound { nat_abs result ≤ 2 ^ 120 }
{
    i128::from(x) * i128::from(y)
}

fn sum(x: i128, y: i128) -> i128
    requires left { nat_abs x ≤ 2 ^ 122 }
    requires right { nat_abs y ≤ 2 ^ 122 }
    ensures value { result ≡ x +ℤ y }
    ensures bound { nat_abs result ≤ nat_abs x + nat_abs y }
{
    x + y
}

fn difference(x: i128, y: i128) -> i128
    requires left { nat_abs x ≤ 2 ^ 122 }
    requires right { nat_abs y ≤ 2 ^ 122 }
    ensures value { result ≡ x -ℤ y }
    ensures bound { nat_abs result ≤ nat_abs x + nat_abs y }
{
    x - y
}

// p - q - r - s
fn three_less(p: i128, q: i128, r: i128, s: i128) -> i128
    requires p { nat_abs p ≤ 2 ^ 120 }
    requires q { nat_abs q ≤ 2 ^ 120 }
    requires r { nat_abs r ≤ 2 ^ 120 }
    requires s { nat_abs s ≤ 2 ^ 120 }
    ensures { result ≡ p -ℤ q -ℤ r -ℤ s }
{
    difference(difference(difference(p, q), r), s)
}

// p + q - r - s
fn two_less(p: i128, q: i128, r: i128, s: i128) -> i128
    requires p { nat_abs p ≤ 2 ^ 120 }
    requires q { nat_abs q ≤ 2 ^ 120 }
    requires r { nat_abs r ≤ 2 ^ 120 }
    requires s { nat_abs s ≤ 2 ^ 120 }
    ensures { result ≡ p +ℤ q -ℤ r -ℤ s }
{
    difference(difference(sum(p, q), r), s)
}

// p + q + r - s
fn one_less(p: i128, q: i128, r: i128, s: i128) -> i128
    requires p { nat_abs p ≤ 2 ^ 120 }
    requires q { nat_abs q ≤ 2 ^ 120 }
    requires r { nat_abs r ≤ 2 ^ 120 }
    requires s { nat_abs s ≤ 2 ^ 120 }
    ensures { result ≡ p +ℤ q +ℤ r -ℤ s }
{
    difference(sum(sum(p, q), r), s)
}

// p + q + r + s
fn all(p: i128, q: i128, r: i128, s: i128) -> i128
    requires p { nat_abs p ≤ 2 ^ 120 }
    requires q { nat_abs q ≤ 2 ^ 120 }
    requires r { nat_abs r ≤ 2 ^ 120 }
    requires s { nat_abs s ≤ 2 ^ 120 }
    ensures { result ≡ p +ℤ q +ℤ r +ℤ s }
{
    sum(sum(sum(p, q), r), s)
}

// The coefficient of 1.
fn real(x: Amp, y: Amp) -> i128
    requires left { IsWithin (2 ^ 60) (element_of x) }
    requires right { IsWithin (2 ^ 60) (element_of y) }
    ensures { result ≡ x.a *ℤ y.a -ℤ x.b *ℤ y.d -ℤ x.c *ℤ y.c -ℤ x.d *ℤ y.b }
{
    let first = part(x.a, y.a);
    let second = part(x.b, y.d);
    let third = part(x.c, y.c);
    let fourth = part(x.d, y.b);
    three_less(first, second, third, fourth)
}

// The coefficient of ω.
fn of_omega(x: Amp, y: Amp) -> i128
    requires left { IsWithin (2 ^ 60) (element_of x) }
    requires right { IsWithin (2 ^ 60) (element_of y) }
    ensures { result ≡ x.a *ℤ y.b +ℤ x.b *ℤ y.a -ℤ x.c *ℤ y.d -ℤ x.d *ℤ y.c }
{
    let first = part(x.a, y.b);
    let second = part(x.b, y.a);
    let third = part(x.c, y.d);
    let fourth = part(x.d, y.c);
    two_less(first, second, third, fourth)
}

// The coefficient of ω².
fn of_square(x: Amp, y: Amp) -> i128
    requires left { IsWithin (2 ^ 60) (element_of x) }
    requires right { IsWithin (2 ^ 60) (element_of y) }
    ensures { result ≡ x.a *ℤ y.c +ℤ x.b *ℤ y.b +ℤ x.c *ℤ y.a -ℤ x.d *ℤ y.d }
{
    let first = part(x.a, y.c);
    let second = part(x.b, y.b);
    let third = part(x.c, y.a);
    let fourth = part(x.d, y.d);
    one_less(first, second, third, fourth)
}

// The coefficient of ω³.
fn of_cube(x: Amp, y: Amp) -> i128
    requires left { IsWithin (2 ^ 60) (element_of x) }
    requires right { IsWithin (2 ^ 60) (element_of y) }
    ensures { result ≡ x.a *ℤ y.d +ℤ x.b *ℤ y.c +ℤ x.c *ℤ y.b +ℤ x.d *ℤ y.a }
{
    let first = part(x.a, y.d);
    let second = part(x.b, y.c);
    let third = part(x.c, y.b);
    let fourth = part(x.d, y.a);
    all(first, second, third, fourth)
}

/// The product of two amplitudes whose coefficients are at most 2^60 in absolute value.
pub fn mul(x: Amp, y: Amp) -> Wide
    requires left { IsWithin (2 ^ 60) (element_of x) }
    requires right { IsWithin (2 ^ 60) (element_of y) }
    ensures { wide_element result ≡ times (element_of x) (element_of y) }
{
    let a = real(x, y);
    let b = of_omega(x, y);
    let c = of_square(x, y);
    let d = of_cube(x, y);
    Wide { a, b, c, d }
}

#[cfg(test)]
mod tests {
    use super::*;

    const RISING: Amp = Amp {
        a: 1,
        b: 2,
        c: 3,
        d: 4,
    };

    const MIXED: Amp = Amp {
        a: -5,
        b: 6,
        c: 0,
        d: -8,
    };

    // (1 + 2ω + 3ω² + 4ω³)(-5 + 6ω - 8ω³): by powers of ω from 0 to 6 it is -5, -4, -3, -10, 8, -24, -32, and ω⁴ = -1.
    #[test]
    fn product_by_hand(rt: HostRuntime) {
        let product = Wide {
            a: -13,
            b: 20,
            c: 29,
            d: -10,
        };
        assert_eq!(rt; mul(RISING, MIXED), product);
        assert_eq!(rt; mul(MIXED, RISING), product);
    }
}
