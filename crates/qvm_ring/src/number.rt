//! Ring elements of some width: what their reduction needs of them.

ghost use Rattle.std.specs.Prelude.{◌≡◌, ℕ, ◌+◌, ◌^◌, ◌<◌, unsigned_abs, pos, ◌+ℤ◌, ◌-ℤ◌, int_div};
ghost use Rattle.std.proofs.Common.{rules};
ghost use Rattle.qvm_ring.specs.Ring.{Element, unit, is_zero, is_divisible, same_parity, quotient};
ghost use Rattle.qvm_ring.specs.Views.{element_of, wide_element, IsBelow};

use crate::amp::Amp;
use crate::wide::Wide;

/// A ring element with coefficients of a fixed width.
pub(crate) trait Number: Copy {
    /// The element that it means.
    ghost element: { Self → Element };

    /// What its coefficients stay below, in absolute value, so that sums of two don't overflow.
    ghost limit: { ℕ };

    /// The number 1.
    fn one() -> Self
        ensures { element result ≡ unit };

    /// Whether it is 0.
    fn is_zero(self) -> bool
        ensures { result ≡ is_zero (element self) };

    /// Whether √2 divides it.
    fn is_divisible(self) -> bool
        ensures { result ≡ is_divisible (element self) };

    /// The quotient by √2, where √2 divides it.
    fn quotient(self) -> Self
        requires { IsBelow limit (element self) }
        ensures { element result ≡ quotient (element self) };

    /// 1 is below the limit.
    ghost above_one: { 1 < limit };
}

impl Number for Amp {
    ghost element = { element_of };

    ghost limit = { 2 ^ 62 };

    ghost above_one = { Prim.search rules };

    fn one() -> Amp {
        Amp::ONE
    }

    fn is_zero(self) -> bool {
        self.a == 0 && self.b == 0 && self.c == 0 && self.d == 0
    }

    fn is_divisible(self) -> bool {
        has_same_parity(self.a, self.c) && has_same_parity(self.b, self.d)
    }

    fn quotient(self) -> Amp {
        Amp {
            a: half_difference(self.b, self.d),
            b: half_sum(self.a, self.c),
            c: half_sum(self.b, self.d),
            d: half_difference(self.c, self.a),
        }
    }
}

fn half_sum(x: i64, y: i64) -> i64
    requires left { unsigned_abs x < 2 ^ 62 }
    requires right { unsigned_abs y < 2 ^ 62 }
    ensures { result ≡ int_div (x +ℤ y) (pos 2) }
{
    (x + y) / 2
}

fn half_difference(x: i64, y: i64) -> i64
    requires left { unsigned_abs x < 2 ^ 62 }
    requires right { unsigned_abs y < 2 ^ 62 }
    ensures { result ≡ int_div (x -ℤ y) (pos 2) }
{
    (x - y) / 2
}

fn has_same_parity(x: i64, y: i64) -> bool
    ensures { result ≡ same_parity x y }
{
    x.unsigned_abs() % 2 == y.unsigned_abs() % 2
}

impl Number for Wide {
    ghost element = { wide_element };

    ghost limit = { 2 ^ 125 };

    ghost above_one = { Prim.search rules };

    fn one() -> Wide {
        Wide {
            a: 1,
            b: 0,
            c: 0,
            d: 0,
        }
    }

    fn is_zero(self) -> bool {
        self.a == 0 && self.b == 0 && self.c == 0 && self.d == 0
    }

    fn is_divisible(self) -> bool {
        has_same_wide_parity(self.a, self.c) && has_same_wide_parity(self.b, self.d)
    }

    fn quotient(self) -> Wide {
        Wide {
            a: half_wide_difference(self.b, self.d),
            b: half_wide_sum(self.a, self.c),
            c: half_wide_sum(self.b, self.d),
            d: half_wide_difference(self.c, self.a),
        }
    }
}

fn half_wide_sum(x: i128, y: i128) -> i128
    requires left { unsigned_abs x < 2 ^ 125 }
    requires right { unsigned_abs y < 2 ^ 125 }
    ensures { result ≡ int_div (x +ℤ y) (pos 2) }
{
    (x + y) / 2
}

fn half_wide_difference(x: i128, y: i128) -> i128
    requires left { unsigned_abs x < 2 ^ 125 }
    requires right { unsigned_abs y < 2 ^ 125 }
    ensures { result ≡ int_div (x -ℤ y) (pos 2) }
{
    (x - y) / 2
}

fn has_same_wide_parity(x: i128, y: i128) -> bool
    ensures { result ≡ same_parity x y }
{
    x.unsigned_abs() % 2 == y.unsigned_abs() % 2
}
