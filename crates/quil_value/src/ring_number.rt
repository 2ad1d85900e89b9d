//! Ring numbers in 128 bits: sums, products with √2, and z/√2^m in its one form.

ghost use Rattle.std.specs.Prelude.{◌≡◌, ◌+◌, ◌^◌, ◌≤◌, nat_abs, pos, ◌-ℤ◌, ◌+ℤ◌, neg_ℤ, int_div, true};
ghost use Rattle.qvm_ring.specs.Ring.{times, plus, root_two, same_parity, is_divisible, quotient};
ghost use Rattle.qvm_ring.specs.Views.{wide_element};
ghost use Rattle.qvm_ring.specs.Multiply.{IsWithin};
ghost use Rattle.quil_value.specs.Exact.{Ring, least};

use qvm_ring::Wide;

fn is_same_parity(x: i128, y: i128) -> bool
    ensures { result ≡ same_parity x y }
{
    x.unsigned_abs() % 2 == y.unsigned_abs() % 2
}

pub(crate) fn is_divisible(z: Wide) -> bool
    ensures { result ≡ is_divisible (wide_element z) }
{
    is_same_parity(z.a, z.c) && is_same_parity(z.b, z.d)
}

// Half of x - y, which may not fit itself. Both are even or both odd.
fn half_difference(x: i128, y: i128) -> i128
    requires parity { same_parity x y ≡ true }
    requires left { nat_abs x ≤ 2 ^ 126 }
    requires right { nat_abs y ≤ 2 ^ 126 }
    ensures value { result ≡ int_div (x -ℤ y) (pos 2) }
    ensures bound { nat_abs result ≤ 2 ^ 126 }
{
    x.div_euclid(2) - y.div_euclid(2)
}

// Half of x + y, which may not fit itself. Both are even or both odd.
#[tactic(auto, using(crate::proofs::RootTwos::less_negated, crate::proofs::RootTwos::parity_negated))]
fn half_sum(x: i128, y: i128) -> i128
    requires parity { same_parity x y ≡ true }
    requires left { nat_abs x ≤ 2 ^ 126 }
    requires right { nat_abs y ≤ 2 ^ 126 }
    ensures value { result ≡ int_div (x +ℤ y) (pos 2) }
    ensures bound { nat_abs result ≤ 2 ^ 126 }
{
    half_difference(x, -y)
}

// z / √2, where √2 divides z.
pub(crate) fn halved(z: Wide) -> Wide
    requires divisible { is_divisible (wide_element z) ≡ true }
    requires bound { IsWithin (2 ^ 126) (wide_element z) }
    ensures value { wide_element result ≡ quotient (wide_element z) }
    ensures bound { IsWithin (2 ^ 126) (wide_element result) }
{
    let a = half_difference(z.b, z.d);
    let b = half_sum(z.a, z.c);
    let c = half_sum(z.b, z.d);
    let d = half_difference(z.c, z.a);
    Wide { a, b, c, d }
}

/// The one form of z/√2^m, for coefficients of at most 2^126: both are divided by √2 as long as they can be.
pub(crate) fn lowered(z: Wide, m: u32) -> (Wide, u32)
    requires { IsWithin (2 ^ 126) (wide_element z) }
    ensures { Ring (wide_element result.0) result.1 ≡ least (wide_element z) m }
{
    let mut number = z;
    let mut left = m;
    while left > 0 && is_divisible(number) {
        number = halved(number);
        left -= 1;
    }
    (number, left)
}

pub(crate) fn add(x: i128, y: i128) -> i128
    requires left { nat_abs x ≤ 2 ^ 125 }
    requires right { nat_abs y ≤ 2 ^ 125 }
    ensures value { result ≡ x +ℤ y }
    ensures bound { nat_abs result ≤ nat_abs x + nat_abs y }
{
    x + y
}

pub(crate) fn subtract(x: i128, y: i128) -> i128
    requires left { nat_abs x ≤ 2 ^ 125 }
    requires right { nat_abs y ≤ 2 ^ 125 }
    ensures value { result ≡ x -ℤ y }
    ensures bound { nat_abs result ≤ nat_abs x + nat_abs y }
{
    x - y
}

pub(crate) fn minus(x: i128) -> i128
    requires { nat_abs x ≤ 2 ^ 126 }
    ensures value { result ≡ neg_ℤ x }
    ensures bound { nat_abs result ≡ nat_abs x }
{
    -x
}

/// z + w
pub(crate) fn plus(z: Wide, w: Wide) -> Wide
    requires left { IsWithin (2 ^ 125) (wide_element z) }
    requires right { IsWithin (2 ^ 125) (wide_element w) }
    ensures value { wide_element result ≡ plus (wide_element z) (wide_element w) }
    ensures bound { IsWithin (2 ^ 126) (wide_element result) }
{
    let a = add(z.a, w.a);
    let b = add(z.b, w.b);
    let c = add(z.c, w.c);
    let d = add(z.d, w.d);
    Wide { a, b, c, d }
}

/// z · √2
pub(crate) fn rooted(z: Wide) -> Wide
    requires { IsWithin (2 ^ 62) (wide_element z) }
    ensures value { wide_element result ≡ times root_two (wide_element z) }
    ensures bound { IsWithin (2 ^ 63) (wide_element result) }
{
    let a = subtract(z.b, z.d);
    let b = add(z.a, z.c);
    let c = add(z.b, z.d);
    let d = subtract(z.c, z.a);
    Wide { a, b, c, d }
}
