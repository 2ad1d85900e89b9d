//! Division of ring numbers from the low end: the quotient's digits, the lowest first.

ghost use Rattle.std.specs.Prelude.{◌≡◌, ◌+◌, ◌^◌, ◌≤◌, nat_abs, pos, ◌↔◌, ◌+ℤ◌, ◌-ℤ◌, ◌*ℤ◌, true};
ghost use Rattle.qvm_ring.specs.Ring.{times, plus};
ghost use Rattle.qvm_ring.specs.Views.{wide_element};
ghost use Rattle.qvm_ring.specs.Multiply.{IsWithin};
ghost use Rattle.quil_value.specs.Views.{digit, digits_of};
ghost use Rattle.quil_value.specs.Division.{minus, double, product_with, IsAnswer, IsAppended, IsDivided};

use qvm_ring::Wide;

/// The lowest binary digits of four numbers.
#[derive(Clone, Copy)]
pub struct Digits {
    pub a: bool,
    pub b: bool,
    pub c: bool,
    pub d: bool,
}

/// What a turn finds.
#[derive(Clone, Copy)]
pub struct Turn {
    pub digits: Digits,
    pub rest: Wide,
}

/// The answer of a division.
#[derive(Clone, Copy, Debug, PartialEq, Eq)]
pub enum Division {
    /// The quotient, whose coefficients are at most 2^62 in absolute value.
    Exact(Wide),
    /// There is a quotient, with a coefficient above 2^62 in absolute value.
    TooWide,
    /// No ring number is a quotient.
    Nothing,
}

// x = the digit + twice the half
fn split(x: i128) -> (bool, i128)
    requires { nat_abs x ≤ 2 ^ 68 }
    ensures value { x ≡ digit result.0 +ℤ (result.1 +ℤ result.1) }
    ensures bound { nat_abs result.1 ≤ 2 ^ 67 }
{
    if x.unsigned_abs() % 2 == 1 {
        (true, (x - 1) / 2)
    } else {
        (false, x / 2)
    }
}

fn pick(odd: bool, v: i128) -> i128
    ensures value { result ≡ digit odd *ℤ v }
    ensures bound { nat_abs result ≤ nat_abs v }
{
    if odd { v } else { 0 }
}

fn sum(x: i128, y: i128) -> i128
    requires left { nat_abs x ≤ 2 ^ 70 }
    requires right { nat_abs y ≤ 2 ^ 70 }
    ensures value { result ≡ x +ℤ y }
    ensures bound { nat_abs result ≤ nat_abs x + nat_abs y }
{
    x + y
}

fn difference(x: i128, y: i128) -> i128
    requires left { nat_abs x ≤ 2 ^ 70 }
    requires right { nat_abs y ≤ 2 ^ 70 }
    ensures value { result ≡ x -ℤ y }
    ensures bound { nat_abs result ≤ nat_abs x + nat_abs y }
{
    x - y
}

fn product_a(d: Digits, w: Wide) -> i128
    requires { IsWithin (2 ^ 65) (wide_element w) }
    ensures value { result ≡ digit d.a *ℤ w.a -ℤ digit d.b *ℤ w.d -ℤ digit d.c *ℤ w.c -ℤ digit d.d *ℤ w.b }
    ensures bound { nat_abs result ≤ 2 ^ 67 }
{
    let first = pick(d.a, w.a);
    let second = pick(d.b, w.d);
    let third = pick(d.c, w.c);
    let fourth = pick(d.d, w.b);
    difference(difference(difference(first, second), third), fourth)
}

fn product_b(d: Digits, w: Wide) -> i128
    requires { IsWithin (2 ^ 65) (wide_element w) }
    ensures value { result ≡ digit d.a *ℤ w.b +ℤ digit d.b *ℤ w.a -ℤ digit d.c *ℤ w.d -ℤ digit d.d *ℤ w.c }
    ensures bound { nat_abs result ≤ 2 ^ 67 }
{
    let first = pick(d.a, w.b);
    let second = pick(d.b, w.a);
    let third = pick(d.c, w.d);
    let fourth = pick(d.d, w.c);
    difference(difference(sum(first, second), third), fourth)
}

fn product_c(d: Digits, w: Wide) -> i128
    requires { IsWithin (2 ^ 65) (wide_element w) }
    ensures value { result ≡ digit d.a *ℤ w.c +ℤ digit d.b *ℤ w.b +ℤ digit d.c *ℤ w.a -ℤ digit d.d *ℤ w.d }
    ensures bound { nat_abs result ≤ 2 ^ 67 }
{
    let first = pick(d.a, w.c);
    let second = pick(d.b, w.b);
    let third = pick(d.c, w.a);
    let fourth = pick(d.d, w.d);
    difference(sum(sum(first, second), third), fourth)
}

fn product_d(d: Digits, w: Wide) -> i128
    requires { IsWithin (2 ^ 65) (wide_element w) }
    ensures value { result ≡ digit d.a *ℤ w.d +ℤ digit d.b *ℤ w.c +ℤ digit d.c *ℤ w.b +ℤ digit d.d *ℤ w.a }
    ensures bound { nat_abs result ≤ 2 ^ 67 }
{
    let first = pick(d.a, w.d);
    let second = pick(d.b, w.c);
    let third = pick(d.c, w.b);
    let fourth = pick(d.d, w.a);
    all(first, second, third, fourth)
}

// p + q + r + s
pub(crate) fn all(p: i128, q: i128, r: i128, s: i128) -> i128
    requires p { nat_abs p ≤ 2 ^ 65 }
    requires q { nat_abs q ≤ 2 ^ 65 }
    requires r { nat_abs r ≤ 2 ^ 65 }
    requires s { nat_abs s ≤ 2 ^ 65 }
    ensures value { result ≡ p +ℤ q +ℤ r +ℤ s }
    ensures bound { nat_abs result ≤ 2 ^ 67 }
{
    sum(sum(sum(p, q), r), s)
}

pub(crate) fn digit_product(d: Digits, w: Wide) -> Wide
    requires { IsWithin (2 ^ 65) (wide_element w) }
    ensures value { wide_element result ≡ times (digits_of d) (wide_element w) }
    ensures bound { IsWithin (2 ^ 67) (wide_element result) }
{
    let a = product_a(d, w);
    let b = product_b(d, w);
    let c = product_c(d, w);
    let d = product_d(d, w);
    Wide { a, b, c, d }
}

fn less(x: Wide, y: Wide) -> Wide
    requires left { IsWithin (2 ^ 67) (wide_element x) }
    requires right { IsWithin (2 ^ 67) (wide_element y) }
    ensures value { wide_element result ≡ minus (wide_element x) (wide_element y) }
    ensures bound { IsWithin (2 ^ 68) (wide_element result) }
{
    let a = difference(x.a, y.a);
    let b = difference(x.b, y.b);
    let c = difference(x.c, y.c);
    let d = difference(x.d, y.d);
    Wide { a, b, c, d }
}

pub(crate) fn split_all(x: Wide) -> (Digits, Wide)
    requires { IsWithin (2 ^ 68) (wide_element x) }
    ensures value { wide_element x ≡ plus (digits_of result.0) (double (wide_element result.1)) }
    ensures bound { IsWithin (2 ^ 67) (wide_element result.1) }
{
    let (a, half_a) = split(x.a);
    let (b, half_b) = split(x.b);
    let (c, half_c) = split(x.c);
    let (d, half_d) = split(x.d);
    (
        Digits { a, b, c, d },
        Wide {
            a: half_a,
            b: half_b,
            c: half_c,
            d: half_d,
        },
    )
}

/// The digits d of x, and (x - d·(1 + 2w)) / 2.
fn turned(x: Wide, w: Wide) -> Turn
    requires left { IsWithin (2 ^ 68) (wide_element x) }
    requires right { IsWithin (2 ^ 65) (wide_element w) }
    ensures value { wide_element x ≡ plus (product_with (digits_of result.digits) (wide_element w)) (double (wide_element result.rest)) }
    ensures bound { IsWithin (2 ^ 68) (wide_element result.rest) }
{
    let (digits, half) = split_all(x);
    let product = digit_product(digits, w);
    let rest = less(half, product);
    Turn { digits, rest }
}

// The digit as 0 or -1.
fn below(odd: bool) -> i128
    ensures value { result +ℤ digit odd ≡ pos 0 }
    ensures bound { nat_abs result ≤ 1 }
{
    if odd { -1 } else { 0 }
}

fn all_below(digits: Digits) -> Wide
    ensures value { plus (digits_of digits) (double (wide_element result)) ≡ wide_element result }
    ensures bound { IsWithin (2 ^ 62) (wide_element result) }
{
    let a = below(digits.a);
    let b = below(digits.b);
    let c = below(digits.c);
    let d = below(digits.d);
    Wide { a, b, c, d }
}

fn joined(odd: bool, z: i128) -> i128
    requires { nat_abs z ≤ 2 ^ 62 }
    ensures value { result ≡ digit odd +ℤ (z +ℤ z) }
{
    if odd { z + z + 1 } else { z + z }
}

fn is_near(z: i128) -> bool
    ensures { (result ≡ true) ↔ (nat_abs z ≤ 2 ^ 62) }
{
    z.unsigned_abs() <= 1 << 62
}

pub(crate) fn is_all_near(z: Wide) -> bool
    ensures { (result ≡ true) ↔ IsWithin (2 ^ 62) (wide_element z) }
{
    is_near(z.a) && is_near(z.b) && is_near(z.c) && is_near(z.d)
}

fn joined_all(digits: Digits, z: Wide) -> Wide
    requires { IsWithin (2 ^ 62) (wide_element z) }
    ensures { wide_element result ≡ plus (digits_of digits) (double (wide_element z)) }
{
    let a = joined(digits.a, z.a);
    let b = joined(digits.b, z.b);
    let c = joined(digits.c, z.c);
    let d = joined(digits.d, z.d);
    Wide { a, b, c, d }
}

// The digits before a quotient, where the sum is near.
fn appended(digits: Digits, z: Wide) -> Division
    requires { IsWithin (2 ^ 62) (wide_element z) }
    ensures { IsAppended (plus (digits_of digits) (double (wide_element z))) result }
{
    let all = joined_all(digits, z);
    if is_all_near(all) {
        Division::Exact(all)
    } else {
        Division::TooWide
    }
}

// The quotient of x by 1 + 2w, found in so many turns. Each turn takes the lowest binary digits of x: they are those of the
// quotient, since 1 + 2w is odd.
fn quotient(x: Wide, w: Wide, turns: u32) -> Division
    requires left { IsWithin (2 ^ 68) (wide_element x) }
    requires right { IsWithin (2 ^ 65) (wide_element w) }
    ensures { IsAnswer (wide_element x) (wide_element w) turns result }
{
    let turn = turned(x, w);
    if turn.rest == x {
        return Division::Exact(all_below(turn.digits));
    }
    if turns == 0 {
        return Division::Nothing;
    }
    match quotient(turn.rest, w, turns - 1) {
        Division::Exact(z) => appended(turn.digits, z),
        Division::TooWide => Division::TooWide,
        Division::Nothing => Division::Nothing,
    }
}

/// The quotient of x by 1 + 2w, whatever its digits: no quotient needs more turns than these before its digits repeat.
///
/// The coefficients of x are at most 2^68 in absolute value, and those of w at most 2^65.
pub fn divided(x: Wide, w: Wide) -> Division
    requires left { IsWithin (2 ^ 68) (wide_element x) }
    requires right { IsWithin (2 ^ 65) (wide_element w) }
    ensures { IsDivided (wide_element x) (wide_element w) result }
{
    quotient(x, w, 276)
}
