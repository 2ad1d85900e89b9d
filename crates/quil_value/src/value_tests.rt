//! One table of sums, differences, products and quotients, for each kind of value with each kind.

ghost use Rattle.std.specs.Prelude.{◌≡◌, ◌<◌, ◌≤◌, ◌^◌, true};
ghost use Rattle.qvm_ring.specs.Views.{wide_element};
ghost use Rattle.qvm_ring.specs.Multiply.{IsWithin};

use crate::lack::Lack;
use crate::settle::settled;
use crate::value::{Kind, Value};
use crate::value_product::product;
use crate::value_quotient::quotient;
use crate::value_sum::{difference, sum};
use qvm_ring::Wide;
use std::alloc::Global;
use std::test::*;

// A value is a b c d/n p for (a + bω + cω² + dω³)/n · π^p. The answers are worked by hand: a ring number is its a b c d over
// √2^m, and a rational, also one times π or iπ, its p and its q.
const ROWS: &str = "\
1 2 3 4/2 0|+|1 0 -3 0/2 0|ring 1 1 0 2 0
0 1 0 -1/2 0|+|0 1 0 -1/2 0|ring 0 1 0 -1 0
1 0 0 0/2 0|+|1 0 0 0/3 0|ratio 5 6
0 0 1 0/1 0|+|1 0 0 0/3 0|not exact
1 0 0 0/1 0|+|1 0 0 0/2 1|not exact
0 0 0 0/1 0|+|1 0 0 0/2 1|pi 1 2
0 0 1 0/1 0|+|0 0 1 0/2 1|not exact
1 0 0 0/3 0|+|1 0 0 0/2 0|ratio 5 6
1 0 0 0/3 0|+|1 0 0 0/3 0|ratio 2 3
1 0 0 0/3 0|+|2 0 0 0/3 0|ring 1 0 0 0 0
1 0 0 0/3 0|+|1 0 0 0/6 0|ring 1 0 0 0 2
1 0 0 0/3 0|+|1 0 0 0/3 1|not exact
1 0 0 0/3 0|+|0 0 1 0/3 1|not exact
1 0 0 0/2 1|+|0 0 0 0/1 0|pi 1 2
1 0 0 0/2 1|+|1 0 0 0/3 0|not exact
1 0 0 0/2 1|+|1 0 0 0/3 1|pi 5 6
1 0 0 0/2 1|+|0 0 1 0/2 1|not exact
0 0 1 0/2 1|+|1 0 0 0/2 0|not exact
0 0 1 0/2 1|+|1 0 0 0/3 0|not exact
0 0 1 0/2 1|+|1 0 0 0/3 1|not exact
0 0 1 0/2 1|+|0 0 1 0/2 1|ipi 1 1
4611686018427387904 0 0 0/1 0|+|1 0 0 0/1 0|too wide
4611686018427387904 0 0 0/1 1|+|1 0 0 0/1 1|too wide
1 0 0 0/4052555153018976267 0|+|1 0 0 0/5 0|too wide
4611686018427387904 4611686018427387904 0 0/4611686018427387904 0|+|0 -1 0 0/1 0|ring 1 0 0 0 0
1 2 3 4/2 0|-|1 2 3 4/2 0|ring 0 0 0 0 0
1 0 0 0/3 0|-|1 0 0 0/1 0|ratio -2 3
0 0 0 0/1 0|-|1 0 0 0/2 1|pi -1 2
1 0 0 0/2 1|-|1 0 0 0/2 1|ring 0 0 0 0 0
0 0 1 0/2 1|-|0 0 1 0/3 1|ipi 1 6
1 0 1 0/1 0|*|1 0 -1 0/1 0|ring 2 0 0 0 0
0 1 0 -1/2 0|*|0 1 0 -1/2 0|ring 1 0 0 0 2
3 0 0 0/1 0|*|1 0 0 0/3 0|ring 1 0 0 0 0
0 1 0 -1/1 0|*|1 0 0 0/3 0|not exact
2 0 0 0/1 0|*|1 0 0 0/2 1|pi 1 1
0 0 1 0/1 0|*|1 0 0 0/2 1|ipi 1 2
0 1 0 -1/1 0|*|1 0 0 0/2 1|not exact
0 0 0 0/1 0|*|1 0 0 0/2 1|ring 0 0 0 0 0
0 0 1 0/1 0|*|0 0 1 0/2 1|pi -1 2
1 0 0 0/3 0|*|0 0 1 0/1 0|not exact
1 0 0 0/3 0|*|6 0 0 0/5 0|ratio 2 5
1 0 0 0/3 0|*|3 0 0 0/2 1|pi 1 2
1 0 0 0/3 0|*|0 0 1 0/1 1|ipi 1 3
1 0 0 0/2 1|*|-3 0 0 0/1 0|pi -3 2
1 0 0 0/2 1|*|2 0 0 0/3 0|pi 1 3
1 0 0 0/2 1|*|1 0 0 0/2 1|not exact
1 0 0 0/2 1|*|0 0 1 0/2 1|not exact
0 0 1 0/2 1|*|0 0 1 0/1 0|pi -1 2
0 0 1 0/2 1|*|1 0 0 0/3 0|ipi 1 6
0 0 1 0/2 1|*|1 0 0 0/2 1|not exact
0 0 1 0/2 1|*|0 0 1 0/2 1|not exact
4611686018427387904 0 0 0/1 0|*|2 0 0 0/1 0|too wide
1 0 0 0/4052555153018976267 0|*|1 0 0 0/3 0|too wide
2 0 0 0/1 0|/|1 0 1 0/1 0|ring 1 0 -1 0 0
1 0 0 0/1 0|/|3 0 0 0/1 0|ratio 1 3
1 0 0 0/1 0|/|2 0 1 0/1 0|not exact
1 0 0 0/1 0|/|0 0 0 0/1 0|zero divisor
0 1 0 -1/1 0|/|1 0 0 0/3 0|ring 0 3 0 -3 0
0 0 1 0/1 0|/|2 0 0 0/3 0|ring 0 0 3 0 2
1 0 0 0/1 0|/|3 0 0 0/5 0|ratio 5 3
0 0 1 0/1 0|/|3 0 0 0/5 0|not exact
1 0 0 0/1 0|/|1 0 0 0/1 1|not exact
0 0 0 0/1 0|/|1 0 0 0/1 1|ring 0 0 0 0 0
1 0 0 0/1 0|/|0 0 1 0/1 1|not exact
1 0 0 0/3 0|/|2 0 0 0/1 0|ratio 1 6
2 0 0 0/3 0|/|1 0 0 0/2 0|ratio 4 3
1 0 0 0/3 0|/|0 0 1 0/1 0|not exact
1 0 0 0/3 0|/|0 1 0 -1/1 0|not exact
1 0 0 0/3 0|/|1 0 1 0/1 0|not exact
1 0 0 0/3 0|/|0 0 0 0/1 0|zero divisor
1 0 0 0/3 0|/|-2 0 0 0/3 0|ring -1 0 0 0 2
1 0 0 0/3 0|/|1 0 0 0/5 0|ratio 5 3
1 0 0 0/3 0|/|1 0 0 0/1 1|not exact
1 0 0 0/3 0|/|0 0 1 0/1 1|not exact
1 0 0 0/2 1|/|2 0 0 0/1 0|pi 1 4
1 0 0 0/1 1|/|0 0 1 0/1 0|ipi -1 1
1 0 0 0/1 1|/|0 1 0 -1/1 0|not exact
1 0 0 0/1 1|/|1 0 1 0/1 0|not exact
1 0 0 0/1 1|/|0 0 0 0/1 0|zero divisor
1 0 0 0/1 1|/|1 0 0 0/3 0|pi 3 1
1 0 0 0/2 1|/|1 0 0 0/3 1|ring 3 0 0 0 2
1 0 0 0/1 1|/|3 0 0 0/1 1|ratio 1 3
1 0 0 0/1 1|/|0 0 1 0/1 1|ring 0 0 -1 0 0
1 0 0 0/1 1|/|0 0 3 0/1 1|not exact
0 0 1 0/1 1|/|0 0 1 0/1 0|pi 1 1
0 0 1 0/1 1|/|-2 0 0 0/1 0|ipi -1 2
0 0 1 0/1 1|/|0 1 0 0/1 0|not exact
0 0 1 0/1 1|/|2 0 0 0/3 0|ipi 3 2
0 0 1 0/2 1|/|1 0 0 0/1 1|ring 0 0 1 0 2
0 0 1 0/3 1|/|1 0 0 0/1 1|not exact
0 0 1 0/1 1|/|0 0 1 0/2 1|ring 2 0 0 0 0
1 0 0 0/4052555153018976267 0|/|3 0 0 0/1 0|too wide
4611686018427387904 0 0 0/1 1|/|1 0 0 0/3 0|too wide
";

fn coefficient(text: &str) -> Result<(i128, &str), Fail> {
    let (first, rest) = text.split_once(' ').ok_or("four coefficients")?;
    Ok((first.parse()?, rest))
}

fn is_numerator(z: Wide) -> bool
    ensures { result ≡ true → IsWithin (2 ^ 126) (wide_element z) }
{
    let bound = 1 << 126;
    z.a.unsigned_abs() <= bound
        && z.b.unsigned_abs() <= bound
        && z.c.unsigned_abs() <= bound
        && z.d.unsigned_abs() <= bound
}

fn is_denominator(n: u128) -> bool
    ensures some { result ≡ true → 0 < n }
    ensures bound { result ≡ true → n ≤ 2 ^ 125 }
{
    n > 0 && n <= 1 << 125
}

fn value(text: &str) -> Result<Value, Fail> {
    let (number, rest) = text.split_once('/').ok_or("a denominator")?;
    let (a, number) = coefficient(number)?;
    let (b, number) = coefficient(number)?;
    let (c, number) = coefficient(number)?;
    let d = number.parse()?;
    let (n, power) = rest.split_once(' ').ok_or("a power of π")?;
    let n = n.parse()?;
    let z = Wide { a, b, c, d };
    if !is_numerator(z) {
        return Err(Fail::from("the numerator is within its bound"));
    }
    if !is_denominator(n) {
        return Err(Fail::from("the denominator is within its bounds"));
    }
    match settled(z, n, power.parse()?) {
        Ok(x) => Ok(x),
        Err(_) => Err(Fail::from("the operand is a value")),
    }
}

fn told(alloc: Global, answer: Result<Value, Lack>) -> Result<String, Fail> {
    let text = match answer {
        Ok(x) => match x.kind() {
            Kind::Ring(x) => {
                let Wide { a, b, c, d } = x.num;
                format!(in alloc; "ring {a} {b} {c} {d} {}", x.m)
            }
            Kind::Rational(x) => format!(in alloc; "ratio {} {}", x.p, x.q),
            Kind::Pi(x) => format!(in alloc; "pi {} {}", x.p, x.q),
            Kind::ImagPi(x) => format!(in alloc; "ipi {} {}", x.p, x.q),
        },
        Err(Lack::NotExact) => format!(in alloc; "not exact"),
        Err(Lack::ZeroDivisor) => format!(in alloc; "zero divisor"),
        Err(Lack::NumberTooWide) => format!(in alloc; "too wide"),
    };
    Ok(text?)
}

#[test]
fn values_come_to_this(rt: HostRuntime) -> Result<(), Fail> {
    for row in ROWS.lines() {
        let (left, rest) = row.split_once('|').ok_or("a left value")?;
        let (operation, rest) = rest.split_once('|').ok_or("an operation")?;
        let (right, due) = rest.split_once('|').ok_or("a right value")?;
        let x = value(left)?;
        let y = value(right)?;
        let found = match operation {
            "+" => sum(&x, &y),
            "-" => difference(&x, &y),
            "*" => product(&x, &y),
            _ => quotient(&x, &y),
        };
        assert_eq!(rt; told(rt.alloc(), found)?.as_str(), due, "at {row}");
    }
    Ok(())
}
