//! Quotients of ring numbers, by a table of rows `x / y => answer`. A ring number is its a, b, c, d and m.

ghost use Rattle.std.specs.Prelude.{◌≡◌, true};
ghost use Rattle.qvm_ring.specs.Views.{wide_element};
ghost use Rattle.quil_value.specs.Exact.{Ring};
ghost use Rattle.quil_value.specs.Value.{IsValue};

use crate::lack::Lack;
use crate::low_end::is_all_near;
use crate::ring_number::is_divisible;
use crate::ring_quotient::ring_quotient;
use crate::value::{Kind, RingNumber};
use qvm_ring::Wide;
use std::alloc::Global;
use std::test::*;

fn number(text: &str) -> Option<RingNumber> {
    let (a, rest) = text.split_once(' ')?;
    let (b, rest) = rest.split_once(' ')?;
    let (c, rest) = rest.split_once(' ')?;
    let (d, m) = rest.split_once(' ')?;
    let a: i128 = a.parse().ok()?;
    let b: i128 = b.parse().ok()?;
    let c: i128 = c.parse().ok()?;
    let d: i128 = d.parse().ok()?;
    let m: u32 = m.parse().ok()?;
    Some(RingNumber {
        num: Wide { a, b, c, d },
        m,
    })
}

fn is_value(x: RingNumber) -> bool
    ensures { result ≡ true → IsValue (Ring (wide_element x.num) x.m) }
{
    (x.m == 0 || !is_divisible(x.num)) && is_all_near(x.num) && x.m <= 124
}

fn told(alloc: Global, row: &str) -> Result<String, Fail> {
    let (x, y) = row.split_once(" / ").ok_or("the row has a divisor")?;
    let x = number(x).ok_or("the dividend is five whole numbers")?;
    let y = number(y).ok_or("the divisor is five whole numbers")?;
    if !is_value(x) {
        return Err(Fail::from("the dividend is a value"));
    }
    if !is_value(y) {
        return Err(Fail::from("the divisor is a value"));
    }
    let text = match ring_quotient(x, y) {
        Ok(quotient) => match quotient.kind() {
            Kind::Ring(
                RingNumber {
                    num: Wide { a, b, c, d },
                    m,
                },
            ) => format!(in alloc; "{a} {b} {c} {d} {m}"),
            Kind::Rational(x) => format!(in alloc; "{}/{}", x.p, x.q),
            _ => format!(in alloc; "an angle"),
        },
        Err(Lack::NotExact) => format!(in alloc; "none"),
        Err(Lack::ZeroDivisor) => format!(in alloc; "zero"),
        Err(Lack::NumberTooWide) => format!(in alloc; "wide"),
    };
    Ok(text?)
}

// The divisor of the second row is (1 + √2)^40. The answers are from a script in Python, by the divisor's four conjugates.
const ROWS: &str = "\
0 0 3 0 0 / 1 0 1 0 0 => 0 3 0 0 1
1 0 0 0 0 / 1023286908188737 723573111879672 0 -723573111879672 0 => 1023286908188737 -723573111879672 0 723573111879672 0
1 0 0 0 0 / 3 0 0 0 0 => 1/3
5 5 0 0 0 / 3 3 0 0 0 => 5/3
1 0 0 0 1 / 0 3 0 -3 0 => 1/6
1 0 0 0 0 / 2 0 1 0 0 => none
1 0 0 0 0 / 1 3 0 -3 0 => none
2017612633061982209 -2594073385365405695 1441151880758558719 576460752303423489 0 / 1152921504606846975 -864691128455135233 576460752303423487 1 0 => 1 -1 0 1 0
2017612633061982210 -2594073385365405695 1441151880758558719 576460752303423489 0 / 1152921504606846975 -864691128455135233 576460752303423487 1 0 => none
1152921504606846975 -864691128455135233 576460752303423487 1 0 / -1152921504606846975 864691128455135233 -576460752303423487 -1 0 => -1 0 0 0 0
4611686018427387904 4611686018427387904 4611686018427387904 4611686018427387904 0 / 1 1 1 1 0 => 4611686018427387904 0 0 0 0
4611686018427387904 0 0 0 0 / 1 0 0 0 2 => wide
0 4611686018427387904 0 -4611686018427387904 0 / 1 0 0 0 0 => 0 4611686018427387904 0 -4611686018427387904 0
1 0 0 0 124 / 0 1 0 -1 0 => wide
1 0 0 0 124 / 1 0 0 0 1 => 1 0 0 0 123
4611686018427387904 0 0 0 0 / 3 0 0 0 2 => wide
4611686018427387904 0 0 0 0 / 3 0 0 0 0 => 4611686018427387904/3
1 0 0 0 2 / 2305843009213693953 0 0 0 0 => wide
-3 0 0 0 5 / 0 0 -7 0 0 => none
0 0 -3 0 5 / 0 0 -7 0 1 => 3/28
0 0 0 0 0 / 5 1 0 0 3 => 0 0 0 0 0
5 0 0 0 0 / 0 0 0 0 0 => zero
7 -2 3 1 3 / 1 1 0 0 0 => 2 8 -9 5 4
";

#[test]
fn quotients_come_to_this(rt: HostRuntime) -> Result<(), Fail> {
    for row in ROWS.lines() {
        let (given, want) = row.split_once(" => ").ok_or("the row has an answer")?;
        assert_eq!(rt; told(rt.alloc(), given)?.as_str(), want, "at {given}");
    }
    Ok(())
}
