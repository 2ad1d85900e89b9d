//! Divisions from the low end, by a table of rows `x / w => answer`, where the divisor is 1 + 2w. A number is its a, b, c and d.

ghost use Rattle.std.specs.Prelude.{◌≡◌, ◌^◌, true, IfOk};
ghost use Rattle.qvm_ring.specs.Views.{wide_element};
ghost use Rattle.qvm_ring.specs.Multiply.{IsWithin};

use crate::low_end::{Division, divided};
use qvm_ring::Wide;
use std::alloc::Global;
use std::test::*;

fn wide(text: &str) -> Option<Wide> {
    let (a, rest) = text.split_once(' ')?;
    let (b, rest) = rest.split_once(' ')?;
    let (c, d) = rest.split_once(' ')?;
    let a: i128 = a.parse().ok()?;
    let b: i128 = b.parse().ok()?;
    let c: i128 = c.parse().ok()?;
    let d: i128 = d.parse().ok()?;
    Some(Wide { a, b, c, d })
}

fn is_dividend(z: Wide) -> bool
    ensures { result ≡ true → IsWithin (2 ^ 68) (wide_element z) }
{
    let bound = 1 << 68;
    z.a.unsigned_abs() <= bound
        && z.b.unsigned_abs() <= bound
        && z.c.unsigned_abs() <= bound
        && z.d.unsigned_abs() <= bound
}

fn is_divisor(z: Wide) -> bool
    ensures { result ≡ true → IsWithin (2 ^ 65) (wide_element z) }
{
    let bound = 1 << 65;
    z.a.unsigned_abs() <= bound
        && z.b.unsigned_abs() <= bound
        && z.c.unsigned_abs() <= bound
        && z.d.unsigned_abs() <= bound
}

fn told(alloc: Global, row: &str) -> Result<String, Fail> {
    let (x, w) = row.split_once(" / ").ok_or("the row has a divisor")?;
    let x = wide(x).ok_or("the dividend is four whole numbers")?;
    let w = wide(w).ok_or("the divisor is four whole numbers")?;
    if !is_dividend(x) {
        return Err(Fail::from("the dividend is within its bound"));
    }
    if !is_divisor(w) {
        return Err(Fail::from("the divisor is within its bound"));
    }
    let text = match divided(x, w) {
        Division::Exact(Wide { a, b, c, d }) => format!(in alloc; "{a} {b} {c} {d}"),
        Division::TooWide => format!(in alloc; "too wide"),
        Division::Nothing => format!(in alloc; "nothing"),
    };
    Ok(text?)
}

const ROWS: &str = "\
0 0 0 0 / 0 0 0 0 => 0 0 0 0
1 0 0 0 / 0 0 0 0 => 1 0 0 0
-1 0 0 0 / 0 0 0 0 => -1 0 0 0
5 -7 11 -13 / 0 0 0 0 => 5 -7 11 -13
-1 0 0 0 / -1 0 0 0 => 1 0 0 0
3 6 9 12 / 1 0 0 0 => 1 2 3 4
-116 65 -32 -87 / 2 -1 4 7 => -8 5 0 -3
4611686018427387904 0 0 -4611686018427387904 / 0 0 0 0 => 4611686018427387904 0 0 -4611686018427387904
4611686018427387905 0 0 0 / 0 0 0 0 => too wide
0 -4611686018427387905 0 0 / 0 0 0 0 => too wide
-4611686018427387904 -13835058055282163712 13835058055282163712 -4611686018427387904 / 0 0 1 0 => 4611686018427387904 -4611686018427387904 4611686018427387904 4611686018427387904
36868796789616634119 -13748638302973521753 -6966911743246020140 18471435431512020797 / 3 -2 1 1 => 4611686018427387903 12345678901234567 -2305843009213693952 7
12682136550675316633 -20752587082923245613 12682136550675316882 -12682136550675316759 / 1152921504606846981 -2305843009213693952 17 576460752303423488 => 3 -1 4 1
27670116110564327424 3 0 0 / 1 0 0 0 => too wide
73786976294838206465 -73786976294838206464 0 73786976294838206464 / 36893488147419103232 -36893488147419103232 0 36893488147419103232 => 1 0 0 0
1 0 0 0 / 1 0 0 0 => nothing
1 1 1 1 / 0 1 0 0 => nothing
4611686018427387904 5 -9 2305843009213693952 / 1099511627776 3 1125899906842624 -1 => nothing
295147905179352825856 295147905179352825856 -295147905179352825856 1 / 36893488147419103232 36893488147419103232 -36893488147419103232 1 => nothing
2 0 0 0 / 0 0 0 1 => nothing
";

#[test]
fn divisions_come_to_this(rt: HostRuntime) -> Result<(), Fail> {
    for row in ROWS.lines() {
        let (given, want) = row.split_once(" => ").ok_or("the row has an answer")?;
        assert_eq!(rt; told(rt.alloc(), given)?.as_str(), want, "at {given}");
    }
    Ok(())
}
