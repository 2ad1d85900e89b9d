//! Expressions as long as a text may be, which is 1,048,576 bytes.

use crate::expression_tests::{two_regions, worked_text};
use std::alloc::Global;
use std::process::Abort;
use std::test::*;

// Checks what so many copies of a piece come to, with a middle behind them and behind that as many of another piece.
fn check_long(
    rt: &impl Abort,
    alloc: Global,
    (before, count, middle, behind): (&str, usize, &str, &str),
    want: &str,
) -> Result<(), Fail> {
    let layout = two_regions(alloc)?;
    let mut text = String::new(alloc);
    for _ in 0..count {
        text.push_str(before)?;
    }
    text.push_str(middle)?;
    for _ in 0..count {
        text.push_str(behind)?;
    }
    let said = worked_text(alloc, &layout, &text)?;
    assert_eq!(rt;
        said.as_str(),
        want,
        "of {count} times {before} and {behind}"
    );
    Ok(())
}

#[test]
fn a_long_sum(rt: HostRuntime) -> Result<(), Fail> {
    let alloc = rt.alloc();
    check_long(
        &rt,
        alloc,
        ("1+", 524_287, "1", ""),
        "ring 524288 0 0 0 / 0",
    )
}

#[test]
fn a_long_sum_of_a_cell(rt: HostRuntime) -> Result<(), Fail> {
    let alloc = rt.alloc();
    let want = "sum 0/1; t[3] 209715/1";
    check_long(&rt, alloc, ("t[3]+", 209_714, "t[3]", ""), want)
}

#[test]
fn nested_parentheses(rt: HostRuntime) -> Result<(), Fail> {
    let alloc = rt.alloc();
    check_long(&rt, alloc, ("(", 524_287, "1", ")"), "ring 1 0 0 0 / 0")
}

#[test]
fn nested_signs(rt: HostRuntime) -> Result<(), Fail> {
    let alloc = rt.alloc();
    check_long(&rt, alloc, ("-", 1_048_575, "1", ""), "ring -1 0 0 0 / 0")
}

#[test]
fn a_tower_of_powers(rt: HostRuntime) -> Result<(), Fail> {
    let alloc = rt.alloc();
    // From the right 4, 16 and 65536; 2 to that power is none of the table.
    check_long(&rt, alloc, ("2^", 524_287, "2", ""), "NotExact at 1048567")
}

#[test]
fn a_million_digits(rt: HostRuntime) -> Result<(), Fail> {
    let alloc = rt.alloc();
    check_long(&rt, alloc, ("1", 1_000_000, "", ""), "NumberTooWide at 1")?;
    check_long(&rt, alloc, ("0", 1_000_000, "1", ""), "ring 1 0 0 0 / 0")?;
    check_long(&rt, alloc, ("0", 500_000, ".5", "0"), "ring 1 0 0 0 / 2")
}

#[test]
fn an_exponent_of_a_million_digits(rt: HostRuntime) -> Result<(), Fail> {
    let alloc = rt.alloc();
    check_long(&rt, alloc, ("", 1_000_000, "1e", "9"), "NumberTooWide at 1")?;
    check_long(
        &rt,
        alloc,
        ("", 1_000_000, "1e-", "9"),
        "NumberTooWide at 1",
    )?;
    check_long(&rt, alloc, ("", 1_000_000, "0e", "9"), "ring 0 0 0 0 / 0")?;
    check_long(&rt, alloc, ("", 1_000_000, "1e-", "0"), "ring 1 0 0 0 / 0")
}
