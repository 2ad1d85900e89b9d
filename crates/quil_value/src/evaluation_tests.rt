//! What expressions are worked out to, by a table of rows `steps => answer`. A ring number is its a, b, c, d and m, a sum its
//! terms and its factor of π, and a fault has the column of its step, or none at the whole parameter.

use crate::evaluation::{Argument, eval, work_out};
use crate::lack::Lack;
use crate::steps_for_tests::{expression, nested_sum};
use crate::stop::Stop;
use crate::sum_fault::SumFault;
use crate::sums::CellSum;
use crate::value::{Kind, RingNumber, Value};
use crate::work_fault::WorkFault;
use crate::worked::Worked;
use quil_memory::{CellType, Claim, Layout, Name};
use quil_number::Fraction;
use std::alloc::{AllocError, Global};
use std::test::*;

// Regions `t` and `u`.
fn layout(alloc: Global) -> Result<Layout, Fail> {
    let mut layout = Layout::new(alloc);
    for name in ["t", "u"] {
        let claim = Claim {
            name: Name::new(alloc, name.as_bytes())?,
            kind: CellType::Real,
            length: 4,
            share: None,
            line: 1,
        };
        layout = layout
            .declare(alloc, &claim)
            .map_err(|_| Fail::from("the regions have a layout"))?;
    }
    Ok(layout)
}

fn fraction(alloc: Global, x: Fraction) -> Result<String, AllocError> {
    let p = x.p;
    let q = x.q;
    format!(in alloc; "{p}/{q}")
}

fn value_told(alloc: Global, value: &Value) -> Result<String, AllocError> {
    match value.kind() {
        Kind::Ring(RingNumber { num, m }) => {
            let (a, b, c, d) = (num.a, num.b, num.c, num.d);
            format!(in alloc; "{a} {b} {c} {d} {m}")
        }
        Kind::Rational(x) => fraction(alloc, x),
        Kind::Pi(x) => {
            let factor = fraction(alloc, x)?;
            format!(in alloc; "{factor} pi")
        }
        Kind::ImagPi(x) => {
            let factor = fraction(alloc, x)?;
            format!(in alloc; "{factor} i pi")
        }
    }
}

fn sum_told(alloc: Global, sum: &CellSum) -> Result<String, AllocError> {
    let mut text = String::new(alloc);
    for term in sum.terms() {
        let factor = fraction(alloc, term.factor)?;
        let region = term.cell.region;
        let index = term.cell.index;
        text.push_str(format!(in alloc; "{factor} {region}[{index}] + ")?.as_str())?;
    }
    let own = fraction(alloc, sum.own())?;
    text.push_str(own.as_str())?;
    text.push_str(" pi")?;
    Ok(text)
}

fn lack_told(lack: Lack) -> &'static str {
    match lack {
        Lack::NotExact => "not exact",
        Lack::ZeroDivisor => "zero divisor",
        Lack::NumberTooWide => "too wide",
    }
}

fn fault_told(alloc: Global, fault: WorkFault) -> Result<String, AllocError> {
    match fault {
        WorkFault::Stop(Stop::At(place, lack)) => {
            let lack = lack_told(lack);
            let column = place.column;
            format!(in alloc; "{lack} at {column}")
        }
        WorkFault::Stop(Stop::Whole(lack)) => String::from_str(alloc, lack_told(lack)),
        WorkFault::OutOfMemory => String::from_str(alloc, "out of memory"),
    }
}

fn told(alloc: Global, answer: Result<Worked, WorkFault>) -> Result<String, AllocError> {
    match &answer {
        Ok(Worked::Plain(value)) => value_told(alloc, value),
        Ok(Worked::Summed(sum)) => sum_told(alloc, sum),
        Err(fault) => fault_told(alloc, *fault),
    }
}

const ROWS: &str = "\
2 3 + => 5 0 0 0 0
2 3 - => -1 0 0 0 0
2 3 * => 6 0 0 0 0
2 3 / => 2/3
2 3 ^ => 8 0 0 0 0
2 neg => -2 0 0 0 0
2 pos => 2 0 0 0 0
2.5i => 0 0 5 0 2
i => 0 0 1 0 0
pi 4 / => 1/4 pi
2 sqrt => 0 1 0 -1 0
pi sin => 0 0 0 0 0
pi 4 / cos => 1 0 0 0 1
pi 4 / cis => 0 1 0 0 0
i pi * exp => -1 0 0 0 0
1 2 0 / + 3 sqrt + => zero divisor at 4
1 pi + 2 0 / + => not exact at 3
4611686018427387904 1 + => too wide at 3
t[3] => 1/1 0[3] + 0/1 pi
u[1] pos => 1/1 1[1] + 0/1 pi
u[1] neg => -1/1 1[1] + 0/1 pi
2 t[0] * 3 / pi 4 / + => 2/3 0[0] + 1/4 pi
pi t[0] - => -1/1 0[0] + 1/1 pi
t[0] u[0] 2 * - t[0] 3 / + => 4/3 0[0] + -2/1 1[0] + 0/1 pi
t[0] t[0] - => 0/1 0[0] + 0/1 pi
t[0] 0 + => 1/1 0[0] + 0/1 pi
t[0] 0 / => zero divisor
t[0] 1 + => not exact
t[0] t[1] * => not exact
t[0] 2 ^ => not exact
1 t[0] / => not exact
t[0] sin => not exact
v[0] => not exact
t[0] 4611686018427387904 * 2 * => too wide
t[0] t[1] + t[2] + t[3] + t[4] + t[5] + t[6] + t[7] + t[8] + t[9] + t[10] + t[11] + t[12] + t[13] + t[14] + t[15] + t[3] + pi + => 1/1 0[0] + 1/1 0[1] + 1/1 0[2] + 2/1 0[3] + 1/1 0[4] + 1/1 0[5] + 1/1 0[6] + 1/1 0[7] + 1/1 0[8] + 1/1 0[9] + 1/1 0[10] + 1/1 0[11] + 1/1 0[12] + 1/1 0[13] + 1/1 0[14] + 1/1 0[15] + 1/1 pi
t[0] t[1] + t[2] + t[3] + t[4] + t[5] + t[6] + t[7] + t[8] + t[9] + t[10] + t[11] + t[12] + t[13] + t[14] + t[15] + t[16] + => too wide
%0 2 * => 1/2 pi
%1 pi + => 1/1 0[2] + 1/1 pi
%2 => zero divisor at 7
%3 => not exact
";

// Parameters: π/4, t[2], and one whose argument has a zero divisor.
fn arguments(alloc: Global, layout: &Layout) -> Result<Vec<Argument>, Fail> {
    let mut arguments = Vec::new(alloc);
    for words in ["pi 4 /", "t[2]"] {
        let expr = expression(alloc, words)?;
        let part = work_out(alloc, &expr, layout, &[]).map_err(|_| Fail::from(
            "the argument is worked out",
        ))?;
        arguments.push(Ok(part))?;
    }
    let place = quil_tree::Place { line: 1, column: 7 };
    arguments.push(Err(Stop::At(place, Lack::ZeroDivisor)))?;
    Ok(arguments)
}

#[test]
fn expressions_come_to_this(rt: HostRuntime) -> Result<(), Fail> {
    let alloc = rt.alloc();
    let layout = layout(alloc)?;
    let arguments = arguments(alloc, &layout)?;
    for row in ROWS.lines() {
        let (words, want) = row.split_once(" => ").ok_or("the row has an answer")?;
        let expr = expression(alloc, words)?;
        let text = told(alloc, work_out(alloc, &expr, &layout, &arguments))?;
        assert_eq!(rt; text.as_str(), want, "at {words}");
    }
    Ok(())
}

const VALUES: &str = "\
2 %0 * => 1/2 pi
%1 => not exact
t[0] => not exact
%2 1 + => zero divisor at 7
";

#[test]
fn values_without_memory_come_to_this(rt: HostRuntime) -> Result<(), Fail> {
    let alloc = rt.alloc();
    let layout = layout(alloc)?;
    let arguments = arguments(alloc, &layout)?;
    for row in VALUES.lines() {
        let (words, want) = row.split_once(" => ").ok_or("the row has an answer")?;
        let expr = expression(alloc, words)?;
        let text = match eval(alloc, &expr, &arguments) {
            Ok(value) => value_told(alloc, &value)?,
            Err(fault) => fault_told(alloc, fault)?,
        };
        assert_eq!(rt; text.as_str(), want, "at {words}");
    }
    Ok(())
}

fn angle_told(alloc: Global, sum: &CellSum) -> Result<String, AllocError> {
    match sum.angle_sum(alloc) {
        Ok(angle) => {
            let common = angle.common();
            let own = angle.own();
            let mut text = format!(in alloc; "{common}: {own}")?;
            for count in angle.counts() {
                let n = count.count;
                let region = count.cell.region;
                let index = count.cell.index;
                text.push_str(format!(in alloc; " {n} {region}[{index}]")?.as_str())?;
            }
            Ok(text)
        }
        Err(SumFault::Lack(lack)) => String::from_str(alloc, lack_told(lack)),
        Err(SumFault::OutOfMemory) => String::from_str(alloc, "out of memory"),
    }
}

const ANGLES: &str = "\
2 t[0] * 3 / pi 4 / + => 3: 3 2 0[0]
t[0] => 1: 0 1 0[0]
t[0] 6 / u[0] 4 / - pi 3 / + => 12: 16 2 0[0] -3 1[0]
t[0] 1048576 / => 1048576: 0 1 0[0]
t[0] 1048577 / => too wide
t[0] 1024 / t[1] 1025 / + => too wide
t[0] 2147483648 * => 1: 0 2147483648 0[0]
t[0] 2147483649 * => too wide
pi 536870912 * t[0] + => 1: 2147483648 1 0[0]
pi 536870913 * t[0] + => too wide
";

#[test]
fn sums_in_eighths_come_to_this(rt: HostRuntime) -> Result<(), Fail> {
    let alloc = rt.alloc();
    let layout = layout(alloc)?;
    for row in ANGLES.lines() {
        let (words, want) = row.split_once(" => ").ok_or("the row has an answer")?;
        let expr = expression(alloc, words)?;
        let text = match work_out(alloc, &expr, &layout, &[]) {
            Ok(Worked::Summed(sum)) => angle_told(alloc, &sum)?,
            _ => return Err(Fail::from("the expression is a sum")),
        };
        assert_eq!(rt; text.as_str(), want, "at {words}");
    }
    Ok(())
}

#[test]
fn deep_expressions_are_worked_out(rt: HostRuntime) -> Result<(), Fail> {
    let alloc = rt.alloc();
    let expr = nested_sum(alloc, 100_000)?;
    let text = match eval(alloc, &expr, &[]) {
        Ok(value) => value_told(alloc, &value)?,
        Err(fault) => fault_told(alloc, fault)?,
    };
    assert_eq!(rt; text.as_str(), "100000 0 0 0 0");
    Ok(())
}
