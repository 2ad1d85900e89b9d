//! Expressions and what they come to, read from their texts.

use crate::expression_table::ROWS;
use crate::tests::Said;
use quil_grammar::parse_expr;
use quil_memory::{CellType, Claim, Layout, Name};
use quil_value::{CellSum, Kind, Lack, RingNumber, Stop, Value, WorkFault, Worked, work_out};
use std::alloc::Global;
use std::test::*;

// Regions `t` and `u` of 16 cells in REAL.
pub(crate) fn two_regions(alloc: Global) -> Result<Layout, Fail> {
    let mut layout = Layout::new(alloc);
    for name in ["t", "u"] {
        let claim = Claim {
            name: Name::new(alloc, name.as_bytes())?,
            kind: CellType::Real,
            length: 16,
            share: None,
            line: 1,
        };
        layout = layout
            .declare(alloc, &claim)
            .map_err(|_| Fail::from("the regions have a layout"))?;
    }
    Ok(layout)
}

fn value_text(alloc: Global, value: &Value) -> Said {
    let text = match value.kind() {
        Kind::Ring(RingNumber { num, m }) => {
            let (a, b, c, d) = (num.a, num.b, num.c, num.d);
            format!(in alloc; "ring {a} {b} {c} {d} / {m}")
        }
        Kind::Rational(x) => {
            let (p, q) = (x.p, x.q);
            format!(in alloc; "rational {p}/{q}")
        }
        Kind::Pi(x) => {
            let (p, q) = (x.p, x.q);
            format!(in alloc; "pi {p}/{q}")
        }
        Kind::ImagPi(x) => {
            let (p, q) = (x.p, x.q);
            format!(in alloc; "ipi {p}/{q}")
        }
    };
    Ok(text?)
}

// A sum that may be a parameter, or why it is none.
fn sum_text(alloc: Global, sum: &CellSum) -> Said {
    if sum.angle_sum(alloc).is_err() {
        return Ok(String::from_str(alloc, "NumberTooWide whole")?);
    }
    let own = sum.own();
    let (p, q) = (own.p, own.q);
    let mut text = format!(in alloc; "sum {p}/{q}")?;
    for term in sum.terms() {
        let name = if term.cell.region == 0 { "t" } else { "u" };
        let index = term.cell.index;
        let (p, q) = (term.factor.p, term.factor.q);
        text.push_str(&format!(in alloc; "; {name}[{index}] {p}/{q}")?)?;
    }
    Ok(text)
}

fn lack_text(lack: Lack) -> &'static str {
    match lack {
        Lack::NotExact => "NotExact",
        Lack::ZeroDivisor => "ZeroDivisor",
        Lack::NumberTooWide => "NumberTooWide",
    }
}

fn fault_text(alloc: Global, fault: WorkFault) -> Said {
    let text = match fault {
        WorkFault::Stop(Stop::At(place, lack)) => {
            let (lack, column) = (lack_text(lack), place.column);
            format!(in alloc; "{lack} at {column}")
        }
        WorkFault::Stop(Stop::Whole(lack)) => {
            let lack = lack_text(lack);
            format!(in alloc; "{lack} whole")
        }
        WorkFault::OutOfMemory => format!(in alloc; "no memory"),
    };
    Ok(text?)
}

/// What an expression over the two regions comes to.
pub(crate) fn worked_text(alloc: Global, layout: &Layout, text: &str) -> Said {
    let Ok(expr) = parse_expr(alloc, text.as_bytes()) else {
        return Ok(String::from_str(alloc, "no expression")?);
    };
    match &work_out(alloc, &expr, layout, &[]) {
        Ok(Worked::Plain(value)) => value_text(alloc, value),
        Ok(Worked::Summed(sum)) => sum_text(alloc, sum),
        Err(fault) => fault_text(alloc, *fault),
    }
}

#[test]
fn expressions_come_to_this(rt: HostRuntime) -> Result<(), Fail> {
    let alloc = rt.alloc();
    let layout = two_regions(alloc)?;
    let mut misses = String::new(alloc);
    for row in ROWS.lines() {
        if row.is_empty() || row.starts_with("# ") {
            continue;
        }
        let (text, want) = row
            .split_once(" | ")
            .unwrap_or((row, "a row has two parts"));
        let said = worked_text(alloc, &layout, text)?;
        if said.as_str() != want {
            misses.push_str(&format!(in alloc; "{text} | {said}\n")?)?;
        }
    }
    assert_eq!(rt; misses.as_str(), "");
    Ok(())
}
