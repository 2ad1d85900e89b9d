//! Definitions by a table of rows `form : text => answer`. The entries of a matrix are numbers and `pi`; the column of
//! one is its place in its row, and ten times the number of the row, both from 0. A matrix is told by its m and its whole numerators, row by row.

ghost use Rattle.std.specs.Prelude.{◌≡◌, IfOk};

use crate::definition::define;
use crate::formula::formula_value;
use crate::gate_fault::GateFault;
use quil_code::Matrix;
use quil_tree::{Action, Atom, Expr, Form, Formula, GateDefinition, List, Name, Place, Step, Text};
use quil_value::{Kind, Lack, RingNumber, Value};
use qvm_ring::{Amp, Wide};
use std::alloc::{AllocError, Global};
use std::test::*;

// An expression of one step.
fn leaf(alloc: Global, place: Place, atom: Atom) -> Result<Expr, AllocError> {
    let mut steps = Vec::new(alloc);
    let action = Action::Push(atom);
    steps.push(Step { place, action })?;
    Ok(Expr::new(steps))
}

fn formula(alloc: Global, word: &str, column: u32) -> Result<Formula, AllocError> {
    let place = Place { line: 2, column };
    let atom = if word == "pi" {
        Atom::Pi
    } else {
        Atom::Number(Text::new(alloc, word.as_bytes())?)
    };
    let expr = leaf(alloc, place, atom)?;
    Ok(Formula { place, expr })
}

fn rows(alloc: Global, text: &str) -> Result<Form, Fail> {
    let mut rows = List::new(alloc);
    let mut first = 0u32;
    for line in text.split(" / ") {
        let mut row = List::new(alloc);
        let mut column = first;
        for word in line.split_whitespace() {
            row.push(formula(alloc, word, column)?)?;
            column = column.saturating_add(1);
        }
        rows.push(row)?;
        first = first.saturating_add(10);
    }
    Ok(Form::Matrix(rows))
}

fn permutation(alloc: Global, text: &str) -> Result<Form, Fail> {
    let mut numbers = List::new(alloc);
    for word in text.split_whitespace() {
        numbers.push(Text::new(alloc, word.as_bytes())?)?;
    }
    Ok(Form::Permutation(numbers))
}

fn fault_text(alloc: Global, fault: GateFault) -> Result<String, AllocError> {
    match fault {
        GateFault::Arity => String::from_str(alloc, "Arity"),
        GateFault::Lack(place, Lack::NotExact) => {
            let column = place.column;
            format!(in alloc; "NotExact {column}")
        }
        GateFault::Lack(_, Lack::ZeroDivisor) => String::from_str(alloc, "ZeroDivisor"),
        GateFault::Lack(place, Lack::NumberTooWide) => {
            let column = place.column;
            format!(in alloc; "NumberTooWide {column}")
        }
        GateFault::EntryTooLarge => String::from_str(alloc, "EntryTooLarge"),
        GateFault::NotUnitary => String::from_str(alloc, "NotUnitary"),
        GateFault::OutOfMemory => String::from_str(alloc, "OutOfMemory"),
    }
}

fn matrix_text(alloc: Global, matrix: &Matrix) -> Result<String, AllocError> {
    let m = matrix.root_twos();
    let mut text = format!(in alloc; "{m}:")?;
    let size = match matrix.arity() {
        0 => 1u8,
        1 => 2,
        2 => 4,
        _ => 8,
    };
    for place in 0..size * size {
        let Amp { a, .. } = matrix.entry(place / size, place % size);
        let part = format!(in alloc; " {a}")?;
        text.push_str(&part)?;
    }
    Ok(text)
}

fn told(alloc: Global, row: &str) -> Result<String, Fail> {
    let (form, text) = row.split_once(" : ").ok_or("the row has a text")?;
    let form = if form == "rows" {
        rows(alloc, text)?
    } else {
        permutation(alloc, text)?
    };
    let place = Place { line: 1, column: 1 };
    let definition = GateDefinition {
        place,
        name: Name {
            place,
            text: Text::new(alloc, b"G")?,
        },
        parameters: List::new(alloc),
        form,
    };
    match define(alloc, &definition, &[]) {
        Ok(matrix) => Ok(matrix_text(alloc, &matrix)?),
        Err(fault) => Ok(fault_text(alloc, fault)?),
    }
}

const ROWS: &str = "\
rows : 0 1 / 1 0 => 0: 0 1 1 0
rows : 1 0 / 0 1 => 0: 1 0 0 1
rows : 0.6 0 / 0 1 => NotExact 0
rows : 0.5 0 / 0 0.5 => NotUnitary
rows : 1 1 / 1 1 => NotUnitary
rows : 1 0 / 1 => Arity
rows : 1 => Arity
rows : 1 0 0 / 0 1 0 / 0 0 1 => Arity
rows : 1 pi / pi 0.1 => NotExact 1
rows : 1 0 / 0.1 pi => NotExact 10
rows : 1 0 / 0 1e30 => NumberTooWide 11
rows : 0.000000476837158203125 0 / 0 1 => EntryTooLarge
rows : 0 0 1 0 / 1 0 0 0 / 0 0 0 1 / 0 1 0 0 => 0: 0 0 1 0 1 0 0 0 0 0 0 1 0 1 0 0
permutation : 1 0 => 0: 0 1 1 0
permutation : 1 3 0 2 => 0: 0 0 1 0 1 0 0 0 0 0 0 1 0 1 0 0
permutation : 0 0000000000000000000000001 => 0: 1 0 0 1
permutation : 0 18446744073709551617 => NotUnitary
permutation : 0 2 => NotUnitary
permutation : 1 1 => NotUnitary
permutation : 0 1 2 => Arity
permutation : 0 => Arity
";

#[test]
fn definitions_come_to_this(rt: HostRuntime) -> Result<(), Fail> {
    for row in ROWS.lines() {
        let (given, want) = row.split_once(" => ").ok_or("the row has an answer")?;
        assert_eq!(rt; told(rt.alloc(), given)?.as_str(), want, "at {given}");
    }
    Ok(())
}

#[test]
fn a_number_has_its_value(rt: HostRuntime) -> Result<(), Fail> {
    let alloc = rt.alloc();
    let value = formula_value(alloc, &formula(alloc, "2", 1)?, &[])?;
    let num = Wide { a: 2, ..Wide::ZERO };
    assert_eq!(rt; value, Ok(Value::new(Kind::Ring(RingNumber { num, m: 0 }))));
    Ok(())
}
