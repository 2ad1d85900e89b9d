//! How many statements a program has, and how many qubits each of its gates.

ghost use Rattle.std.specs.Prelude.{◌≡◌};
ghost use Rattle.std.specs.Result.{result_err};
ghost use Rattle.quil_link.specs.Counted.{arity, has_arity, is_fitting, wrong_arity, counted};

use crate::gate::{Standard, gate_named};
use quil_code::LoadFault;
use quil_tree::{Item, Line, Statement};

/// A program has at most so many statements.
const MOST_STATEMENTS: u64 = 65_536;

/// How many qubits a gate is on.
fn arity(gate: Standard) -> usize
    ensures { result ≡ arity gate }
{
    match gate {
        Standard::X | Standard::H => 1,
        Standard::Cnot => 2,
    }
}

fn has_arity(count: usize, gate: Option<Standard>) -> bool
    ensures { result ≡ has_arity count gate }
{
    match gate {
        Some(gate) => count == arity(gate),
        None => true,
    }
}

fn is_fitting(statement: &Statement) -> bool
    ensures { result ≡ is_fitting statement.now }
{
    match statement {
        Statement::Gate(gate) => has_arity(
            gate.qubits.as_slice().len(),
            gate_named(gate.name.text.as_bytes()),
        ),
        _ => true,
    }
}

fn check_arity(line: &Line) -> Result<(), LoadFault>
    ensures { result_err result ≡ wrong_arity line.now }
{
    if is_fitting(&line.statement) {
        Ok(())
    } else {
        Err(LoadFault::Arity {
            line: line.place.line,
        })
    }
}

/// Refuses the first statement that is one too many, or a gate on a wrong number of qubits.
pub(crate) fn check_counts(mut items: &[Item]) -> Result<(), LoadFault>
    ensures { result_err result ≡ counted 0 items.entry.now }
{
    let mut count = 0u64;
    while let [item, rest @ ..] = items {
        if let Item::Plain(line) = item {
            if count >= MOST_STATEMENTS {
                return Err(LoadFault::TooManyInstructions { count: count + 1 });
            }
            check_arity(line)?;
            count += 1;
        }
        items = rest;
    }
    Ok(())
}
