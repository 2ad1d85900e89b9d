//! What of Quil is built.

ghost use Rattle.std.specs.Prelude.{◌≡◌};
ghost use Rattle.std.specs.Result.{result_err};
ghost use Rattle.std.specs.List.{list_all};
ghost use Rattle.quil_link.specs.Passes.{first_of};
ghost use Rattle.quil_link.specs.Built.{gate_named, qubit_number, is_number, is_number_if_any, is_built_gate, is_built, not_built};

use quil_code::LoadFault;
use quil_tree::{Gate, Item, Qubit, Statement};

/// Qubits are numbers below this.
pub(crate) const QUBIT_LIMIT: u32 = 65_536;

/// The gates that are built.
#[derive(Clone, Copy, Debug, PartialEq, Eq)]
pub(crate) enum Standard {
    X,
    H,
    Cnot,
}

/// The gate of a name.
pub(crate) fn gate_named(name: &[u8]) -> Option<Standard>
    ensures { result ≡ gate_named name.now }
{
    if name == b"X".as_slice() {
        Some(Standard::X)
    } else if name == b"H".as_slice() {
        Some(Standard::H)
    } else if name == b"CNOT".as_slice() {
        Some(Standard::Cnot)
    } else {
        None
    }
}

/// The number of a qubit at the top level. No text has a formal qubit there, or a larger number.
pub(crate) fn qubit_number(qubit: &Qubit) -> Option<u32>
    ensures { result ≡ qubit_number qubit.now }
{
    match qubit {
        Qubit::Index(_, index) => {
            if index.value < u64::from(QUBIT_LIMIT) {
                Some(index.value as u32)
            } else {
                None
            }
        }
        Qubit::Formal(_) => None,
    }
}

fn is_number(qubit: &Qubit) -> bool
    ensures { result ≡ is_number qubit.now }
{
    qubit_number(qubit).is_some()
}

fn is_number_if_any(qubit: &Option<Qubit>) -> bool
    ensures { result ≡ is_number_if_any qubit.now }
{
    match qubit {
        Some(qubit) => is_number(qubit),
        None => true,
    }
}

fn are_numbers(qubits: &[Qubit]) -> bool
    ensures { result ≡ list_all is_number qubits.now }
{
    qubits.iter().all(|qubit| is_number(qubit))
}

fn is_built_gate(gate: &Gate) -> bool
    ensures { result ≡ is_built_gate gate.now }
{
    gate.modifiers.as_slice().is_empty()
        && gate.parameters.as_slice().is_empty()
        && gate_named(gate.name.text.as_bytes()).is_some()
        && are_numbers(gate.qubits.as_slice())
}

fn is_built(statement: &Statement) -> bool
    ensures { result ≡ is_built statement.now }
{
    match statement {
        Statement::Gate(gate) => is_built_gate(gate),
        Statement::Measure(qubit, _) => is_number(qubit),
        Statement::Reset(qubit) => is_number_if_any(qubit),
        Statement::Label(_)
        | Statement::Jump(_)
        | Statement::JumpWhen(_, _)
        | Statement::JumpUnless(_, _) => false,
        _ => true,
    }
}

fn check_item(item: &Item) -> Result<(), LoadFault>
    ensures { result_err result ≡ not_built item.now }
{
    match item {
        Item::Declare(_) => Ok(()),
        Item::DefGate(definition) => Err(LoadFault::NotBuilt {
            line: definition.place.line,
        }),
        Item::DefCircuit(definition) => Err(LoadFault::NotBuilt {
            line: definition.place.line,
        }),
        Item::Plain(line) => {
            if is_built(&line.statement) {
                Ok(())
            } else {
                Err(LoadFault::NotBuilt {
                    line: line.place.line,
                })
            }
        }
    }
}

/// Refuses the first item that isn't built.
pub(crate) fn check_built(mut items: &[Item]) -> Result<(), LoadFault>
    ensures { result_err result ≡ first_of not_built items.entry.now }
{
    while let [item, rest @ ..] = items {
        check_item(item)?;
        items = rest;
    }
    Ok(())
}
