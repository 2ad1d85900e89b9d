//! The text of a gate, behind another text.

ghost use Rattle.std.specs.Prelude.{◌≡◌, ◌++◌, codes, OnOk};
ghost use Rattle.std.specs.List.{flat_map};
ghost use Rattle.quil_tree.specs.Printed.{gate_text, modification_text, qubit_text};

use crate::names::NameSet;
use crate::printer::lists::push_arguments;
use crate::printer::operand::push_qubit;
use crate::printer::word;
use crate::statement::{Gate, Modifier, Qubit};
use std::alloc::{AllocError, Global};

pub(crate) fn push_gate(
    text: &mut Vec<u8>,
    alloc: Global,
    names: &NameSet,
    gate: &Gate,
) -> Result<(), AllocError>
    ensures { OnOk result (text.new.items ≡ text.old.items ++ gate_text names.now gate.now) }
{
    push_modifiers(text, gate.modifiers.as_slice())?;
    text.extend_from_slice(gate.name.text.as_bytes())?;
    push_arguments(text, alloc, names, gate.parameters.as_slice())?;
    push_qubits(text, gate.qubits.as_slice())
}

fn push_modifiers(text: &mut Vec<u8>, mut modifiers: &[Modifier]) -> Result<(), AllocError>
    ensures { OnOk result (text.new.items ≡ text.old.items ++ flat_map (λ m. modification_text m.kind ++ codes " ") modifiers.entry.now) }
{
    while let [modifier, rest @ ..] = modifiers {
        text.extend_from_slice(word::modification(modifier.kind))?;
        text.extend_from_slice(b" ")?;
        modifiers = rest;
    }
    Ok(())
}

fn push_qubits(text: &mut Vec<u8>, mut qubits: &[Qubit]) -> Result<(), AllocError>
    ensures { OnOk result (text.new.items ≡ text.old.items ++ flat_map (λ q. codes " " ++ qubit_text q) qubits.entry.now) }
{
    while let [qubit, rest @ ..] = qubits {
        text.extend_from_slice(b" ")?;
        push_qubit(text, qubit)?;
        qubits = rest;
    }
    Ok(())
}
