//! The texts of definitions, behind another text.

ghost use Rattle.std.specs.Prelude.{◌≡◌, ◌++◌, codes, OnOk};
ghost use Rattle.std.specs.List.{flat_map};
ghost use Rattle.quil_tree.specs.Names.{texts_of};
ghost use Rattle.quil_tree.specs.Printed.{body_line, circuit_definition_text, form_text, formula_texts, gate_definition_text, listed, rows_text, statement_text, with_commas};

use crate::item::{CircuitDefinition, Form, GateDefinition};
use crate::list::List;
use crate::names::NameSet;
use crate::printer::lists::{push_formulas, push_parameters, push_texts};
use crate::printer::statement::push_statement;
use crate::statement::{Formula, Line, Name};
use crate::text::Text;
use std::alloc::{AllocError, Global};

pub(crate) fn push_gate_definition(
    text: &mut Vec<u8>,
    alloc: Global,
    definition: &GateDefinition,
) -> Result<(), AllocError>
    ensures { OnOk result (text.new.items ≡ text.old.items ++ gate_definition_text definition.now) }
{
    let names = NameSet::of(alloc, definition.parameters.as_slice())?;
    push_head(
        text,
        b"DEFGATE ",
        &definition.name,
        definition.parameters.as_slice(),
    )?;
    push_form(text, &definition.form)?;
    text.extend_from_slice(b":\n")?;
    push_rows(text, alloc, &names, &definition.form)
}

// A word, and the name and the parameters of what is defined.
fn push_head(
    text: &mut Vec<u8>,
    word: &[u8],
    name: &Name,
    parameters: &[Name],
) -> Result<(), AllocError>
    ensures { OnOk result (text.new.items ≡ text.old.items ++ (word.now ++ name.now.text ++ listed (texts_of parameters.now))) }
{
    text.extend_from_slice(word)?;
    text.extend_from_slice(name.text.as_bytes())?;
    push_parameters(text, parameters)
}

fn push_form(text: &mut Vec<u8>, form: &Form) -> Result<(), AllocError>
    ensures { OnOk result (text.new.items ≡ text.old.items ++ form_text form.now) }
{
    match form {
        Form::Matrix(_rows) => Ok(()),
        Form::Permutation(_numbers) => text.extend_from_slice(b" AS PERMUTATION"),
    }
}

fn push_rows(
    text: &mut Vec<u8>,
    alloc: Global,
    names: &NameSet,
    form: &Form,
) -> Result<(), AllocError>
    ensures { OnOk result (text.new.items ≡ text.old.items ++ rows_text names.now form.now) }
{
    match form {
        Form::Matrix(rows) => push_matrix(text, alloc, names, rows.as_slice()),
        Form::Permutation(numbers) => push_permutation(text, numbers.as_slice()),
    }
}

fn push_permutation(text: &mut Vec<u8>, numbers: &[Text]) -> Result<(), AllocError>
    ensures { OnOk result (text.new.items ≡ text.old.items ++ body_line (with_commas numbers.now)) }
{
    text.extend_from_slice(b"    ")?;
    push_texts(text, numbers)?;
    text.extend_from_slice(b"\n")
}

fn push_matrix(
    text: &mut Vec<u8>,
    alloc: Global,
    names: &NameSet,
    mut rows: &[List<Formula>],
) -> Result<(), AllocError>
    ensures { OnOk result (text.new.items ≡ text.old.items ++ flat_map (λ row. body_line (with_commas (formula_texts names.now row))) rows.entry.now) }
{
    while let [row, rest @ ..] = rows {
        push_row(text, alloc, names, row.as_slice())?;
        rows = rest;
    }
    Ok(())
}

fn push_row(
    text: &mut Vec<u8>,
    alloc: Global,
    names: &NameSet,
    entries: &[Formula],
) -> Result<(), AllocError>
    ensures { OnOk result (text.new.items ≡ text.old.items ++ body_line (with_commas (formula_texts names.now entries.now))) }
{
    text.extend_from_slice(b"    ")?;
    push_formulas(text, alloc, names, entries)?;
    text.extend_from_slice(b"\n")
}

pub(crate) fn push_circuit_definition(
    text: &mut Vec<u8>,
    alloc: Global,
    definition: &CircuitDefinition,
) -> Result<(), AllocError>
    ensures { OnOk result (text.new.items ≡ text.old.items ++ circuit_definition_text definition.now) }
{
    let names = NameSet::of(alloc, definition.parameters.as_slice())?;
    push_head(
        text,
        b"DEFCIRCUIT ",
        &definition.name,
        definition.parameters.as_slice(),
    )?;
    push_formal_qubits(text, definition.qubits.as_slice())?;
    text.extend_from_slice(b":\n")?;
    push_body(text, alloc, &names, definition.body.as_slice())
}

fn push_formal_qubits(text: &mut Vec<u8>, mut qubits: &[Name]) -> Result<(), AllocError>
    ensures { OnOk result (text.new.items ≡ text.old.items ++ flat_map (λ q. codes " " ++ q.text) qubits.entry.now) }
{
    while let [qubit, rest @ ..] = qubits {
        text.extend_from_slice(b" ")?;
        text.extend_from_slice(qubit.text.as_bytes())?;
        qubits = rest;
    }
    Ok(())
}

fn push_body(
    text: &mut Vec<u8>,
    alloc: Global,
    names: &NameSet,
    mut lines: &[Line],
) -> Result<(), AllocError>
    ensures { OnOk result (text.new.items ≡ text.old.items ++ flat_map (λ l. body_line (statement_text names.now l.statement)) lines.entry.now) }
{
    while let [line, rest @ ..] = lines {
        text.extend_from_slice(b"    ")?;
        push_statement(text, alloc, names, &line.statement)?;
        text.extend_from_slice(b"\n")?;
        lines = rest;
    }
    Ok(())
}
