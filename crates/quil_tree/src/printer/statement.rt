//! The text of a statement, behind another text.

ghost use Rattle.std.specs.Prelude.{◌≡◌, ◌++◌, codes, OnOk};
ghost use Rattle.quil_tree.specs.Printed.{compared, maybe_qubit, maybe_reference, pragma_text, qubit_text, reference_text, statement_text, two_references, with_operand, operand_text};

use crate::names::NameSet;
use crate::printer::gate::push_gate;
use crate::printer::operand::{push_operand, push_qubit, push_reference};
use crate::printer::pragma::push_tokens;
use crate::statement::{Name, Operand, Qubit, Reference, Statement};
use crate::text::Text;
use std::alloc::{AllocError, Global};

/// Writes a statement. Parameters have these names.
pub(crate) fn push_statement(
    text: &mut Vec<u8>,
    alloc: Global,
    names: &NameSet,
    statement: &Statement,
) -> Result<(), AllocError>
    ensures { OnOk result (text.new.items ≡ text.old.items ++ statement_text names.now statement.now) }
{
    match statement {
        Statement::Gate(gate) => push_gate(text, alloc, names, gate),
        Statement::Measure(qubit, target) => push_measure(text, qubit, target),
        Statement::Reset(qubit) => push_reset(text, qubit),
        Statement::Wait => text.extend_from_slice(b"WAIT"),
        Statement::Nop => text.extend_from_slice(b"NOP"),
        Statement::Halt => text.extend_from_slice(b"HALT"),
        Statement::Pragma(name, tokens) => push_pragma(text, name, tokens.as_slice()),
        Statement::Label(name) => push_named(text, b"LABEL ", name),
        Statement::Jump(name) => push_named(text, b"JUMP ", name),
        Statement::JumpWhen(name, a) => push_name_and_reference(text, b"JUMP-WHEN ", name, a),
        Statement::JumpUnless(name, a) => push_name_and_reference(text, b"JUMP-UNLESS ", name, a),
        Statement::Not(a) => push_unary(text, b"NOT ", a),
        Statement::Neg(a) => push_unary(text, b"NEG ", a),
        Statement::Exchange(a, b) => push_two(text, b"EXCHANGE", a, b),
        Statement::Convert(a, b) => push_two(text, b"CONVERT", a, b),
        Statement::Move(a, x) => push_binary(text, alloc, names, b"MOVE", a, x),
        Statement::Add(a, x) => push_binary(text, alloc, names, b"ADD", a, x),
        Statement::Sub(a, x) => push_binary(text, alloc, names, b"SUB", a, x),
        Statement::Mul(a, x) => push_binary(text, alloc, names, b"MUL", a, x),
        Statement::Div(a, x) => push_binary(text, alloc, names, b"DIV", a, x),
        Statement::And(a, x) => push_binary(text, alloc, names, b"AND", a, x),
        Statement::Ior(a, x) => push_binary(text, alloc, names, b"IOR", a, x),
        Statement::Xor(a, x) => push_binary(text, alloc, names, b"XOR", a, x),
        Statement::Load(a, region, index) => push_load(text, a, region, index),
        Statement::Store(region, index, x) => push_store(text, alloc, names, region, index, x),
        Statement::Eq(r, a, x) => push_comparison(text, alloc, names, b"EQ", r, a, x),
        Statement::Gt(r, a, x) => push_comparison(text, alloc, names, b"GT", r, a, x),
        Statement::Ge(r, a, x) => push_comparison(text, alloc, names, b"GE", r, a, x),
        Statement::Lt(r, a, x) => push_comparison(text, alloc, names, b"LT", r, a, x),
        Statement::Le(r, a, x) => push_comparison(text, alloc, names, b"LE", r, a, x),
    }
}

fn push_measure(
    text: &mut Vec<u8>,
    qubit: &Qubit,
    target: &Option<Reference>,
) -> Result<(), AllocError>
    ensures { OnOk result (text.new.items ≡ text.old.items ++ (codes "MEASURE " ++ qubit_text qubit.now ++ maybe_reference target.now)) }
{
    text.extend_from_slice(b"MEASURE ")?;
    push_qubit(text, qubit)?;
    if let Some(reference) = target {
        text.extend_from_slice(b" ")?;
        push_reference(text, reference)?;
    }
    Ok(())
}

fn push_reset(text: &mut Vec<u8>, qubit: &Option<Qubit>) -> Result<(), AllocError>
    ensures { OnOk result (text.new.items ≡ text.old.items ++ (codes "RESET" ++ maybe_qubit qubit.now)) }
{
    text.extend_from_slice(b"RESET")?;
    if let Some(qubit) = qubit {
        text.extend_from_slice(b" ")?;
        push_qubit(text, qubit)?;
    }
    Ok(())
}

fn push_pragma(text: &mut Vec<u8>, name: &Name, tokens: &[Text]) -> Result<(), AllocError>
    ensures { OnOk result (text.new.items ≡ text.old.items ++ (codes "PRAGMA " ++ name.now.text ++ pragma_text name.now.text tokens.now)) }
{
    text.extend_from_slice(b"PRAGMA ")?;
    text.extend_from_slice(name.text.as_bytes())?;
    push_tokens(text, name.text.as_bytes(), tokens)
}

fn push_named(text: &mut Vec<u8>, word: &[u8], name: &Name) -> Result<(), AllocError>
    ensures { OnOk result (text.new.items ≡ text.old.items ++ (word.now ++ name.now.text)) }
{
    text.extend_from_slice(word)?;
    text.extend_from_slice(name.text.as_bytes())
}

fn push_name_and_reference(
    text: &mut Vec<u8>,
    word: &[u8],
    name: &Name,
    reference: &Reference,
) -> Result<(), AllocError>
    ensures { OnOk result (text.new.items ≡ text.old.items ++ (word.now ++ name.now.text ++ codes " " ++ reference_text reference.now)) }
{
    push_named(text, word, name)?;
    text.extend_from_slice(b" ")?;
    push_reference(text, reference)
}

fn push_unary(text: &mut Vec<u8>, word: &[u8], target: &Reference) -> Result<(), AllocError>
    ensures { OnOk result (text.new.items ≡ text.old.items ++ (word.now ++ reference_text target.now)) }
{
    text.extend_from_slice(word)?;
    push_reference(text, target)
}

fn push_two(
    text: &mut Vec<u8>,
    word: &[u8],
    first: &Reference,
    second: &Reference,
) -> Result<(), AllocError>
    ensures { OnOk result (text.new.items ≡ text.old.items ++ two_references word.now first.now second.now) }
{
    text.extend_from_slice(word)?;
    text.extend_from_slice(b" ")?;
    push_reference(text, first)?;
    text.extend_from_slice(b" ")?;
    push_reference(text, second)
}

fn push_binary(
    text: &mut Vec<u8>,
    alloc: Global,
    names: &NameSet,
    word: &[u8],
    target: &Reference,
    operand: &Operand,
) -> Result<(), AllocError>
    ensures { OnOk result (text.new.items ≡ text.old.items ++ with_operand names.now word.now target.now operand.now) }
{
    text.extend_from_slice(word)?;
    text.extend_from_slice(b" ")?;
    push_reference(text, target)?;
    text.extend_from_slice(b" ")?;
    push_operand(text, alloc, names, operand)
}

fn push_load(
    text: &mut Vec<u8>,
    target: &Reference,
    region: &Name,
    index: &Reference,
) -> Result<(), AllocError>
    ensures { OnOk result (text.new.items ≡ text.old.items ++ (codes "LOAD " ++ reference_text target.now ++ codes " " ++ region.now.text ++ codes " " ++ reference_text index.now)) }
{
    push_unary(text, b"LOAD ", target)?;
    push_name_and_reference(text, b" ", region, index)
}

fn push_store(
    text: &mut Vec<u8>,
    alloc: Global,
    names: &NameSet,
    region: &Name,
    index: &Reference,
    operand: &Operand,
) -> Result<(), AllocError>
    ensures { OnOk result (text.new.items ≡ text.old.items ++ (codes "STORE " ++ region.now.text ++ codes " " ++ reference_text index.now ++ codes " " ++ operand_text names.now operand.now)) }
{
    push_name_and_reference(text, b"STORE ", region, index)?;
    text.extend_from_slice(b" ")?;
    push_operand(text, alloc, names, operand)
}

fn push_comparison(
    text: &mut Vec<u8>,
    alloc: Global,
    names: &NameSet,
    word: &[u8],
    target: &Reference,
    first: &Reference,
    operand: &Operand,
) -> Result<(), AllocError>
    ensures { OnOk result (text.new.items ≡ text.old.items ++ compared names.now word.now target.now first.now operand.now) }
{
    push_two(text, word, target, first)?;
    text.extend_from_slice(b" ")?;
    push_operand(text, alloc, names, operand)
}
