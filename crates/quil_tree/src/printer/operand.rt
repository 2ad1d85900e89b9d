//! The texts of operands, behind another text.

ghost use Rattle.std.specs.Prelude.{◌≡◌, ◌++◌, true, OnOk};
ghost use Rattle.std.specs.Char.{is_ascii_digit};
ghost use Rattle.std.specs.List.{list_all};
ghost use Rattle.quil_tree.specs.Printed.{address_text, enclosed, formula_text, is_whole_alone, maybe_sign, operand_text, qubit_text, reference_text};

use crate::expr::{Action, Address, Atom, Sign, Step};
use crate::names::NameSet;
use crate::printer::expression::push_expression;
use crate::printer::word;
use crate::statement::{Formula, Operand, Qubit, Reference};
use std::alloc::{AllocError, Global};

pub(crate) fn push_qubit(text: &mut Vec<u8>, qubit: &Qubit) -> Result<(), AllocError>
    ensures { OnOk result (text.new.items ≡ text.old.items ++ qubit_text qubit.now) }
{
    match qubit {
        Qubit::Index(_place, index) => text.extend_from_slice(index.digits.as_bytes()),
        Qubit::Formal(name) => text.extend_from_slice(name.text.as_bytes()),
    }
}

pub(crate) fn push_reference(text: &mut Vec<u8>, reference: &Reference) -> Result<(), AllocError>
    ensures { OnOk result (text.new.items ≡ text.old.items ++ reference_text reference.now) }
{
    push_address(text, &reference.address)
}

fn push_address(text: &mut Vec<u8>, address: &Address) -> Result<(), AllocError>
    ensures { OnOk result (text.new.items ≡ text.old.items ++ address_text address.now) }
{
    text.extend_from_slice(address.region.as_bytes())?;
    text.extend_from_slice(b"[")?;
    text.extend_from_slice(address.index.digits.as_bytes())?;
    text.extend_from_slice(b"]")
}

pub(crate) fn push_formula(
    text: &mut Vec<u8>,
    alloc: Global,
    names: &NameSet,
    formula: &Formula,
) -> Result<(), AllocError>
    ensures { OnOk result (text.new.items ≡ text.old.items ++ formula_text names.now formula.now) }
{
    push_expression(text, alloc, names, &formula.expr)
}

pub(crate) fn push_operand(
    text: &mut Vec<u8>,
    alloc: Global,
    names: &NameSet,
    operand: &Operand,
) -> Result<(), AllocError>
    ensures { OnOk result (text.new.items ≡ text.old.items ++ operand_text names.now operand.now) }
{
    match operand {
        Operand::Reference(reference) => push_reference(text, reference),
        Operand::Literal(_place, sign, whole) => {
            push_sign(text, sign)?;
            text.extend_from_slice(whole.digits.as_bytes())
        }
        Operand::Formula(formula) => {
            if is_whole_alone(formula.expr.steps()) {
                push_enclosed(text, alloc, names, formula)
            } else {
                push_formula(text, alloc, names, formula)
            }
        }
    }
}

fn push_sign(text: &mut Vec<u8>, sign: &Option<Sign>) -> Result<(), AllocError>
    ensures { OnOk result (text.new.items ≡ text.old.items ++ maybe_sign sign.now) }
{
    match sign {
        Some(sign) => text.extend_from_slice(word::sign(*sign)),
        None => Ok(()),
    }
}

fn push_enclosed(
    text: &mut Vec<u8>,
    alloc: Global,
    names: &NameSet,
    formula: &Formula,
) -> Result<(), AllocError>
    ensures { OnOk result (text.new.items ≡ text.old.items ++ enclosed true (formula_text names.now formula.now)) }
{
    text.extend_from_slice(b"(")?;
    push_formula(text, alloc, names, formula)?;
    text.extend_from_slice(b")")
}

// The steps are those of a whole number alone.
fn is_whole_alone(steps: &[Step]) -> bool
    ensures { result ≡ is_whole_alone steps.now }
{
    match steps {
        [step] => match &step.action {
            Action::Push(Atom::Number(text)) => are_digits(text.as_bytes()),
            _ => false,
        },
        _ => false,
    }
}

fn are_digits(mut bytes: &[u8]) -> bool
    ensures { result ≡ list_all is_ascii_digit bytes.entry.now }
{
    while let [byte, rest @ ..] = bytes {
        if !byte.is_ascii_digit() {
            return false;
        }
        bytes = rest;
    }
    true
}
