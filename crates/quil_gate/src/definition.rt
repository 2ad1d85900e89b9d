//! The matrix of a definition.

ghost use Rattle.std.specs.Prelude.{◌≡◌, ◌*◌, ◌^◌, ◌≤◌, length, map, All, IfSome};
ghost use Rattle.qvm_ring.specs.Views.{element_of, elements_of};
ghost use Rattle.qvm_ring.specs.Multiply.{IsWithin};
ghost use Rattle.quil_number.specs.Decimal.{number};
ghost use Rattle.quil_gate.specs.Definitions.{arity_of_rows, is_square, if_unitary, matrix_of_entries, matrix_of_square, matrix_of_rows, matrix_of_permutation, defined, Defines};
ghost use Rattle.quil_gate.specs.Reading.{entries_of};

use crate::entry::entries_of_rows;
use crate::gate_fault::GateFault;
use crate::numerators::{greatest_power, numerators};
use crate::permutation::{numbers_of, permutation_entries};
use quil_code::Matrix;
use quil_tree::{Form, Formula, GateDefinition, List, Text};
use quil_value::{RingNumber, Value};
use qvm_ring::Amp;
use std::alloc::Global;

const MOST_ROOT_TWOS: u32 = 40;

fn arity_of_rows(count: usize) -> Option<u32>
    ensures value { result ≡ arity_of_rows count }
    ensures form { IfSome result (λ k. (count ≡ 2 ^ k) × (k ≤ 3)) }
{
    match count {
        2 => Some(1),
        4 => Some(2),
        8 => Some(3),
        _ => None,
    }
}

// Whether each row has as many entries as there are rows.
fn is_square(rows: &[List<Formula>]) -> bool
    ensures { result ≡ is_square rows.now }
{
    rows.iter().all(|row| row.as_slice().len() == rows.len())
}

// The matrix of these entries, if it is unitary.
fn if_unitary(arity: u32, root_twos: u32, entries: [Amp; 64]) -> Result<Matrix, GateFault>
    requires few { arity ≤ 3 }
    requires light { root_twos ≤ 40 }
    requires small { All (λ z. IsWithin (2 ^ 20) (element_of z)) entries }
    ensures { result ≡ if_unitary (record { arity = arity; root_twos = root_twos; entries = elements_of entries }) }
{
    match Matrix::new(arity, root_twos, entries) {
        Some(matrix) => {
            // It is unitary.
            let _arity = matrix.arity();
            Ok(matrix)
        }
        None => Err(GateFault::NotUnitary),
    }
}

fn matrix_of_entries(arity: u32, entries: &[RingNumber]) -> Result<Matrix, GateFault>
    requires few { arity ≤ 3 }
    requires all { length entries.now ≡ 2 ^ arity * 2 ^ arity }
    ensures { result ≡ matrix_of_entries arity (entries_of entries.now) }
{
    let root_twos = greatest_power(entries);
    if root_twos > MOST_ROOT_TWOS {
        return Err(GateFault::EntryTooLarge);
    }
    match numerators(entries, root_twos) {
        Some(all) => if_unitary(arity, root_twos, all),
        None => Err(GateFault::NotUnitary),
    }
}

fn matrix_of_square(
    alloc: Global,
    rows: &[List<Formula>],
    values: &[Value],
    arity: u32,
) -> Result<Matrix, GateFault>
    requires few { arity ≤ 3 }
    requires rows { length rows.now ≡ 2 ^ arity }
    ensures { Defines result (matrix_of_square values.now rows.now arity) }
{
    if !is_square(rows) {
        return Err(GateFault::Arity);
    }
    let entries = entries_of_rows(alloc, rows, values)?;
    matrix_of_entries(arity, &entries)
}

fn matrix_of_rows(
    alloc: Global,
    rows: &[List<Formula>],
    values: &[Value],
) -> Result<Matrix, GateFault>
    ensures { Defines result (matrix_of_rows values.now rows.now) }
{
    match arity_of_rows(rows.len()) {
        Some(arity) => matrix_of_square(alloc, rows, values, arity),
        None => Err(GateFault::Arity),
    }
}

fn matrix_of_permutation(alloc: Global, texts: &[Text]) -> Result<Matrix, GateFault>
    ensures { Defines result (matrix_of_permutation (map number texts.now)) }
{
    let Some(arity) = arity_of_rows(texts.len()) else {
        return Err(GateFault::Arity);
    };
    let numbers = numbers_of(alloc, texts)?;
    if_unitary(arity, 0, permutation_entries(&numbers, texts.len() as u8))
}

/// The matrix of a definition, for values of its parameters.
///
/// It is refused, the first of these that holds:
/// - by Arity where it hasn't 2, 4 or 8 rows of as many entries each; a permutation where it hasn't 2, 4 or 8 numbers;
/// - by NotExact, ZeroDivisor or NumberTooWide at the first part of an entry that has no value, or by NotExact at the place of
///   an entry whose value is no ring number, in the order of the text;
/// - by EntryTooLarge where its entries have no numerators over √2^40;
/// - by NotUnitary where its product with its conjugate transpose isn't the identity; a permutation so where a number stands
///   twice, or isn't below their count.
pub fn define(
    alloc: Global,
    definition: &GateDefinition,
    values: &[Value],
) -> Result<Matrix, GateFault>
    ensures { Defines result (defined definition.now values.now) }
{
    match &definition.form {
        Form::Matrix(rows) => matrix_of_rows(alloc, rows.as_slice(), values),
        Form::Permutation(numbers) => matrix_of_permutation(alloc, numbers.as_slice()),
    }
}
