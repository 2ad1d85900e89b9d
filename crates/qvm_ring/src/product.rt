//! The product of a small gate with a vector of amplitudes.

ghost use Rattle.std.specs.Prelude.{◌≡◌, ◌+◌, ◌*◌, ◌^◌, ◌<◌, ◌≤◌, ℕ, length, All, IfOk};
ghost use Rattle.qvm_ring.specs.Ring.{plus, times};
ghost use Rattle.qvm_ring.specs.Ray.{ray_of, amplitude_at};
ghost use Rattle.qvm_ring.specs.Gate.{product_at};
ghost use Rattle.qvm_ring.specs.Views.{element_of, wide_element, elements_of, wide_elements_of, map_of, IsBelow};
ghost use Rattle.qvm_ring.specs.Multiply.{IsWithin};
ghost use Rattle.qvm_ring.specs.Table.{table_gate, IsTable};

use crate::amp::Amp;
use crate::local::{local_state, with_local};
use crate::multiply::mul;
use crate::number::Number;
use crate::table::Table;
use crate::wide::{Wide, plus};
use std::alloc::{AllocError, Global};

// The product of an entry and an amplitude.
fn term(entry: Amp, amplitude: Amp) -> Wide
    requires entry { IsBelow (2 ^ 21) (element_of entry) }
    requires amplitude { IsBelow (2 ^ 48) (element_of amplitude) }
    ensures value { wide_element result ≡ times (element_of entry) (element_of amplitude) }
    ensures bound { IsWithin (2 ^ 71) (wide_element result) }
{
    mul(entry, amplitude)
}

// Adds the product of an entry and an amplitude, if neither is 0.
#[tactic(auto, using(crate::proofs::ProductBounds::within_more, crate::proofs::ProductBounds::plus_within))]
fn plus_product(so_far: Wide, entry: Amp, amplitude: Amp) -> Wide
    requires so_far { IsWithin (2 ^ 80) (wide_element so_far) }
    requires entry { IsBelow (2 ^ 21) (element_of entry) }
    requires amplitude { IsBelow (2 ^ 48) (element_of amplitude) }
    ensures value { wide_element result ≡ plus (wide_element so_far) (times (element_of entry) (element_of amplitude)) }
    ensures bound { (n : ℕ) → IsWithin n (wide_element so_far) → IsWithin (n + 2 ^ 71) (wide_element result) }
{
    if entry.is_zero() {
        return so_far;
    }
    if amplitude.is_zero() {
        return so_far;
    }
    plus(so_far, term(entry, amplitude))
}

// The number of basis states of so many qubits.
fn size(qubits: u32) -> usize
    requires { qubits ≤ 2 }
    ensures { result ≡ 2 ^ qubits }
{
    1 << qubits
}

fn entry(table: &Table, row: usize, column: usize) -> Amp
    requires table { IsTable table.now }
    requires row { row < 2 ^ table.now.arity }
    requires column { column < 2 ^ table.now.arity }
    ensures value { element_of result ≡ (table_gate table.now).entry row column }
    ensures bound { IsBelow (2 ^ 21) (element_of result) }
{
    table.entries[row * size(table.arity) + column]
}

#[tactic(auto, using(crate::proofs::Products::amplitude_of_list))]
fn amplitude_at(amplitudes: &[Amp], basis: usize) -> Amp
    requires { basis < length amplitudes.now }
    ensures value { element_of result ≡ amplitude_at (map_of (elements_of amplitudes.now)) basis }
    ensures bound { All (λ z. IsBelow (2 ^ 48) (element_of z)) amplitudes.now → IsBelow (2 ^ 48) (element_of result) }
{
    amplitudes[basis]
}

// The product's amplitude of one basis state: a sum over the columns.
fn row_sum(amplitudes: &[Amp], width: u32, table: &Table, qubits: &[u32], basis: usize) -> Wide
    requires width { width ≤ 16 }
    requires count { length amplitudes.now ≡ 2 ^ width }
    requires light { All (λ z. IsBelow (2 ^ 48) (element_of z)) amplitudes.now }
    requires table { IsTable table.now }
    requires arity { length qubits.now ≡ table.now.arity }
    requires qubits { All (λ q. q < width) qubits.now }
    requires basis { basis < 2 ^ width }
    ensures value { wide_element result ≡ product_at (table_gate table.now) qubits.now (map_of (elements_of amplitudes.now)) basis }
    ensures bound { IsBelow (2 ^ 125) (wide_element result) }
{
    let row = local_state(basis, qubits);
    let mut so_far = Wide::ZERO;
    for column in 0..size(table.arity) {
        let other = with_local(basis, qubits, column);
        let amplitude = amplitude_at(amplitudes, other);
        so_far = plus_product(so_far, entry(table, row, column), amplitude);
    }
    so_far
}

/// The product of the table's gate on the qubits with a vector of 2^width amplitudes, as sums that aren't reduced.
pub(crate) fn product(
    alloc: Global,
    amplitudes: &[Amp],
    width: u32,
    table: &Table,
    qubits: &[u32],
) -> Result<Vec<Wide>, AllocError>
    requires width { width ≤ 16 }
    requires count { length amplitudes.now ≡ 2 ^ width }
    requires light { All (λ z. IsBelow (2 ^ 48) (element_of z)) amplitudes.now }
    requires table { IsTable table.now }
    requires arity { length qubits.now ≡ table.now.arity }
    requires qubits { All (λ q. q < width) qubits.now }
    ensures value { IfOk result (λ v. map_of (wide_elements_of v.items) ≡ ray_of (2 ^ width) (product_at (table_gate table.now) qubits.now (map_of (elements_of amplitudes.now)))) }
    ensures same { IfOk result (λ v. length v.items ≡ 2 ^ width) }
    ensures bound { IfOk result (λ v. All (IsBelow (2 ^ 125)) (wide_elements_of v.items)) }
{
    let mut sums = Vec::with_capacity(alloc, amplitudes.len())?;
    for basis in 0..amplitudes.len() {
        sums.push(row_sum(amplitudes, width, table, qubits, basis))?;
    }
    Ok(sums)
}
