//! Matrices of gates.

ghost use Rattle.std.specs.Prelude.{◌≡◌, ◌+◌, ◌*◌, ◌^◌, ◌<◌, ◌≤◌, All, IfSome, None};
ghost use Rattle.qvm_ring.specs.Gate.{IsUnitary};
ghost use Rattle.qvm_ring.specs.Views.{element_of, elements_of};
ghost use Rattle.qvm_ring.specs.Multiply.{IsWithin};
ghost use Rattle.quil_code.specs.Controls.{daggered};
ghost use Rattle.quil_code.specs.StandardGates.{form_of, entry_of, standard};
ghost use Rattle.quil_code.specs.Entries.{HasEntries};
ghost use Rattle.quil_code.specs.Matrices.{matrix_gate, IsMatrix, IsGate};

use crate::square::{Square, conjugate, is_unitary};
use crate::standard_gate::StandardGate;
use qvm_ring::Amp;
use std::marker::Model;

/// A unitary matrix on at most 3 qubits: numerators over √2^m, with m at most 40.
#[derive(Drop)]
pub struct Matrix {
    arity: u32,
    root_twos: u32,
    entries: [Amp; 64],
}

impl Model for Matrix {
    ghost use Rattle.qvm_ring.specs.Views.{elements_of};
    ghost use Rattle.quil_code.specs.Matrices as matrices;
    ghost use Rattle.quil_code.specs.Matrices.{IsMatrix};

    ghost Value = { matrices.Matrix };

    ghost view = { λ m. record { arity = m.arity; root_twos = m.root_twos; entries = elements_of m.entries } };

    ghost invariant = { λ m. IsMatrix (record { arity = m.arity; root_twos = m.root_twos; entries = elements_of m.entries }) };
}

impl Matrix {
    /// The matrix of these entries, row by row, if it is unitary: that is, if its product with its conjugate transpose is the
    /// identity in both orders. It is on at most 3 qubits, over √2^m with m at most 40, and its coefficients are at most 2^20 in
    /// absolute value. What stands behind the last entry is kept, and no entry.
    pub fn new(arity: u32, root_twos: u32, entries: [Amp; 64]) -> Option<Matrix>
        requires few { arity ≤ 3 }
        requires light { root_twos ≤ 40 }
        requires small { All (λ z. IsWithin (2 ^ 20) (element_of z)) entries }
        ensures some { IfSome result (λ m. m ≡ record { arity = arity; root_twos = root_twos; entries = elements_of entries }) }
        ensures none { result ≡ None → IsUnitary (matrix_gate (record { arity = arity; root_twos = root_twos; entries = elements_of entries })) → ⊥ }
    {
        let square = Square {
            arity,
            root_twos,
            entries,
        };
        if !is_unitary(&square) {
            return None;
        }
        Some(Matrix {
            arity,
            root_twos,
            entries: square.entries,
        })
    }

    /// On how many qubits it is.
    pub fn arity(&self) -> u32
        ensures value { result ≡ self.now.arity }
        ensures form { IsMatrix self.now }
    {
        self.arity
    }

    /// The numerator at a row and a column.
    pub fn entry(&self, row: u8, column: u8) -> Amp
        requires row { row < 2 ^ self.now.arity }
        requires column { column < 2 ^ self.now.arity }
        ensures value { element_of result ≡ (matrix_gate self.now).entry row column }
        ensures bound { IsWithin (2 ^ 20) (element_of result) }
    {
        self.entries[place_of(self.arity, row, column)]
    }

    /// The m of the √2^m over which its entries are.
    pub fn root_twos(&self) -> u32
        ensures value { result ≡ self.now.root_twos }
        ensures form { IsMatrix self.now }
    {
        self.root_twos
    }

    /// The same matrix.
    pub fn copied(&self) -> Matrix
        ensures { result ≡ self.now }
    {
        Matrix {
            arity: self.arity,
            root_twos: self.root_twos,
            entries: self.entries,
        }
    }

    /// Its conjugate transpose.
    pub fn dagger(&self) -> Matrix
        ensures { IsGate (daggered (matrix_gate self.now)) (matrix_gate result) }
    {
        let entries = daggered_entries(self, size_of_arity(self.arity()));
        Matrix {
            arity: self.arity(),
            root_twos: self.root_twos(),
            entries,
        }
    }
}

impl Default for Matrix {
    /// A matrix for the blank places of lists.
    fn default() -> Matrix {
        matrix_of(StandardGate::I, 0)
    }
}

// The entries of the conjugate transpose, row by row.
fn daggered_entries(matrix: &Matrix, size: u8) -> [Amp; 64]
    requires size { size ≡ 2 ^ matrix.now.arity }
    requires few { matrix.now.arity ≤ 3 }
    ensures { HasEntries (daggered (matrix_gate matrix.now)).entry size (size * size) (elements_of result) }
{
    let mut entries = [Amp::ZERO; 64];
    for place in 0..size * size {
        entries[usize::from(place)] = conjugate(matrix.entry(place % size, place / size));
    }
    entries
}

/// 2 to the number of qubits.
pub(crate) fn size_of_arity(arity: u32) -> u8
    requires { arity ≤ 3 }
    ensures { result ≡ 2 ^ arity }
{
    match arity {
        0 => 1,
        1 => 2,
        2 => 4,
        _ => 8,
    }
}

/// The place of an entry in a matrix on so many qubits.
pub(crate) fn place_of(arity: u32, row: u8, column: u8) -> usize
    requires few { arity ≤ 3 }
    requires row { row < 2 ^ arity }
    requires column { column < 2 ^ arity }
    ensures value { result ≡ row * 2 ^ arity + column }
    ensures bound { result < 64 }
{
    let size = match arity {
        0 => 1,
        1 => 2,
        2 => 4,
        _ => 8,
    };
    usize::from(row) * size + usize::from(column)
}

// The entries of a gate, row by row.
fn entries_of(gate: StandardGate, eighths: u8, size: u8) -> [Amp; 64]
    requires angle { eighths < 16 }
    requires size { size ≡ 2 ^ (form_of gate).arity }
    ensures { HasEntries (entry_of gate eighths) size (size * size) (elements_of result) }
{
    let mut entries = [Amp::ZERO; 64];
    for place in 0..size * size {
        entries[usize::from(place)] = gate.entry(eighths, place / size, place % size);
    }
    entries
}

/// The matrix of a gate at an angle of so many eighths of a turn, by its remainder by 16.
pub(crate) fn matrix_of(gate: StandardGate, eighths: u8) -> Matrix
    requires { eighths < 16 }
    ensures { IsGate (standard gate eighths) (matrix_gate result) }
{
    let entries = entries_of(gate, eighths, size_of_arity(gate.arity()));
    Matrix {
        arity: gate.arity(),
        root_twos: gate.root_twos(),
        entries,
    }
}
