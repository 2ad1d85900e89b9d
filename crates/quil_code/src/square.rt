//! Whether a square of entries is a unitary matrix.

ghost use Rattle.std.specs.Prelude.{◌≡◌, ◌≢◌, ◌+◌, ◌*◌, ◌^◌, ◌<◌, ◌≤◌, ◌+ℤ◌, nat_abs, true, false, if◌then◌else◌};
ghost use Rattle.qvm_ring.specs.Ring.{nought, whole_number, plus, times, conjugate};
ghost use Rattle.qvm_ring.specs.Gate.{IsUnitary, gram_entry, cogram_entry};
ghost use Rattle.qvm_ring.specs.Views.{element_of, wide_element};
ghost use Rattle.qvm_ring.specs.Multiply.{IsWithin};
ghost use Rattle.quil_code.specs.Squares.{square_gate, IsSquare, AreProducts, AreRowProducts};

use crate::matrix::{place_of, size_of_arity};
use qvm_ring::{Amp, Wide, mul};

/// Entries on so many qubits, row by row, as numerators over √2^m.
#[derive(Clone, Copy)]
pub(crate) struct Square {
    pub(crate) arity: u32,
    pub(crate) root_twos: u32,
    pub(crate) entries: [Amp; 64],
}

const NOTHING: Wide = Wide {
    a: 0,
    b: 0,
    c: 0,
    d: 0,
};

/// The complex conjugate.
pub(crate) fn conjugate(z: Amp) -> Amp
    requires { IsWithin (2 ^ 20) (element_of z) }
    ensures value { element_of result ≡ conjugate (element_of z) }
    ensures bound { IsWithin (2 ^ 20) (element_of result) }
{
    Amp {
        a: z.a,
        b: -z.d,
        c: -z.c,
        d: -z.b,
    }
}

fn sum(x: i128, y: i128) -> i128
    requires left { nat_abs x ≤ 2 ^ 60 }
    requires right { nat_abs y ≤ 2 ^ 60 }
    ensures { result ≡ x +ℤ y }
{
    x + y
}

fn plus(x: Wide, y: Wide) -> Wide
    requires left { IsWithin (2 ^ 60) (wide_element x) }
    requires right { IsWithin (2 ^ 60) (wide_element y) }
    ensures { wide_element result ≡ plus (wide_element x) (wide_element y) }
{
    Wide {
        a: sum(x.a, y.a),
        b: sum(x.b, y.b),
        c: sum(x.c, y.c),
        d: sum(x.d, y.d),
    }
}

// An entry times the conjugate of another.
fn product(x: Amp, y: Amp) -> Wide
    requires left { IsWithin (2 ^ 20) (element_of x) }
    requires right { IsWithin (2 ^ 20) (element_of y) }
    ensures value { wide_element result ≡ times (element_of x) (conjugate (element_of y)) }
    ensures bound { IsWithin (2 ^ 44) (wide_element result) }
{
    mul(x, conjugate(y))
}

fn entry_at(square: &Square, row: u8, column: u8) -> Amp
    requires square { IsSquare square.now }
    requires row { row < 2 ^ square.now.arity }
    requires column { column < 2 ^ square.now.arity }
    ensures value { element_of result ≡ (square_gate square.now).entry row column }
    ensures bound { IsWithin (2 ^ 20) (element_of result) }
{
    square.entries[place_of(square.arity, row, column)]
}

// A row times the conjugate of another.
fn row_product(square: &Square, row: u8, column: u8) -> Wide
    requires square { IsSquare square.now }
    requires row { row < 2 ^ square.now.arity }
    requires column { column < 2 ^ square.now.arity }
    ensures { wide_element result ≡ gram_entry (square_gate square.now) row column }
{
    let mut so_far = NOTHING;
    for place in 0..size_of_arity(square.arity) {
        let term = product(
            entry_at(square, row, place),
            entry_at(square, column, place),
        );
        so_far = plus(so_far, term);
    }
    so_far
}

// The conjugate of a column times another.
fn column_product(square: &Square, row: u8, column: u8) -> Wide
    requires square { IsSquare square.now }
    requires row { row < 2 ^ square.now.arity }
    requires column { column < 2 ^ square.now.arity }
    ensures { wide_element result ≡ cogram_entry (square_gate square.now) row column }
{
    let mut so_far = NOTHING;
    for place in 0..size_of_arity(square.arity) {
        let term = product(
            entry_at(square, place, column),
            entry_at(square, place, row),
        );
        so_far = plus(so_far, term);
    }
    so_far
}

// 2^m on the diagonal, 0 elsewhere.
fn wanted(root_twos: u32, on_diagonal: bool) -> Wide
    requires { root_twos ≤ 40 }
    ensures { wide_element result ≡ (if on_diagonal then whole_number (2 ^ root_twos) else nought) }
{
    let a = if on_diagonal { 1 << root_twos } else { 0 };
    Wide { a, ..NOTHING }
}

fn is_same(x: Wide, y: Wide) -> bool
    ensures yes { result ≡ true → wide_element x ≡ wide_element y }
    ensures no { result ≡ false → wide_element x ≢ wide_element y }
{
    x.a == y.a && x.b == y.b && x.c == y.c && x.d == y.d
}

fn are_products(square: &Square, row: u8, column: u8) -> bool
    requires square { IsSquare square.now }
    requires row { row < 2 ^ square.now.arity }
    requires column { column < 2 ^ square.now.arity }
    ensures yes { result ≡ true → AreProducts (square_gate square.now) row column }
    ensures no { result ≡ false → AreProducts (square_gate square.now) row column → ⊥ }
{
    let wanted = wanted(square.root_twos, row == column);
    is_same(row_product(square, row, column), wanted)
        && is_same(column_product(square, row, column), wanted)
}

fn are_row_products(square: &Square, row: u8) -> bool
    requires square { IsSquare square.now }
    requires row { row < 2 ^ square.now.arity }
    ensures yes { result ≡ true → AreRowProducts (square_gate square.now) row }
    ensures no { result ≡ false → AreRowProducts (square_gate square.now) row → ⊥ }
{
    for column in 0..size_of_arity(square.arity) {
        if !are_products(square, row, column) {
            return false;
        }
    }
    true
}

/// Whether the square times its conjugate transpose is the identity, and the other way round.
pub(crate) fn is_unitary(square: &Square) -> bool
    requires { IsSquare square.now }
    ensures yes { result ≡ true → IsUnitary (square_gate square.now) }
    ensures no { result ≡ false → IsUnitary (square_gate square.now) → ⊥ }
{
    for row in 0..size_of_arity(square.arity) {
        if !are_row_products(square, row) {
            return false;
        }
    }
    true
}
