//! The standard gates of the Quil specification.

ghost use Rattle.std.specs.Prelude.{◌≡◌, ◌+◌, ◌^◌, ◌<◌, ◌≤◌, length, map};
ghost use Rattle.qvm_ring.specs.Views.{element_of};
ghost use Rattle.qvm_ring.specs.Multiply.{IsWithin};
ghost use Rattle.quil_code.specs.StandardGates.{form_of, entry_of, standard, standard_named, gate_among};
ghost use Rattle.quil_code.specs.Matrices.{matrix_gate, IsGate};

use crate::entries::{chosen, within};
use crate::matrix::{Matrix, matrix_of};
use qvm_ring::Amp;

/// A standard gate.
#[derive(Clone, Copy, Debug, PartialEq, Eq)]
pub enum StandardGate {
    I,
    X,
    Y,
    Z,
    H,
    S,
    T,
    Phase,
    Rx,
    Ry,
    Rz,
    Cz,
    Cphase00,
    Cphase01,
    Cphase10,
    Cphase,
    Cnot,
    Ccnot,
    Swap,
    Cswap,
    Iswap,
    Pswap,
}

/// The words of the gates.
const WORDS: [(&[u8], StandardGate); 22] = [
    (b"I", StandardGate::I),
    (b"X", StandardGate::X),
    (b"Y", StandardGate::Y),
    (b"Z", StandardGate::Z),
    (b"H", StandardGate::H),
    (b"S", StandardGate::S),
    (b"T", StandardGate::T),
    (b"PHASE", StandardGate::Phase),
    (b"RX", StandardGate::Rx),
    (b"RY", StandardGate::Ry),
    (b"RZ", StandardGate::Rz),
    (b"CZ", StandardGate::Cz),
    (b"CPHASE00", StandardGate::Cphase00),
    (b"CPHASE01", StandardGate::Cphase01),
    (b"CPHASE10", StandardGate::Cphase10),
    (b"CPHASE", StandardGate::Cphase),
    (b"CNOT", StandardGate::Cnot),
    (b"CCNOT", StandardGate::Ccnot),
    (b"SWAP", StandardGate::Swap),
    (b"CSWAP", StandardGate::Cswap),
    (b"ISWAP", StandardGate::Iswap),
    (b"PSWAP", StandardGate::Pswap),
];

// The gate of a word in a table.
fn gate_among(mut table: &[(&[u8], StandardGate)], word: &[u8]) -> Option<StandardGate>
    ensures { result ≡ gate_among (map (λ e. (e.0.now, e.1)) table.entry.now) word.now }
{
    while let [entry, rest @ ..] = table {
        if entry.0 == word {
            return Some(entry.1);
        }
        table = rest;
    }
    None
}

impl StandardGate {
    /// The gate that a word of the language names.
    pub fn named(word: &[u8]) -> Option<StandardGate>
        ensures { result ≡ standard_named word.now }
    {
        gate_among(&WORDS, word)
    }

    /// On how many qubits it is: from 1 to 3.
    pub fn arity(self) -> u32
        ensures value { result ≡ (form_of self).arity }
        ensures bound { result ≤ 3 }
    {
        match self {
            StandardGate::I
            | StandardGate::X
            | StandardGate::Y
            | StandardGate::Z
            | StandardGate::H
            | StandardGate::S
            | StandardGate::T
            | StandardGate::Phase
            | StandardGate::Rx
            | StandardGate::Ry
            | StandardGate::Rz => 1,
            StandardGate::Cz
            | StandardGate::Cphase00
            | StandardGate::Cphase01
            | StandardGate::Cphase10
            | StandardGate::Cphase
            | StandardGate::Cnot
            | StandardGate::Swap
            | StandardGate::Iswap
            | StandardGate::Pswap => 2,
            StandardGate::Ccnot | StandardGate::Cswap => 3,
        }
    }

    /// How many angles it has: none or one.
    pub fn angles(self) -> u32
        ensures { result ≡ (form_of self).angles }
    {
        match self {
            StandardGate::Phase
            | StandardGate::Rx
            | StandardGate::Ry
            | StandardGate::Rz
            | StandardGate::Cphase00
            | StandardGate::Cphase01
            | StandardGate::Cphase10
            | StandardGate::Cphase
            | StandardGate::Pswap => 1,
            _ => 0,
        }
    }

    /// The m of the √2^m over which its entries are. It is the same at each angle.
    pub fn root_twos(self) -> u32
        ensures { result ≡ (form_of self).root_twos }
    {
        match self {
            StandardGate::H => 1,
            StandardGate::Rx | StandardGate::Ry => 2,
            _ => 0,
        }
    }

    /// The numerator at a row and a column, at an angle of so many eighths of a turn by its remainder by 16. The angle of a
    /// gate without one doesn't matter. RX, RY and RZ at an odd number of eighths are taken times e^{iθ/2}.
    pub fn entry(self, eighths: u8, row: u8, column: u8) -> Amp
        requires angle { eighths < 16 }
        requires row { row < 2 ^ (form_of self).arity }
        requires column { column < 2 ^ (form_of self).arity }
        ensures value { element_of result ≡ entry_of self eighths row column }
        ensures bound { IsWithin 2 (element_of result) }
    {
        within(self, eighths, row, column);
        chosen(self, eighths, row, column)
    }

    /// The matrix at an angle of so many eighths of a turn, by its remainder by 16.
    pub fn matrix(self, eighths: u8) -> Matrix
        requires { eighths < 16 }
        ensures { IsGate (standard self eighths) (matrix_gate result) }
    {
        matrix_of(self, eighths)
    }
}
