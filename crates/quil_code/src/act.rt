//! Acts: what a gate under controls does at one step.

ghost use Rattle.std.specs.Prelude.{◌≡◌, ◌≤◌, length, option_map};
ghost use Rattle.quil_code.specs.Acts.{matrix_at};

use crate::matrix::Matrix;
use arrayvec::ArrayVec;
use std::marker::Model;

/// The matrix at a pattern of control bits, of which the first control's is the most significant.
#[derive(Default, Drop)]
pub struct Piece {
    pub pattern: u32,
    pub matrix: Matrix,
}

/// A gate on control qubits and target qubits: at some patterns of control bits a matrix on the targets, at the others nothing.
///
/// An act keeps that it is on at most 16 different qubits, and that its matrices are on its targets and over its √2^m.
#[derive(Drop)]
pub struct Act {
    controls: ArrayVec<u32, 16>,
    targets: ArrayVec<u32, 3>,
    root_twos: u32,
    pieces: ArrayVec<Piece, 16>,
}

impl Model for Act {
    ghost use Rattle.quil_code.specs.Acts as acts;
    ghost use Rattle.quil_code.specs.Acts.{IsAct};

    ghost Value = { acts.Act };

    ghost view = { λ a. record { controls = a.controls.items; targets = a.targets.items; root_twos = a.root_twos; pieces = a.pieces.items } };

    ghost invariant = { λ a. IsAct (record { controls = a.controls.items; targets = a.targets.items; root_twos = a.root_twos; pieces = a.pieces.items }) };
}

// The matrix at a pattern, among these pieces.
fn matrix_among(mut pieces: &[Piece], pattern: u32) -> Option<&Matrix>
    ensures { option_map (λ m. m.now) result ≡ matrix_at pieces.entry.now pattern }
{
    while let [piece, rest @ ..] = pieces {
        if piece.pattern == pattern {
            return Some(&piece.matrix);
        }
        pieces = rest;
    }
    None
}

impl Act {
    ghost use Rattle.std.specs.Prelude.{◌≡◌, ◌≤◌, length, option_map};
    ghost use Rattle.quil_code.specs.Acts.{IsAct, matrix_at};

    /// The act of these parts, all over √2^m.
    pub fn new(
        controls: ArrayVec<u32, 16>,
        targets: ArrayVec<u32, 3>,
        root_twos: u32,
        pieces: ArrayVec<Piece, 16>,
    ) -> Act
        requires { IsAct (record { controls = controls.items; targets = targets.items; root_twos = root_twos; pieces = pieces.items }) }
        ensures { result ≡ record { controls = controls.items; targets = targets.items; root_twos = root_twos; pieces = pieces.items } }
    {
        Act {
            controls,
            targets,
            root_twos,
            pieces,
        }
    }

    /// Its control qubits.
    pub fn controls(&self) -> &[u32]
        ensures value { result.now ≡ self.now.controls }
        ensures form { IsAct self.now }
    {
        self.controls.as_slice()
    }

    /// Its target qubits: at most 3.
    pub fn targets(&self) -> &[u32]
        ensures value { result.now ≡ self.now.targets }
        ensures few { length result.now ≤ 3 }
    {
        self.targets.as_slice()
    }

    /// The m of the √2^m over which its matrices are.
    pub fn root_twos(&self) -> u32
        ensures { result ≡ self.now.root_twos }
    {
        self.root_twos
    }

    /// The matrix at a pattern of control bits, if there is one.
    pub fn matrix_at(&self, pattern: u32) -> Option<&Matrix>
        ensures { option_map (λ m. m.now) result ≡ matrix_at self.now.pieces pattern }
    {
        matrix_among(self.pieces.as_slice(), pattern)
    }
}
