//! Gates, as programs keep them.

ghost use Rattle.std.specs.Prelude.{◌≡◌};

use crate::angle::Angle;
use crate::matrix::Matrix;
use crate::standard_gate::StandardGate;
use std::alloc::{AllocError, Global};
use std::marker::Model;
use std::sync::Arc;

/// A control qubit, as CONTROLLED and FORKED add one to a gate.
#[derive(Clone, Copy, Debug, PartialEq, Eq)]
pub enum Control {
    /// CONTROLLED: nothing happens at 0, and the gate at 1.
    Controlled,
    /// FORKED: the gate with the first half of its parameters at 0, and with the second half at 1.
    Forked,
}

/// Matrices of a defined gate, which lines with the same matrix share.
#[derive(Drop)]
pub struct MatrixList {
    list: Vec<Arc<Matrix>>,
}

impl Model for MatrixList {
    ghost use Rattle.std.specs.Prelude.{List, map};
    ghost use Rattle.std.specs.Arc.{arc_value};
    ghost use Rattle.quil_code.specs.Matrices.{Matrix};

    ghost Value = { List Matrix };

    ghost view = { λ m. map arc_value m.list.items };
}

impl MatrixList {
    ghost use Rattle.std.specs.Prelude.{◌≡◌, [], ◌∷◌, ◌++◌, length, OnOk, OnErr, slice_get, option_map, IsTrue, ◌↔◌};
    ghost use Rattle.std.specs.Arc.{arc_value};

    /// The empty list.
    pub fn new(alloc: Global) -> MatrixList
        ensures { result ≡ [] }
    {
        MatrixList {
            list: Vec::new(alloc),
        }
    }

    /// Adds one at the end.
    pub fn push(&mut self, matrix: Arc<Matrix>) -> Result<(), AllocError>
        ensures ok { OnOk result (self.new ≡ self.old ++ arc_value matrix ∷ []) }
        ensures err { OnErr result (self.new ≡ self.old) }
    {
        self.list.push(matrix)?;
        Ok(())
    }

    /// How many there are.
    pub fn len(&self) -> usize
        ensures { result ≡ length self.now }
    {
        self.list.len()
    }

    /// Whether there is none.
    pub fn is_empty(&self) -> bool
        ensures { IsTrue result ↔ (length self.now ≡ 0) }
    {
        self.list.is_empty()
    }

    /// The one at a place, counted from 0, if it is there.
    pub fn get(&self, place: usize) -> Option<&Matrix>
        ensures { option_map (λ m. m.now) result ≡ slice_get self.now place }
    {
        match self.list.get(place) {
            Some(matrix) => Some(matrix),
            None => None,
        }
    }
}

/// A gate without its modifiers.
#[derive(Drop)]
pub enum Base {
    Standard(StandardGate),
    /// A defined gate: its matrix for each list of parameters that FORKED makes, in the order of the lists.
    Defined(MatrixList),
}

/// A linked gate with its modifiers, parameters and qubits.
///
/// Its modifiers are kept as its controls, the outermost first, and whether the number of DAGGERs is odd. Its first qubits are
/// those of the controls, in their order. The parameters of a defined gate are in its matrices.
#[derive(Drop)]
pub struct GateCode {
    base: Base,
    controls: Vec<Control>,
    is_dagger: bool,
    angles: Vec<Angle>,
    qubits: Vec<u32>,
}

impl Model for GateCode {
    ghost use Rattle.quil_code.specs.GateCodes as codes;

    ghost Value = { codes.GateCode };

    ghost view = { λ g. record { base = g.base; controls = g.controls.items; is_dagger = g.is_dagger; angles = g.angles.items; qubits = g.qubits.items } };
}

impl GateCode {
    /// The gate of these parts.
    pub fn new(
        base: Base,
        controls: Vec<Control>,
        is_dagger: bool,
        angles: Vec<Angle>,
        qubits: Vec<u32>,
    ) -> GateCode
        ensures { result ≡ record { base = base; controls = controls.items; is_dagger = is_dagger; angles = angles.items; qubits = qubits.items } }
    {
        GateCode {
            base,
            controls,
            is_dagger,
            angles,
            qubits,
        }
    }

    /// The gate without its modifiers.
    pub fn base(&self) -> &Base
        ensures { result.now ≡ self.now.base }
    {
        &self.base
    }

    /// Its controls, the outermost first.
    pub fn controls(&self) -> &[Control]
        ensures { result.now ≡ self.now.controls }
    {
        &self.controls
    }

    /// Whether the gate under the controls is taken as its conjugate transpose.
    pub fn is_dagger(&self) -> bool
        ensures { result ≡ self.now.is_dagger }
    {
        self.is_dagger
    }

    /// Its parameters.
    pub fn angles(&self) -> &[Angle]
        ensures { result.now ≡ self.now.angles }
    {
        &self.angles
    }

    /// Its qubits, those of the controls first.
    pub fn qubits(&self) -> &[u32]
        ensures { result.now ≡ self.now.qubits }
    {
        &self.qubits
    }

    /// The same gate on other qubits.
    pub fn on(self, qubits: Vec<u32>) -> GateCode
        ensures { result ≡ record self { qubits = qubits.items } }
    {
        GateCode { qubits, ..self }
    }
}
