//! Gates as tables of their entries.

ghost use Rattle.qvm_ring.specs.Gate.{x_gate, h_gate, cnot_gate};
ghost use Rattle.qvm_ring.specs.Table.{IsTable, IsTableOf, standard_gate};

use crate::amp::Amp;

/// A gate on `arity` qubits, at most 2. Its entries stand row by row, and are numerators over √2 ^ `root_twos`.
#[derive(Clone, Copy)]
pub(crate) struct Table {
    pub arity: u32,
    pub root_twos: u32,
    pub entries: &'static [Amp],
}

/// A gate that Quil names.
#[derive(Clone, Copy)]
pub(crate) enum StandardGate {
    X,
    H,
    Cnot,
}

const ZERO: Amp = Amp::ZERO;

const ONE: Amp = Amp::ONE;

const MINUS_ONE: Amp = Amp {
    a: -1,
    b: 0,
    c: 0,
    d: 0,
};

// X.
fn x_table() -> Table
    ensures table { IsTable result }
    ensures gate { IsTableOf x_gate result }
{
    Table {
        arity: 1,
        root_twos: 0,
        entries: &[ZERO, ONE, ONE, ZERO],
    }
}

// H.
fn h_table() -> Table
    ensures table { IsTable result }
    ensures gate { IsTableOf h_gate result }
{
    Table {
        arity: 1,
        root_twos: 1,
        entries: &[ONE, ONE, ONE, MINUS_ONE],
    }
}

// CNOT, with the control first.
fn cnot_table() -> Table
    ensures table { IsTable result }
    ensures gate { IsTableOf cnot_gate result }
{
    Table {
        arity: 2,
        root_twos: 0,
        entries: &[
            ONE, ZERO, ZERO, ZERO, //
            ZERO, ONE, ZERO, ZERO, //
            ZERO, ZERO, ZERO, ONE, //
            ZERO, ZERO, ONE, ZERO, //
        ],
    }
}

/// The table of a standard gate.
pub(crate) fn table_of(gate: StandardGate) -> Table
    ensures table { IsTable result }
    ensures gate { IsTableOf (standard_gate gate) result }
{
    match gate {
        StandardGate::X => x_table(),
        StandardGate::H => h_table(),
        StandardGate::Cnot => cnot_table(),
    }
}
