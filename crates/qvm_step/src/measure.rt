//! MEASURE and RESET.

ghost use Rattle.std.specs.Prelude.{◌≡◌, ◌<◌, length};
ghost use Rattle.qvm_ring.specs.Measure.{outcome, projected};
ghost use Rattle.qvm_ring.specs.NormViews.{bit_number};
ghost use Rattle.quil_code.specs.Program.{OutcomeFits};
ghost use Rattle.quil_code.specs.Step.{Goes, after_measurement, after_reset, after_qubit_reset, with_outcome};

use quil_code::{Cell, Quantum};
use quil_memory::{CellType, Memory};
use qvm_measure::{outcome, project};
use qvm_ring::Ray;

// Measures a qubit by the word: the ray keeps the part of the outcome.
fn measured(ray: &mut Ray, qubit: u32, word: u32) -> bool
    requires { qubit < ray.old.qubits }
    ensures value { result ≡ outcome ray.old.amplitudes qubit word }
    ensures ray { ray.new ≡ record ray.old { amplitudes = projected ray.old.amplitudes qubit (bit_number result) } }
{
    let bit = outcome(ray, qubit, word);
    project(ray, qubit, bit);
    bit
}

// The outcome goes into a cell, where there is one.
fn store(memory: &mut Memory, cell: Option<Cell>, bit: bool)
    requires { OutcomeFits cell (length memory.old) }
    ensures { memory.new ≡ with_outcome cell bit memory.old }
{
    if let Some(cell) = cell {
        memory.set_word(CellType::Bit, cell.first, u64::from(bit));
    }
}

/// MEASURE: the outcome by the word, the part of the ray that it keeps, and the cell.
pub(crate) fn measure(quantum: &mut Quantum, qubit: u32, cell: Option<Cell>, next: u32, word: u32)
    requires one { qubit < quantum.old.ray.qubits }
    requires cell { OutcomeFits cell (length quantum.old.memory) }
    ensures { after_measurement qubit cell word next quantum.old ≡ Goes quantum.new }
{
    let bit = measured(&mut quantum.ray, qubit, word);
    store(&mut quantum.memory, cell, bit);
    quantum.at = next;
}

/// RESET: all qubits 0.
pub(crate) fn reset(quantum: &mut Quantum, next: u32)
    ensures { after_reset next quantum.old ≡ Goes quantum.new }
{
    quantum.ray.restart();
    quantum.at = next;
}

/// RESET of a qubit: its measurement by the word, and X where the outcome was 1.
pub(crate) fn reset_qubit(quantum: &mut Quantum, qubit: u32, next: u32, word: u32)
    requires { qubit < quantum.old.ray.qubits }
    ensures { after_qubit_reset qubit word next quantum.old ≡ Goes quantum.new }
{
    if measured(&mut quantum.ray, qubit, word) {
        quantum.ray.flip(qubit);
    }
    quantum.at = next;
}
