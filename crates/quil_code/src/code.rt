//! Code: the program that a machine runs.

use crate::instruction::Line;
use quil_memory::Layout;
use std::marker::Model;

/// At most so many qubits has a program.
pub const MOST_QUBITS: u32 = 16;

/// A linked program: the layout of its memory, its qubits, and its lines in the order of the expanded text.
///
/// A code keeps that it has at most 65,536 bits of memory, at most 16 qubits, whose indices rise, and fewer than 2^32 lines, and that
/// each line fits it: cells lie within the bits of memory, literals are in their types, qubits are below their count, and those of
/// one gate differ.
#[derive(Drop)]
pub struct Code {
    layout: Layout,
    qubits: Vec<u32>,
    lines: Vec<Line>,
}

impl Model for Code {
    ghost use Rattle.quil_code.specs.Program.{Program, IsProgram};

    ghost Value = { Program };

    ghost view = { λ c. record { layout = c.layout; qubits = c.qubits.items; lines = c.lines.items } };

    ghost invariant = { λ c. IsProgram (record { layout = c.layout; qubits = c.qubits.items; lines = c.lines.items }) };
}

impl Code {
    ghost use Rattle.std.specs.Prelude.{◌≡◌, ◌<◌, ◌≤◌, length, slice_get, Some, IsTrue, ◌↔◌};
    ghost use Rattle.quil_code.specs.Program.{Program, IsProgram, most_qubits};

    /// The code of these parts. The qubits are the indices of the text, in rising order.
    pub fn new(layout: Layout, qubits: Vec<u32>, lines: Vec<Line>) -> Code
        requires { IsProgram (record { layout = layout; qubits = qubits.items; lines = lines.items }) }
        ensures { result ≡ record { layout = layout; qubits = qubits.items; lines = lines.items } }
    {
        Code {
            layout,
            qubits,
            lines,
        }
    }

    /// The layout of its memory.
    pub fn layout(&self) -> &Layout
        ensures all { result.now ≡ self.now.layout }
        ensures kept { IsProgram self.now }
    {
        &self.layout
    }

    /// How many qubits it has.
    pub fn qubits(&self) -> u32
        ensures all { result ≡ length self.now.qubits }
        ensures few { result ≤ most_qubits }
        ensures kept { IsProgram self.now }
    {
        self.qubits.len() as u32
    }

    /// The indices of its qubits in the text, in rising order.
    pub fn indices(&self) -> &[u32]
        ensures all { result.now ≡ self.now.qubits }
        ensures kept { IsProgram self.now }
    {
        &self.qubits
    }

    /// How many lines it has.
    pub fn len(&self) -> u32
        ensures all { result ≡ length self.now.lines }
        ensures kept { IsProgram self.now }
    {
        self.lines.len() as u32
    }

    /// Whether it has no line.
    pub fn is_empty(&self) -> bool
        ensures { IsTrue result ↔ (length self.now.lines ≡ 0) }
    {
        self.lines.is_empty()
    }

    /// The line at a place, counted from 0.
    pub fn line(&self, at: u32) -> Line
        requires { at < length self.now.lines }
        ensures all { slice_get self.now.lines at ≡ Some result }
        ensures kept { IsProgram self.now }
    {
        self.lines[at as usize]
    }

    /// Its lines.
    pub fn lines(&self) -> &[Line]
        ensures all { result.now ≡ self.now.lines }
        ensures kept { IsProgram self.now }
    {
        &self.lines
    }
}
