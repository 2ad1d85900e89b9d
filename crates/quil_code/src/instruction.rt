//! Instructions and lines.

use crate::classic::{Cell, Classic};

/// A linked instruction. A qubit is its number in the program, from 0, in rising order of the indices in the text.
#[derive(Clone, Copy, Debug, PartialEq, Eq)]
pub enum Instruction {
    /// A declaration or a pragma, which is no step.
    Passive,
    /// NOP.
    Nop,
    /// WAIT.
    Wait,
    /// HALT.
    Halt,
    /// The gate X on a qubit.
    X(u32),
    /// The gate H on a qubit.
    H(u32),
    /// The gate CNOT on its control and its target.
    Cnot(u32, u32),
    /// MEASURE of a qubit, into a BIT where there is one.
    Measure(u32, Option<Cell>),
    /// RESET of a qubit, or of all where there is none.
    Reset(Option<u32>),
    /// A classical instruction.
    Classic(Classic),
}

/// An instruction with its line in the text, counted from 1.
#[derive(Clone, Copy, Debug, PartialEq, Eq)]
pub struct Line {
    pub number: u32,
    pub instruction: Instruction,
}
