//! The state of a machine, and what a step answers.

use crate::fault::Fault;
use quil_memory::Memory;
use qvm_ring::Ray;

/// The state of a machine: an exact ray, the bits of memory, and the number of the next line, from 0.
#[derive(Drop)]
pub struct Quantum {
    pub ray: Ray,
    pub memory: Memory,
    pub at: u32,
}

/// How a step ended.
#[derive(Clone, Copy, Debug, PartialEq, Eq)]
pub enum Stepped {
    /// The instruction was done, and the place moved on.
    Went,
    /// HALT, or no instruction is left. Nothing changed.
    Halted,
    /// WAIT. The place moved on, and nothing else changed.
    AtWait,
    /// A fault. Nothing changed.
    Fault(Fault),
    /// Want of memory, at a gate. Nothing changed.
    OutOfMemory,
}
