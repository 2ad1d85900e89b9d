//! Programs as a machine runs them: linked instructions, what each of them does, and why a program is refused or a run stops.
//!
//! `specs/Classic.antt` says what a classical instruction does to memory, `specs/Step.antt` what one step does to a machine,
//! `specs/Program.antt` what each `Code` keeps, and `specs/Faults.antt` what each refusal and each fault says.
#![tactic(auto)]

mod act;
mod angle;
mod classic;
mod code;
mod entries;
mod fault;
mod gate_code;
mod gate_laws;
mod instruction;
mod load_fault;
mod matrix;
mod quantum;
mod square;
mod standard_gate;

pub use act::{Act, Piece};
pub use angle::{Angle, AngleTerm, LinearAngle, angles_at};
pub use classic::{
    Arithmetic, BitOperation, Bitwise, Cell, Classic, Comparison, ProductOperation, Source, Span,
    SumOperation,
};
pub use code::{Code, MOST_QUBITS};
pub use fault::{ClassicFault, Fault};
pub use gate_code::{Base, Control, GateCode, MatrixList};
pub use gate_laws::{
    acts_are_blocks, acts_are_unitary, controls_choose_blocks, modifiers_are_controls,
    modifiers_keep_unitary, standard_gates_are_unitary, standard_gates_by_hand,
    unitarity_is_tested,
};
pub use instruction::{Instruction, Line};
pub use load_fault::LoadFault;
pub use matrix::Matrix;
pub use quantum::{Quantum, Stepped};
pub use standard_gate::StandardGate;
