//! Loading: the program of a Quil text, checked and with its names resolved.
//!
//! `load` reads a text and takes its tree through passes: what isn't built is refused, then come the regions, the counts of
//! statements and of the qubits of gates, the addresses, types, qubits and operands' values of each line, and at last the
//! numbers of the qubits.
//! `specs/Load.antt` has these passes as one function of the tree, a line a pass; the first fault is the answer.
#![tactic(auto)]

mod count;
mod gate;
mod laws;
mod layout;
mod line;
mod loading;
mod numbering;
mod operand;
mod types;
mod value_fault;

pub use laws::one_program;
pub use loading::load;
pub use quil_code::LoadFault;

#[cfg(test)]
mod expression_table;
#[cfg(test)]
mod expression_tests;
#[cfg(test)]
mod long_tests;
#[cfg(test)]
mod operand_tests;
#[cfg(test)]
mod tests;
