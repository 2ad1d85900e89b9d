//! What gates do: the matrices of the gates that a program defines, and the act of a gate at given angles.
//!
//! `specs/Definitions.antt` has what a definition means, a line a step: its shape, its entries in the order of the text, their
//! numerators over one power of √2, and the test whether the matrix is unitary. The gate that an act is at given angles stands in
//! quil_code's `specs/GateCodes.antt`.
#![tactic(auto)]

mod acts;
mod definition;
mod entry;
mod examples;
mod formula;
mod gate_fault;
mod numerators;
mod permutation;
#[cfg(test)]
mod tests;

pub use acts::{AngleInexact, act};
pub use definition::define;
pub use examples::{matrices_by_hand, permutations_by_hand};
pub use formula::formula_value;
pub use gate_fault::GateFault;
