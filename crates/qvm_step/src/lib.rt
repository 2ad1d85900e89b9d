//! The steps of the abstract machine over linked code, and the words of a seed.
//!
//! What one step does stands in `quil_code`'s `specs/Step.antt`, and what a whole run does in `specs/Run.antt`.
#![tactic(auto)]

mod laws;
mod machine;
mod measure;
mod place;
#[cfg(test)]
mod tests;
mod words;

pub use laws::{places_by_hand, runs_by_hand, steps_by_hand, word_matters_at_measurements_alone};
pub use machine::{restart, step};
pub use place::needs_word;
pub use quil_code::{Fault, Quantum, Stepped};
pub use words::draw;
