//! Measurement of a ray: the outcome by a random word of 32 bits, decided exactly, and the projection that it leaves.
//!
//! What an outcome is stands in `qvm_ring`'s `specs/Measure.antt`. Neither call takes memory.
#![tactic(auto)]

mod measurement;
mod sign;
#[cfg(test)]
mod tests;

pub use measurement::{outcome, project};
