//! Gates on rays: the product of an act's matrix with an exact ray, in reduced form.
//!
//! What the product is stands in `qvm_ring`'s `specs/Gate.antt`, and an act's matrix in `quil_code`'s `specs/Acts.antt`. At each
//! basis state only the matrix at its control bits is multiplied; where there is none, its amplitude is multiplied by √2^m.
#![tactic(auto)]

mod gate;
mod product;
mod root;
#[cfg(test)]
mod tests;

pub use gate::apply;
pub use qvm_ring::ApplyFault;
