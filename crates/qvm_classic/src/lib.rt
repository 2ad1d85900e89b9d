//! Classical instructions on memory: what `quil_code`'s definition of each says, and nothing where it is a fault.
#![tactic(auto)]

mod apply;
mod arithmetic;
mod operands;
mod place;
#[cfg(test)]
mod tests;

pub use place::classic;
