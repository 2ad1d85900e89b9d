//! The reader of programs, of the whole of this profile of Quil.
//!
//! `parse` gives the tree of a text, line by line over the readers of `quil_statement`. Its contract is by `specs/Program.antt`:
//! which lines may stand where, what each adds to the items before it, and which text is which tree or has which first fault.
#![tactic(auto)]

mod context;
mod items;
mod laws;
mod program;
mod tokens;

pub use laws::one_tree;
pub use program::parse;
pub use quil_grammar::{ReadFault, parse_expr};

#[cfg(test)]
mod expression_tests;
#[cfg(test)]
mod long_tests;
#[cfg(test)]
mod names_tests;
#[cfg(test)]
mod print_tests;
#[cfg(test)]
mod program_tests;
#[cfg(test)]
mod tree_text;
#[cfg(test)]
mod word_tests;
