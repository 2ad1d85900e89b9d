//! The reader of a line of Quil: a statement, a declaration, the header of a definition, or a row of a gate's body.
//!
//! The grammar of a line is a shape of `quil_grammar` (`Statements.antt` there); what its parts mean is a table
//! (`specs/Meaning.antt`).
#![tactic(auto)]

mod choice;
mod declaration;
mod definition;
mod gate;
mod lists;
mod parser;
mod read;
mod statement;

pub use read::{read_item, read_numbers, read_row, read_statement};
