//! The grammar of Quil's expressions and lines, and the reader of expressions.
//!
//! The grammar is data over the theory of `quil_shape` (`specs/Grammar.antt`, `specs/Statements.antt`), and one token decides
//! each choice in it. The reader is a loop over a stack of what is still to read, so no depth of a text is a depth of calls.
//! `parse_expr` gives the one expression that the grammar relates to the bytes of a text, or its first fault with its place.
#![tactic(auto)]

mod class;
mod fault;
mod laws;
mod operand;
mod parse;
mod reader;
mod sort;
mod stop;
mod token;
mod tokens;
mod value;

pub use class::Class;
pub use fault::ReadFault;
pub use laws::{
    expression_or_fault, one_expression, one_list_of_parts, one_token_decides,
    one_token_decides_statements, one_writing, sorts_are_told_apart,
};
pub use parse::{MOST_BYTES, parse_expr, refusal};
pub use reader::{Reader, expression};
pub use sort::Sort;
pub use stop::Stop;
pub use token::Token;
pub use value::value_of;
