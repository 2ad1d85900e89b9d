//! The tree of a Quil text: declarations, definitions, statements and expressions.
//!
//! An expression has no bound on its depth, so it is kept as a list of steps in reverse Polish order and never as boxes
//! in boxes. Contracts see the steps as those of a tree (`specs/Expression.antt`); `one_tree` is the law that steps are
//! those of one tree alone.
//!
//! `print` gives the text of a tree (`specs/Printed.antt`).
#![tactic(auto)]

mod expr;
mod item;
mod laws;
mod list;
mod names;
mod place;
mod printer;
mod statement;
mod text;

pub use expr::{Action, Address, Atom, Expr, Function, Operator, Sign, Step, Whole};
pub use item::{
    CircuitDefinition, Declaration, Form, GateDefinition, Item, Offset, Sharing, Tree, TypeName,
};
pub use laws::one_tree;
pub use list::List;
pub use names::NameSet;
pub use place::Place;
pub use printer::print;
pub use statement::{
    Formula, Gate, Line, Modification, Modifier, Name, Operand, Qubit, Reference, Statement,
};
pub use text::Text;
