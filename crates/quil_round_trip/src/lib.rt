//! Laws of whole texts: each is a program or has a fault, and a printed tree is read again as the same tree, up to places.
#![tactic(auto)]

mod laws;

pub use laws::{printed_is_read_again, tree_or_fault};
