//! Declarations, definitions, and the tree.

use crate::expr::Whole;
use crate::list::List;
use crate::place::Place;
use crate::statement::{Formula, Line, Name};
use crate::text::Text;

/// The type of a region's cells as a declaration writes it: of 1, 8, 64 and 64 bits.
#[derive(Clone, Copy, Debug, PartialEq, Eq)]
pub enum TypeName {
    Bit,
    Octet,
    Integer,
    Real,
}

/// A part of an offset: so many cells of a type.
#[derive(Drop)]
pub struct Offset {
    pub count: Whole,
    pub kind: TypeName,
}

/// The region whose bits a declared region shares, and how far behind its first bit it begins.
#[derive(Drop)]
pub struct Sharing {
    pub base: Name,
    pub offsets: List<Offset>,
}

/// A declaration of a region.
#[derive(Drop)]
pub struct Declaration {
    pub place: Place,
    pub name: Name,
    pub kind: TypeName,
    /// How many cells it has: 1 where none is written.
    pub length: Whole,
    pub sharing: Option<Sharing>,
}

/// The body of a gate's definition.
#[derive(Drop)]
pub enum Form {
    /// The entries of each row.
    Matrix(List<List<Formula>>),
    /// The numbers of the one row, as they were written.
    Permutation(List<Text>),
}

/// A definition of a gate.
#[derive(Drop)]
pub struct GateDefinition {
    pub place: Place,
    pub name: Name,
    pub parameters: List<Name>,
    pub form: Form,
}

/// A definition of a circuit.
#[derive(Drop)]
pub struct CircuitDefinition {
    pub place: Place,
    pub name: Name,
    pub parameters: List<Name>,
    pub qubits: List<Name>,
    pub body: List<Line>,
}

/// What stands at the top level.
#[derive(Drop)]
pub enum Item {
    Declare(Declaration),
    DefGate(GateDefinition),
    DefCircuit(CircuitDefinition),
    Plain(Line),
}

/// A program, as its items in the order of the text.
///
/// The bounds that stand in this crate's comments, as that of an index or of a FORKED, are those of trees that `parse` gives;
/// such a tree has no definition without a body.
pub type Tree = List<Item>;
