//! Statements.

use crate::expr::{Address, Expr, Sign, Whole};
use crate::list::List;
use crate::place::Place;
use crate::text::Text;

/// A name where it stands: of a region, a gate, a circuit, a pragma or a formal qubit; of a label with `@`, of a parameter
/// with `%`.
#[derive(Drop)]
pub struct Name {
    pub place: Place,
    pub text: Text,
}

/// A memory reference where it stands.
#[derive(Drop)]
pub struct Reference {
    pub place: Place,
    pub address: Address,
}

/// A qubit where it stands.
#[derive(Drop)]
pub enum Qubit {
    /// Its index, at most 65,535.
    Index(Place, Whole),
    /// A formal qubit of a circuit.
    Formal(Name),
}

/// An expression where it stands, the parentheses round it included.
#[derive(Drop)]
pub struct Formula {
    pub place: Place,
    pub expr: Expr,
}

/// The second operand of an instruction.
#[derive(Drop)]
pub enum Operand {
    Reference(Reference),
    /// A whole number below 2^64, and the sign before it, whose place then is the operand's.
    Literal(Place, Option<Sign>, Whole),
    /// An expression that is no whole number with a sign or without, and has no memory reference.
    Formula(Formula),
}

/// What a modifier does to the gate behind it.
#[derive(Clone, Copy, Debug, PartialEq, Eq)]
pub enum Modification {
    Controlled,
    Dagger,
    Forked,
}

/// A modifier where it stands.
#[derive(Clone, Copy, Debug, PartialEq, Eq)]
pub struct Modifier {
    pub place: Place,
    pub kind: Modification,
}

/// A gate or a call of a circuit.
#[derive(Drop)]
pub struct Gate {
    /// The outermost first; at most four of them FORKED.
    pub modifiers: List<Modifier>,
    pub name: Name,
    pub parameters: List<Formula>,
    pub qubits: List<Qubit>,
}

/// A statement of the top level or of the body of a circuit.
#[derive(Drop)]
pub enum Statement {
    Gate(Gate),
    Measure(Qubit, Option<Reference>),
    Reset(Option<Qubit>),
    Wait,
    Nop,
    Halt,
    /// Its name, and its tokens as they were written.
    Pragma(Name, List<Text>),
    Label(Name),
    Jump(Name),
    JumpWhen(Name, Reference),
    JumpUnless(Name, Reference),
    Not(Reference),
    Neg(Reference),
    Exchange(Reference, Reference),
    Convert(Reference, Reference),
    Move(Reference, Operand),
    Add(Reference, Operand),
    Sub(Reference, Operand),
    Mul(Reference, Operand),
    Div(Reference, Operand),
    And(Reference, Operand),
    Ior(Reference, Operand),
    Xor(Reference, Operand),
    /// The target, the region, and the cell with the index there.
    Load(Reference, Name, Reference),
    /// The region, the cell with the index there, and what is stored.
    Store(Name, Reference, Operand),
    Eq(Reference, Reference, Operand),
    Gt(Reference, Reference, Operand),
    Ge(Reference, Reference, Operand),
    Lt(Reference, Reference, Operand),
    Le(Reference, Reference, Operand),
}

/// A statement where it stands.
#[derive(Drop)]
pub struct Line {
    pub place: Place,
    pub statement: Statement,
}
