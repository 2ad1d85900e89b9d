//! Expressions, flat.

ghost use Rattle.std.specs.Prelude.{◌≡◌};
ghost use Rattle.quil_tree.specs.Expression.{IsPostfix};

use crate::place::Place;
use crate::text::Text;
use std::marker::Model;

/// An operation on two values.
#[derive(Clone, Copy, Debug, PartialEq, Eq)]
pub enum Operator {
    Add,
    Subtract,
    Multiply,
    Divide,
    Power,
}

/// A sign before an expression.
#[derive(Clone, Copy, Debug, PartialEq, Eq)]
pub enum Sign {
    Plus,
    Minus,
}

/// A function of one value.
#[derive(Clone, Copy, Debug, PartialEq, Eq)]
pub enum Function {
    Sqrt,
    Sin,
    Cos,
    Cis,
    Exp,
}

/// A whole number: its decimal digits as they were written, and its value.
#[derive(Drop)]
pub struct Whole {
    pub digits: Text,
    pub value: u64,
}

/// A memory reference: the name of a region, and the index of a cell there.
#[derive(Drop)]
pub struct Address {
    pub region: Text,
    pub index: Whole,
}

/// A leaf of an expression.
#[derive(Drop)]
pub enum Atom {
    /// A whole number or a decimal, as it was written.
    Number(Text),
    /// A number and `i`, as it was written.
    Imaginary(Text),
    /// `pi`.
    Pi,
    /// `i`.
    I,
    /// A parameter, written with `%`: its number, from 0.
    Parameter(usize),
    /// A cell of memory.
    Cell(Address),
}

/// What a step does with a stack of values.
#[derive(Drop)]
pub enum Action {
    /// Puts a value on top.
    Push(Atom),
    /// Applies a sign to the top value.
    Sign(Sign),
    /// Takes the two top values, the second operand on top, and puts the result there.
    Apply(Operator),
    /// Replaces the top value by the function's value at it.
    Call(Function),
}

/// An action, and the place (the first byte) of the expression whose value it leaves on top.
#[derive(Drop)]
pub struct Step {
    pub place: Place,
    pub action: Action,
}

/// An expression, as its steps in the order in which it is evaluated.
#[derive(Drop)]
pub struct Expr {
    steps: Vec<Step>,
}

impl Model for Expr {
    ghost use Rattle.std.specs.Prelude.{List};
    ghost use Rattle.quil_tree.specs.Expression.{IsPostfix};
    ghost use Rattle.quil_tree.specs.declared.expr.Step.{Step};

    ghost Value = { List Step };

    ghost view = { λ e. e.steps.items };

    ghost invariant = { λ e. IsPostfix e.steps.items };
}

impl Expr {
    /// The expression of these steps.
    pub fn new(steps: Vec<Step>) -> Expr
        requires { IsPostfix steps.items }
        ensures { result ≡ steps.items }
    {
        Expr { steps }
    }

    /// The steps, which are those of a tree.
    pub fn steps(&self) -> &[Step]
        ensures steps { result.now ≡ self.now }
        ensures tree { IsPostfix self.now }
    {
        &self.steps
    }
}
