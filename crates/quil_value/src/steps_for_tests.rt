//! Expressions for the tests, from their steps.

ghost use Rattle.std.specs.Prelude.{◌≡◌, IsTrue};
ghost use Rattle.quil_tree.specs.Expression.{IsPostfix};
ghost use Rattle.quil_tree.specs.Values.{values_taken};

use quil_tree::{Action, Address, Atom, Expr, Function, Operator, Place, Sign, Step, Text, Whole};
use std::alloc::{AllocError, Global};
use std::test::Fail;

/// An expression in reverse Polish order, with `neg` and `pos` for the signs, `%0` for a parameter and `t[0]` for a cell.
/// The column of a step is its number, from 1.
pub(crate) fn expression(alloc: Global, words: &str) -> Result<Expr, Fail> {
    let mut steps = Vec::new(alloc);
    for word in words.split_whitespace() {
        let action = action(alloc, word)?;
        push(&mut steps, action)?;
    }
    of_steps(steps)
}

/// The sum of so many ones, each with the sum of the ones before it as its right operand.
pub(crate) fn nested_sum(alloc: Global, count: u32) -> Result<Expr, Fail> {
    let mut steps = Vec::new(alloc);
    for _ in 0..count {
        push(&mut steps, Action::Push(number(alloc, "1")?))?;
    }
    for _ in 1..count {
        push(&mut steps, Action::Apply(Operator::Add))?;
    }
    of_steps(steps)
}

fn push(steps: &mut Vec<Step>, action: Action) -> Result<(), AllocError> {
    let column = u32::try_from(steps.len()).unwrap_or(0).saturating_add(1);
    let place = Place { line: 1, column };
    steps.push(Step { place, action })?;
    Ok(())
}

fn of_steps(steps: Vec<Step>) -> Result<Expr, Fail> {
    if !is_tree(&steps) {
        return Err(Fail::from("no tree has these steps"));
    }
    Ok(Expr::new(steps))
}

fn number(alloc: Global, word: &str) -> Result<Atom, AllocError> {
    Ok(Atom::Number(Text::new(alloc, word.as_bytes())?))
}

fn action(alloc: Global, word: &str) -> Result<Action, Fail> {
    Ok(match word.as_bytes() {
        b"+" => Action::Apply(Operator::Add),
        b"-" => Action::Apply(Operator::Subtract),
        b"*" => Action::Apply(Operator::Multiply),
        b"/" => Action::Apply(Operator::Divide),
        b"^" => Action::Apply(Operator::Power),
        b"neg" => Action::Sign(Sign::Minus),
        b"pos" => Action::Sign(Sign::Plus),
        b"sqrt" => Action::Call(Function::Sqrt),
        b"sin" => Action::Call(Function::Sin),
        b"cos" => Action::Call(Function::Cos),
        b"cis" => Action::Call(Function::Cis),
        b"exp" => Action::Call(Function::Exp),
        _ => Action::Push(atom(alloc, word)?),
    })
}

fn atom(alloc: Global, word: &str) -> Result<Atom, Fail> {
    if let Some((region, rest)) = word.split_once("[") {
        let digits = rest.strip_suffix("]").ok_or("a cell ends in a bracket")?;
        let value = digits.parse().ok().ok_or("an index is a number")?;
        let index = Whole {
            digits: Text::new(alloc, digits.as_bytes())?,
            value,
        };
        let region = Text::new(alloc, region.as_bytes())?;
        return Ok(Atom::Cell(Address { region, index }));
    }
    if let Some(digits) = word.strip_prefix("%") {
        let number = digits.parse().ok().ok_or("a parameter has a number")?;
        return Ok(Atom::Parameter(number));
    }
    match word.as_bytes() {
        b"pi" => Ok(Atom::Pi),
        b"i" => Ok(Atom::I),
        [.., b'i'] => Ok(Atom::Imaginary(Text::new(alloc, word.as_bytes())?)),
        _ => Ok(number(alloc, word)?),
    }
}

// The steps are those of a tree.
fn is_tree(mut steps: &[Step]) -> bool
    ensures { IsTrue result → IsPostfix steps.entry.now }
{
    let mut depth: usize = 0;
    while let Some((step, rest)) = steps.split_first() {
        let taken = values_taken(&step.action);
        if depth < taken {
            return false;
        }
        depth = depth - taken + 1;
        steps = rest;
    }
    depth == 1
}

fn values_taken(action: &Action) -> usize
    ensures { result ≡ values_taken action.now }
{
    match action {
        Action::Push(_) => 0,
        Action::Apply(_) => 2,
        Action::Sign(_) => 1,
        Action::Call(_) => 1,
    }
}
