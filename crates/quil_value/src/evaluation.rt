//! What expressions are worked out to.
//!
//! Nothing bounds the depth of an expression, so its steps are taken one after another over a stack.

ghost use Rattle.std.specs.Prelude.{◌≡◌, [], ◌∷◌, Ok, Err, OnOk, IfOk, IfErr};
ghost use Rattle.quil_tree.specs.Expression.{Expression, postfix};
ghost use Rattle.quil_value.specs.Literals.{half_turn, imaginary_unit};
ghost use Rattle.quil_value.specs.Worked.{at_place, at_whole, worked_argument, worked_atom, worked_cell, worked_sign, worked_operator, worked_function, applied_to_sums, worked, value, IsFaultOf};
ghost use Rattle.quil_value.specs.Runs.{stepped, ran};

use crate::lack::Lack;
use crate::literal::{imaginary, number};
use crate::stack::Stack;
use crate::stop::Stop;
use crate::sum_fault::SumFault;
use crate::sums::{Cell, CellSum};
use crate::value::{Kind, RingNumber, Value};
use crate::work_fault::WorkFault;
use crate::worked::Worked;
use crate::{references, table};
use quil_memory::Layout;
use quil_number::Fraction;
use quil_tree::{Action, Address, Atom, Expr, Function, Operator, Place, Sign, Step};
use qvm_ring::Wide;
use std::alloc::Global;

/// What the argument of a parameter was worked out to, or why it has no value.
pub type Argument = Result<Worked, Stop>;

const NOT_EXACT: WorkFault = WorkFault::Stop(Stop::Whole(Lack::NotExact));

fn at_place(place: Place, answer: Result<Value, Lack>) -> Result<Worked, WorkFault>
    ensures ok { IfOk result (λ w. at_place place answer ≡ Ok w) }
    ensures err { IfErr result (λ f. IsFaultOf f (at_place place answer)) }
{
    match answer {
        Ok(value) => Ok(Worked::Plain(value)),
        Err(lack) => Err(WorkFault::Stop(Stop::At(place, lack))),
    }
}

fn half_turn() -> Value
    ensures { result ≡ half_turn }
{
    Value::new(Kind::Pi(Fraction { p: 1, q: 1 }))
}

fn imaginary_unit() -> Value
    ensures { result ≡ imaginary_unit }
{
    let num = Wide {
        a: 0,
        b: 0,
        c: 1,
        d: 0,
    };
    Value::new(Kind::Ring(RingNumber { num, m: 0 }))
}

fn cell(alloc: Global, layout: &Layout, address: &Address) -> Result<Worked, WorkFault>
    ensures ok { IfOk result (λ w. worked_cell layout.now address.now ≡ Ok w) }
    ensures err { IfErr result (λ f. IsFaultOf f (worked_cell layout.now address.now)) }
{
    let Some(region) = layout.find(address.region.as_bytes()) else {
        return Err(NOT_EXACT);
    };
    let index = address.index.value;
    let sum = CellSum::of_cell(alloc, Cell { region, index })?;
    Ok(Worked::Summed(sum))
}

fn argument(alloc: Global, arguments: &[Argument], number: usize) -> Result<Worked, WorkFault>
    ensures ok { IfOk result (λ w. worked_argument arguments.now number ≡ Ok w) }
    ensures err { IfErr result (λ f. IsFaultOf f (worked_argument arguments.now number)) }
{
    match arguments.get(number) {
        Some(Ok(worked)) => Ok(worked.copied(alloc)?),
        Some(Err(stop)) => Err(WorkFault::Stop(*stop)),
        None => Err(NOT_EXACT),
    }
}

fn atom(
    alloc: Global,
    layout: &Layout,
    arguments: &[Argument],
    place: Place,
    atom: &Atom,
) -> Result<Worked, WorkFault>
    ensures ok { IfOk result (λ w. worked_atom layout.now arguments.now place atom.now ≡ Ok w) }
    ensures err { IfErr result (λ f. IsFaultOf f (worked_atom layout.now arguments.now place atom.now)) }
{
    match atom {
        Atom::Number(text) => at_place(place, number(text.as_bytes())),
        Atom::Imaginary(text) => at_place(place, imaginary(text.as_bytes())),
        Atom::Pi => Ok(Worked::Plain(half_turn())),
        Atom::I => Ok(Worked::Plain(imaginary_unit())),
        Atom::Parameter(number) => argument(alloc, arguments, *number),
        Atom::Cell(address) => cell(alloc, layout, address),
    }
}

fn signed(sign: Sign, x: Worked) -> Worked
    ensures { worked_sign sign x ≡ Ok result }
{
    match x {
        Worked::Plain(value) => Worked::Plain(table::signed(sign, value)),
        Worked::Summed(sum) => Worked::Summed(signed_sum(sign, sum)),
    }
}

fn signed_sum(sign: Sign, sum: CellSum) -> CellSum
    ensures { worked_sign sign (Worked.Summed sum) ≡ Ok (Worked.Summed result) }
{
    match sign {
        Sign::Plus => sum,
        Sign::Minus => sum.opposite(),
    }
}

// An operation on two parts, of which one has references.
fn applied_to_sums(
    alloc: Global,
    operator: Operator,
    x: Worked,
    y: Worked,
) -> Result<Worked, WorkFault>
    ensures ok { IfOk result (λ w. at_whole (applied_to_sums operator x y) ≡ Ok w) }
    ensures err { IfErr result (λ f. IsFaultOf f (at_whole (applied_to_sums operator x y))) }
{
    match references::applied(alloc, operator, x, y) {
        Ok(sum) => Ok(Worked::Summed(sum)),
        Err(SumFault::Lack(lack)) => Err(WorkFault::Stop(Stop::Whole(lack))),
        Err(SumFault::OutOfMemory) => Err(WorkFault::OutOfMemory),
    }
}

fn applied(
    alloc: Global,
    place: Place,
    operator: Operator,
    x: Worked,
    y: Worked,
) -> Result<Worked, WorkFault>
    ensures ok { IfOk result (λ w. worked_operator place operator x y ≡ Ok w) }
    ensures err { IfErr result (λ f. IsFaultOf f (worked_operator place operator x y)) }
{
    match (&x, &y) {
        (Worked::Plain(x), Worked::Plain(y)) => at_place(place, table::applied(operator, x, y)),
        _ => applied_to_sums(alloc, operator, x, y),
    }
}

fn called(place: Place, function: Function, x: Worked) -> Result<Worked, WorkFault>
    ensures ok { IfOk result (λ w. worked_function place function x ≡ Ok w) }
    ensures err { IfErr result (λ f. IsFaultOf f (worked_function place function x)) }
{
    match x {
        Worked::Plain(value) => at_place(place, table::called(function, &value)),
        Worked::Summed(_sum) => Err(NOT_EXACT),
    }
}

// Takes a step. An expression's steps always find on the stack what they take.
fn take(
    alloc: Global,
    stack: &mut Stack,
    layout: &Layout,
    arguments: &[Argument],
    step: &Step,
) -> Result<(), WorkFault>
    ensures ok { OnOk result (stepped layout.now arguments.now step.now.place step.now.action stack.old ≡ Ok stack.new) }
    ensures err { IfErr result (λ f. IsFaultOf f (stepped layout.now arguments.now step.now.place step.now.action stack.old)) }
{
    let place = step.place;
    let part = match &step.action {
        Action::Push(leaf) => atom(alloc, layout, arguments, place, leaf)?,
        Action::Sign(sign) => {
            let Some(x) = stack.pop() else {
                return Err(NOT_EXACT);
            };
            signed(*sign, x)
        }
        Action::Apply(operator) => {
            let Some(y) = stack.pop() else {
                return Err(NOT_EXACT);
            };
            let Some(x) = stack.pop() else {
                return Err(NOT_EXACT);
            };
            applied(alloc, place, *operator, x, y)?
        }
        Action::Call(function) => {
            let Some(x) = stack.pop() else {
                return Err(NOT_EXACT);
            };
            called(place, *function, x)?
        }
    };
    if stack.push(part).is_err() {
        return Err(WorkFault::OutOfMemory);
    }
    Ok(())
}

fn ran(
    alloc: Global,
    layout: &Layout,
    arguments: &[Argument],
    mut steps: &[Step],
) -> Result<Worked, WorkFault>
    ensures ok { IfOk result (λ w. ran layout.now arguments.now steps.entry.now [] ≡ Ok w) }
    ensures err { IfErr result (λ f. IsFaultOf f (ran layout.now arguments.now steps.entry.now [])) }
{
    let mut stack = Stack::new(alloc);
    while let [step, rest @ ..] = steps {
        take(alloc, &mut stack, layout, arguments, step)?;
        steps = rest;
    }
    match stack.pop() {
        Some(part) => Ok(part),
        None => Err(NOT_EXACT),
    }
}

/// What an expression over memory of this layout is worked out to, or its first fault. The arguments are those of its
/// parameters.
#[tactic(auto, using(crate::proofs::Evaluations::ran_of_tree))]
pub fn work_out(
    alloc: Global,
    expr: &Expr,
    layout: &Layout,
    arguments: &[Argument],
) -> Result<Worked, WorkFault>
    ensures ok { IfOk result (λ w. (e : Expression) → expr.now ≡ postfix e → worked layout.now arguments.now e ≡ Ok w) }
    ensures err { IfErr result (λ f. (e : Expression) → expr.now ≡ postfix e → IsFaultOf f (worked layout.now arguments.now e)) }
{
    ran(alloc, layout, arguments, expr.steps())
}

/// The value of an expression without memory references, or its first fault. The arguments are those of its parameters.
pub fn eval(alloc: Global, expr: &Expr, arguments: &[Argument]) -> Result<Value, WorkFault>
    ensures ok { IfOk result (λ v. (e : Expression) → expr.now ≡ postfix e → value arguments.now e ≡ Ok v) }
    ensures err { IfErr result (λ f. (e : Expression) → expr.now ≡ postfix e → IsFaultOf f (value arguments.now e)) }
{
    let layout = Layout::new(alloc);
    match work_out(alloc, expr, &layout, arguments)? {
        Worked::Plain(value) => Ok(value),
        Worked::Summed(_sum) => Err(NOT_EXACT),
    }
}
